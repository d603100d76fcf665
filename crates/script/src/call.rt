// The calls of a script, and the lines that they are written as. They are plain numbers: a script knows nothing of
// the memory, so its sizes and continuations are none of its types.
#[derive(Clone, Copy, Debug, PartialEq, Eq)]
pub enum Call {
    Start {
        nodes: u64,
        lines: u64,
        cells: u64,
    },
    Read {
        node: u64,
        address: u64,
        frame: u32,
        instruction: u32,
    },
    Write {
        node: u64,
        address: u64,
        word: u64,
    },
    Act {
        node: u64,
        pick: u64,
    },
    Deliver {
        pick: u64,
    },
    Draw {
        node: u64,
    },
    Finish {
        node: u64,
        place: u64,
    },
    PutBack {
        node: u64,
        place: u64,
    },
    Create {
        kind: u64,
        length: u64,
    },
}
