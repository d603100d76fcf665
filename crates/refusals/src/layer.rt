ghost use Rattle.std.specs.Prelude.{◌≡◌, ◌≤◌, length};
ghost use Rattle.refusals.specs.Refusals.{layer_text};

// The part of the memory that refuses.
#[derive(Clone, Copy, Debug, PartialEq, Eq)]
pub enum Layer {
    Script,
    Array,
    Lines,
    Home,
    System,
}

impl Layer {
    // In bytes, as the lines of a script are made of bytes.
    pub fn name(self) -> &'static [u8]
        ensures name { result.now ≡ layer_text self }
        ensures short { length result.now ≤ 6 }
    {
        match self {
            Layer::Script => b"script",
            Layer::Array => b"array",
            Layer::Lines => b"lines",
            Layer::Home => b"home",
            Layer::System => b"system",
        }
    }
}
