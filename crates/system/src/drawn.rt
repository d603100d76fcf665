// What a draw hands out: the right to finish a place of a node, or to put it back, once.
ghost use Rattle.std.specs.Prelude.{◌<◌};

use network::Node;

// It can be neither copied nor let go: a finish, a put back or a parking takes it.
pub struct Drawn {
    pub(crate) node: Node,
    pub(crate) place: usize,
    ghost place_within: { place < 32 },
}

mod methods;
