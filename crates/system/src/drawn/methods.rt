ghost use Rattle.std.specs.Prelude.{◌≡◌, ◌<◌};

use super::Drawn;
use network::Node;

impl Drawn {
    // Only this crate makes a token.
    pub(crate) fn new(node: Node, place: usize) -> Drawn
        requires { place < 32 }
        ensures node { result.node ≡ node }
        ensures place { result.place ≡ place }
    {
        Drawn { node, place }
    }

    pub fn node(&self) -> usize
        ensures { result ≡ self.now.node.index }
    {
        self.node.index()
    }

    pub fn place(&self) -> usize
        ensures { result ≡ self.now.place }
    {
        self.place
    }
}
