// Drawn answers that are kept for later, by node and place.
ghost use Rattle.std.specs.Prelude.{◌≡◌, ℕ, ◌<◌, true, false, length, is_some, MatchOption, slice_index_or};
ghost use Rattle.system.specs.Parked.{is_parked, parking};

use super::drawn::Drawn;
use network::Node;

// For each node, which of its places are parked. It is no Copy: a copy would give a token twice.
#[derive(Drop)]
pub struct Parking {
    places: [[bool; 32]; 16],
}

impl Parking {
    pub fn new() -> Parking
        ensures { (n p : ℕ) → is_parked result.places n p ≡ false }
    {
        Parking {
            places: [[false; 32]; 16],
        }
    }

    // Keeps a token's node and place.
    pub fn park(&mut self, drawn: Drawn)
        ensures places { self.new.places ≡ parking self.old.places drawn.node.index drawn.place true }
        ensures there { is_parked self.new.places drawn.node.index drawn.place ≡ true }
    {
        let Drawn { node, place } = drawn;
        let row = &mut self.places[node.index()];
        row[place] = true;
    }

    // Gives back the token of a place that is parked, which then is so no more.
    pub fn take_up(&mut self, node: u64, place: u64) -> Option<Drawn>
        ensures answer { is_some result ≡ is_parked self.old.places node place }
        ensures token { MatchOption result (self.new ≡ self.old) (λ drawn. (drawn.node.index ≡ node) × (drawn.place ≡ place) × (self.new.places ≡ parking self.old.places node place false)) }
    {
        let node = Node::new(node)?;
        let place = place as usize;
        if !self.is_parked(node, place) {
            return None;
        }
        let row = &mut self.places[node.index()];
        row[place] = false;
        Some(Drawn::new(node, place))
    }

    fn is_parked(&self, node: Node, place: usize) -> bool
        ensures value { result ≡ is_parked self.now.places node.index place }
        ensures within { result ≡ true → place < 32 }
    {
        let row = &self.places[node.index()];
        row.get(place).copied().unwrap_or(false)
    }
}
