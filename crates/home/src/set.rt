ghost use Rattle.std.specs.Prelude.{◌≡◌, ◌<◌, ◌≤◌, [], ◌∷◌, length, Some, MatchOption, bit_or, count_ones};
ghost use Rattle.std.specs.Fmt.{WritesOnOk};
ghost use Rattle.home.specs.Sets.{members, alone, joined, without_lowest, Listing, Gains};
ghost use Rattle.home.specs.Shown.{with_commas, shown_set};
ghost use Rattle.std.specs.Iterator.{at_most};

use network::Node;
use std::fmt;

// Some of the sixteen nodes: the binary digit of each that is in it.
#[derive(Clone, Copy)]
pub struct NodeSet {
    mask: u16,
}

impl NodeSet {
    pub fn empty() -> NodeSet
        ensures value { result.mask ≡ 0 }
        ensures law { members result.mask ≡ [] }
    {
        NodeSet { mask: 0 }
    }

    pub fn only(node: Node) -> NodeSet
        ensures value { result.mask ≡ alone node.index }
        ensures law { members result.mask ≡ node.index ∷ [] }
    {
        NodeSet {
            mask: 1 << node.index(),
        }
    }

    pub fn insert(&mut self, node: Node)
        ensures after { self.new.mask ≡ joined self.old.mask node.index }
        ensures law { Gains self.old.mask node.index }
    {
        *self = self.union(NodeSet::only(node));
    }

    fn union(self, other: NodeSet) -> NodeSet
        ensures { result.mask ≡ bit_or self.mask other.mask }
    {
        NodeSet {
            mask: self.mask | other.mask,
        }
    }

    // The bound is said of three lengths: a usize has no place for one.
    pub fn len(self) -> usize
        ensures value { result ≡ count_ones self.mask }
        ensures law { result ≡ length (members self.mask) }
        ensures bound { result ≤ 16 }
    {
        self.mask.count_ones() as usize
    }

    // The nodes in the set, in rising order.
    pub fn members(self) -> Members
        ensures value { result.rest ≡ self.mask }
        ensures law { Listing self.mask }
    {
        Members { rest: self.mask }
    }
}

// What is still to come of a set's members; each turn takes the lowest away.
#[derive(Clone, Copy)]
pub struct Members {
    rest: u16,
}

impl Members {
    pub fn len(self) -> usize
        ensures value { result ≡ length (members self.rest) }
        ensures bound { result ≤ 16 }
    {
        NodeSet { mask: self.rest }.len()
    }

    // The lowest member, which is the number of zeros below the lowest digit that is set.
    fn lowest(self) -> Option<Node>
        ensures { MatchOption result (members self.rest ≡ []) (λ node. (0 < self.rest) × (members self.rest ≡ node.index ∷ members (without_lowest self.rest))) }
    {
        Node::new(u64::from(self.rest.trailing_zeros()))
    }
}

impl Iterator for Members {
    type Item = Node;

    ghost next_gives = { λ s r t. MatchOption r (members s.rest ≡ []) (λ node. members s.rest ≡ node.index ∷ members t.rest) };

    ghost remaining = { λ s. at_most (length (members s.rest)) };

    fn next(&mut self) -> Option<Node> {
        let lowest = self.lowest()?;
        self.rest &= self.rest - 1;
        Some(lowest)
    }
}

// The nodes by their numbers, with a comma and a space between each two.
fn list<W: fmt::Write>(mut nodes: Members, f: &mut fmt::Formatter<W>) -> fmt::Result
    ensures { WritesOnOk W.Write.write_str_gives f.old result (with_commas (members nodes.rest)) f.new }
{
    let Some(first) = nodes.next() else {
        return Ok(());
    };
    write!(f, "{first}")?;
    for node in nodes {
        write!(f, ", {node}")?;
    }
    Ok(())
}

impl fmt::Display for NodeSet {
    ghost output = { λ set. Some (shown_set (members set.mask)) };

    fn fmt<W: fmt::Write>(&self, f: &mut fmt::Formatter<W>) -> fmt::Result {
        write!(f, "{{")?;
        list(self.members(), f)?;
        write!(f, "}}")
    }
}
