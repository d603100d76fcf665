ghost use Rattle.std.specs.Prelude.{◌≡◌, ◌≤◌, [], ◌∷◌, length, MatchOption};
ghost use Rattle.network.specs.Messages.{plain};
ghost use Rattle.home.specs.Pending.{pending, replying_all};
ghost use Rattle.home.specs.Sets.{members};
ghost use Rattle.std.specs.Iterator.{at_most};

use super::set::{Members, NodeSet};
use network::{Address, Message, Node};

// The replies that a home is still to send, in rising order of destination: one word to each of some nodes.
#[derive(Clone, Copy)]
pub struct Replies {
    readers: Members,
    address: Address,
    home: Node,
    word: u64,
}

impl Replies {
    // The home that the message went to answers each of the readers.
    pub(crate) fn new(readers: NodeSet, message: Message, word: u64) -> Replies
        ensures { pending result ≡ replying_all (members readers.mask) message.address.index message.to.index word }
    {
        Replies {
            readers: readers.members(),
            address: message.address(),
            home: message.to(),
            word,
        }
    }

    pub(crate) fn none(message: Message) -> Replies
        ensures { pending result ≡ [] }
    {
        Replies::new(NodeSet::empty(), message, 0)
    }

    pub fn len(self) -> usize
        ensures value { result ≡ length (pending self) }
        ensures bound { result ≤ 16 }
    {
        self.readers.len()
    }
}

impl Iterator for Replies {
    type Item = Message;

    ghost next_gives = { λ s r t. MatchOption r (pending s ≡ []) (λ reply. pending s ≡ plain reply ∷ pending t) };

    ghost remaining = { λ s. at_most (length (pending s)) };

    fn next(&mut self) -> Option<Message> {
        let reader = self.readers.next()?;
        Some(Message::reply(reader, self.address, self.home, self.word))
    }
}
