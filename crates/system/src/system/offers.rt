// Messages are offered to a network, which takes each where it has room.
ghost use Rattle.std.specs.Prelude.{◌≡◌, List, map};
ghost use Rattle.std.specs.Iterator.{Drains, IsFinite};
ghost use Rattle.network.specs.Bags.{Joins, Offered};
ghost use Rattle.network.specs.Messages.{plain};
ghost use Rattle.system.specs.Through.{Offer, Offers};

use network::{Message, Network};

fn offer<N: Network>(network: &mut N, message: Message)
    ensures offer { Offer N.Network network.old message network.new }
    ensures bag { Joins (N.Network.bound network.old) (N.Network.bag network.old) message (N.Network.bag network.new) }
    ensures bound { N.Network.bound network.new ≡ N.Network.bound network.old }
{
    let _ = network.send(message);
}

pub(super) fn offer_all<N: Network, I: Iterator<Item = Message> + Drop>(
    network: &mut N,
    messages: I,
)
    requires can { I.can_next messages }
    requires ends { IsFinite (I.remaining messages) }
    ensures all { (sent : List Message) × Drains I.next_gives messages sent × Offers N.Network network.old (map plain sent) network.new × Offered (N.Network.bound network.old) (map plain (N.Network.bag network.old)) (map plain sent) (map plain (N.Network.bag network.new)) }
    ensures bound { N.Network.bound network.new ≡ N.Network.bound network.old }
{
    for message in messages {
        offer(network, message);
    }
}
