// One cell, its home, and the boards that ask for it, over any network.
use crate::limits::within;
use home::{Cell, Replies};
use network::{Address, Kind, Message, Network, Node};

// The most deliveries in one go.
const DELIVERIES: u64 = 64;

// The cell at this address, which lies at this home, and the network to it.
#[derive(Drop)]
struct Life<'a, N> {
    rt: &'a HostRuntime,
    network: N,
    home: Node,
    address: Address,
    cell: Cell,
}

// A message to fill room with.
pub(crate) fn blank() -> anyhow::Result<Message> {
    Ok(Message::read(within(0)?, within(0)?, within(0)?))
}

impl<N: Network> Life<'_, N> {
    fn send(&mut self, message: Message) -> anyhow::Result<()> {
        if self.network.send(message).is_err() {
            println!(self.rt; "  {message} finds no room")?;
        }
        Ok(())
    }

    fn answer(&mut self, replies: Replies) -> anyhow::Result<()> {
        for reply in replies {
            self.send(reply)?;
        }
        Ok(())
    }

    fn arrive(&mut self, message: Message) -> anyhow::Result<()> {
        if message.kind() == Kind::Reply {
            println!(self.rt; "  {message}: board {} has its word", message.to())?;
            return Ok(());
        }
        match self.cell.receive(message) {
            Ok(replies) => {
                println!(self.rt; "  {message}: the cell is {}", self.cell)?;
                self.answer(replies)
            }
            Err(fault) => {
                println!(self.rt; "  {message}: refused, {fault}; the cell is {}", self.cell)?;
                Ok(())
            }
        }
    }

    // Delivers until nothing is in transit; picks that jump about show each network's own order.
    fn deliver_all(&mut self) -> anyhow::Result<()> {
        for turn in 0..DELIVERIES {
            let Some(message) = self.network.take(5 * turn + 3) else {
                break;
            };
            self.arrive(message)?;
        }
        Ok(())
    }

    fn ask(&mut self, reader: u64) -> anyhow::Result<()> {
        self.send(Message::read(self.home, self.address, within(reader)?))
    }

    fn give(&mut self, writer: u64, word: u64) -> anyhow::Result<()> {
        self.send(Message::write(self.home, self.address, within(writer)?, word))
    }

    // Reads before the write, one of them twice; the write; a late read; a second write.
    fn walk(&mut self) -> anyhow::Result<()> {
        for reader in [5, 0, 12, 5, 3] {
            self.ask(reader)?;
        }
        self.deliver_all()?;
        self.give(2, 40)?;
        self.deliver_all()?;
        self.ask(7)?;
        self.deliver_all()?;
        self.give(9, 41)?;
        self.deliver_all()
    }
}

pub(crate) fn walk<N: Network + Drop>(
    rt: &HostRuntime,
    name: &str,
    network: N,
) -> anyhow::Result<()> {
    println!(rt; "Over {name}, limit {}:", network.limit())?;
    let mut life = Life {
        rt,
        network,
        home: within(1)?,
        address: within(70)?,
        cell: Cell::Undefined,
    };
    life.walk()
}
