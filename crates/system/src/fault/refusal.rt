// What each fault tells: its number, its layer, and the node and the address that it names.
ghost use Rattle.std.specs.Prelude.{◌≡◌};
ghost use Rattle.refusals.specs.Refusals.{by_layer, naming_address, naming_node};
ghost use Rattle.system.specs.Faults.{refusal_of};
ghost use Rattle.system.specs.Refusals.{scripted};
ghost use Rattle.system.specs.declared.fault.SystemFault.TheVariants.{Array};

use super::{CreateFault, SystemFault};
use home::WrittenTwice;
use lines::LineFault;
use network::{Address, Node};
use refusals::{Layer, Refusal};

fn of_system(number: u64) -> Refusal
    ensures { result ≡ by_layer Layer.System number }
{
    Refusal::new(Layer::System, number)
}

fn at_cell(layer: Layer, number: u64, node: Node, address: Address) -> Refusal
    ensures { result ≡ naming_address address.index (naming_node node.index (by_layer layer number)) }
{
    Refusal::new(layer, number)
        .with_node(u64::from(node))
        .with_address(u64::from(address))
}

// No `From` beside a line's or home's fault: which number each has is said of the whole memory, here.
fn of_lines(fault: LineFault) -> Refusal
    ensures { result ≡ scripted (refusal_of (SystemFault.Lines fault)) }
{
    match fault {
        LineFault::EveryLineWaits(node, address) => at_cell(Layer::Lines, 25, node, address),
        LineFault::WrittenTwice(node, address) => at_cell(Layer::Lines, 29, node, address),
    }
}

fn of_home(fault: WrittenTwice) -> Refusal
    ensures { result ≡ scripted (refusal_of (SystemFault.Home fault)) }
{
    at_cell(Layer::Home, 30, fault.writer(), fault.address())
}

impl From<CreateFault> for Refusal {
    ghost from_gives = { λ fault refusal. refusal ≡ scripted (refusal_of (Array fault)) };

    fn from(fault: CreateFault) -> Refusal {
        match fault {
            CreateFault::BadSize => Refusal::new(Layer::Array, 1),
            CreateFault::NoRoom => Refusal::new(Layer::Array, 31),
        }
    }
}

impl From<SystemFault> for Refusal {
    ghost from_gives = { λ fault refusal. refusal ≡ scripted (refusal_of fault) };

    fn from(fault: SystemFault) -> Refusal {
        match fault {
            SystemFault::BadSize => of_system(1),
            SystemFault::NoSuchNode(node) => of_system(2).with_node(node),
            SystemFault::NoSuchAddress(node, address) => {
                of_system(3).with_node(node).with_address(address)
            }
            SystemFault::NoSuchCommand(node) => of_system(4).with_node(node),
            SystemFault::NotDrawn(node) => of_system(5).with_node(node),
            SystemFault::NotStarted => of_system(20),
            SystemFault::StartedAlready => of_system(21),
            SystemFault::NetworkUnfit => of_system(22),
            SystemFault::PlacesTaken(node) => of_system(23).with_node(node),
            SystemFault::WritesHeld(node) => of_system(24).with_node(node),
            SystemFault::NetworkFull(node, address) => of_system(26)
                .with_node(node)
                .with_address(u64::from(address)),
            SystemFault::NothingInTransit => of_system(27),
            SystemFault::NothingReady(node) => of_system(28).with_node(node),
            SystemFault::Lines(fault) => of_lines(fault),
            SystemFault::Home(fault) => of_home(fault),
            SystemFault::Array(fault) => Refusal::from(fault),
        }
    }
}
