// Arrays of elements over a system: one text for every kind and every network. Array and index stand apart, as in `a[i]`.
ghost use Rattle.std.specs.Prelude.{◌≡◌, IfErr};
ghost use Rattle.protocol.specs.Moments.{read, write, create, at, accepted, wrote, created};
ghost use Rattle.system.specs.Through.{Called};
ghost use Rattle.array.specs.declared.fault.ArrayFault.TheVariants.{NotAnElement};
ghost use Rattle.array.specs.Calls.{answered, address_of, CalledAt, reading};
ghost use Rattle.array.specs.Elements.{Opens};
ghost use Rattle.array.specs.References.{plain};

use crate::element::Element;
use crate::fault::ArrayFault;
use crate::reference::ArrayRef;
use lines::{Answer, Continuation};
use network::Network;
use system::System;

// The address of an element, if the array is of its kind and has its index.
fn address_of<E: Element>(array: ArrayRef, index: u64) -> Result<u64, ArrayFault>
    ensures { result ≡ address_of E.Element.NUMBER (plain array) index }
{
    if array.kind() != E::NUMBER {
        return Err(ArrayFault::OtherKind);
    }
    if index >= u64::from(array.length()) {
        return Err(ArrayFault::NoSuchIndex);
    }
    Ok(u64::from(array.base()) + index)
}

// Makes an array of elements behind the arrays before it.
pub fn create<E: Element, N: Network>(
    system: &mut System<N>,
    length: u64,
) -> Result<ArrayRef, ArrayFault>
    ensures { Called N.Network system.old (create E.Element.NUMBER length) (answered (create E.Element.NUMBER length) (λ a. created a.kind a.length a.base) result) system.new }
{
    let kind = u64::from(E::NUMBER);
    let base = system.create(kind, length)?;
    Ok(ArrayRef::new(kind, base as u64, length).unwrap())
}

// Asks at a node for an element. Answers the place that keeps the read.
pub fn read_element<E: Element, N: Network>(
    system: &mut System<N>,
    node: u64,
    array: ArrayRef,
    index: u64,
    continuation: Continuation,
) -> Result<usize, ArrayFault>
    ensures { CalledAt N.Network system.old (address_of E.Element.NUMBER (plain array) index) (λ a. read node (reading continuation.frame continuation.instruction a)) (λ a place. at node (accepted (reading continuation.frame continuation.instruction a) place)) result system.new }
{
    let address = address_of::<E>(array, index)?;
    Ok(system.read(node, address, continuation)?)
}

// Gives at a node an element to an array.
pub fn write_element<E: Element, N: Network>(
    system: &mut System<N>,
    node: u64,
    array: ArrayRef,
    index: u64,
    element: E,
) -> Result<(), ArrayFault>
    ensures { CalledAt N.Network system.old (address_of E.Element.NUMBER (plain array) index) (λ a. write node a (E.Element.packed element)) (λ a _. at node (wrote a (E.Element.packed element))) result system.new }
{
    let address = address_of::<E>(array, index)?;
    system.write(node, address, element.pack())?;
    Ok(())
}

// The element that a drawn answer brings.
pub fn open_answer<E: Element>(answer: Answer) -> Result<E, ArrayFault>
    ensures element { Opens E.Element.valid E.Element.packed answer.word result }
    ensures fault { IfErr result (λ fault. fault ≡ NotAnElement) }
{
    Ok(E::open(answer.word)?)
}
