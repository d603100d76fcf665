ghost use Rattle.std.specs.Prelude.{◌+◌, ◌≤◌};

mod methods;

// An array within the 1,024 cells: the kind of its elements, the address of the first, and how many there are.
// A kind is a number and no enum, since each element type brings its own.
#[derive(Clone, Copy, PartialEq, Eq)]
pub struct ArrayRef {
    kind: u8,
    base: u16,
    length: u16,
    ghost known: { 1 ≤ kind },
    ghost byte: { kind ≤ 255 },
    ghost filled: { 1 ≤ length },
    ghost within: { base + length ≤ 1024 },
}
