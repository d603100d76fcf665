// What is refused of a script's text.

// Bytes that are no line of a script: refusal 6.
#[derive(Clone, Copy, Debug, PartialEq, Eq)]
pub struct NotALine;

// A buffer that is shorter than the line to be printed: refusal 10.
#[derive(Clone, Copy, Debug, PartialEq, Eq)]
pub struct BufferShort;
