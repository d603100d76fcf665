// Calls and answers as lines in a caller's buffer.
// These are no `Display`: that says nothing of a sink that runs full, and here a short buffer has its own answer.
ghost use Rattle.std.specs.Prelude.{◌≡◌, ◌-◌, take, IfOk, MatchResult};
ghost use Rattle.script.specs.Answers.{answer_text};
ghost use Rattle.script.specs.Calls.{call_text, Fits, Writes, Alone};
ghost use Rattle.script.specs.Drafts.{written, Printed, NoRoom};
ghost use Rattle.script.specs.Texts.{ended};

use crate::answer::Answer;
use crate::call::Call;
use crate::draft::Draft;
use crate::fault::BufferShort;

fn call_line(call: Call) -> Draft
    ensures line { written result ≡ ended (call_text call) }
    ensures fits { Fits call }
{
    match call {
        Call::Start {
            nodes,
            lines,
            cells,
        } => Draft::of(b"S", &[nodes, lines, cells]),
        Call::Read {
            node,
            address,
            frame,
            instruction,
        } => Draft::of(
            b"R",
            &[node, address, u64::from(frame), u64::from(instruction)],
        ),
        Call::Write {
            node,
            address,
            word,
        } => Draft::of(b"W", &[node, address, word]),
        Call::Act { node, pick } => Draft::of(b"A", &[node, pick]),
        Call::Deliver { pick } => Draft::of(b"D", &[pick]),
        Call::Draw { node } => Draft::of(b"T", &[node]),
        Call::Finish { node, place } => Draft::of(b"F", &[node, place]),
        Call::PutBack { node, place } => Draft::of(b"P", &[node, place]),
        Call::Create { kind, length } => Draft::of(b"C", &[kind, length]),
    }
}

fn answer_line(answer: Answer) -> Draft
    ensures { written result ≡ ended (answer_text answer) }
{
    match answer {
        Answer::Done => Draft::of(b"ok", &[]),
        Answer::Place(place) => Draft::of(b"ok", &[place]),
        Answer::Ready(places) => Draft::of(b"ok", &[places]),
        Answer::Drawn {
            place,
            address,
            word,
            frame,
            instruction,
        } => Draft::of(
            b"ok",
            &[
                place,
                address,
                word,
                u64::from(frame),
                u64::from(instruction),
            ],
        ),
        Answer::Base(base) => Draft::of(b"ok", &[base]),
        Answer::Refused(refusal) => Draft::refused(refusal),
    }
}

// Writes the call's line at the front of a buffer, and says how many bytes it has.
pub fn print_call(call: Call, buffer: &mut [u8]) -> Result<usize, BufferShort>
    ensures printed { MatchResult result (λ n. Printed (ended (call_text call)) n buffer.old buffer.new) (λ _. NoRoom (ended (call_text call)) buffer.old buffer.new) }
    ensures back { IfOk result (λ n. Writes call (take (n - 1) buffer.new)) }
    ensures alone { Alone call }
{
    call_line(call).copy_to(buffer)
}

// Writes the answer's line at the front of a buffer, and says how many bytes it has.
pub fn print_answer(answer: Answer, buffer: &mut [u8]) -> Result<usize, BufferShort>
    ensures { MatchResult result (λ n. Printed (ended (answer_text answer)) n buffer.old buffer.new) (λ _. NoRoom (ended (answer_text answer)) buffer.old buffer.new) }
{
    answer_line(answer).copy_to(buffer)
}
