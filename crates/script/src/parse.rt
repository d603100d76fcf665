// A line of a script as a call.
ghost use Rattle.std.specs.Prelude.{◌≡◌, ◌<◌, true, length, is_err, MatchResult};
ghost use Rattle.script.specs.Calls.{Writes, NoCall, ReadsBack, Parts, NoParts};

use crate::call::Call;
use crate::fault::NotALine;
use crate::fields::fields;

// S with its fields.
fn start(text: &[u8]) -> Result<Call, NotALine>
    ensures { MatchResult result (λ c. Parts 83 text.now c) (λ _. NoParts 83 text.now) }
{
    let [nodes, lines, cells] = fields::<3>(text)?;
    Ok(Call::Start {
        nodes,
        lines,
        cells,
    })
}

// R with its fields, of which the last two are narrow.
fn read(text: &[u8]) -> Result<Call, NotALine>
    ensures { MatchResult result (λ c. Parts 82 text.now c) (λ _. NoParts 82 text.now) }
{
    let [node, address, frame, instruction] = fields::<4>(text)?;
    Ok(Call::Read {
        node,
        address,
        frame: u32::try_from(frame).map_err(|_| NotALine)?,
        instruction: u32::try_from(instruction).map_err(|_| NotALine)?,
    })
}

// W with its fields.
fn write(text: &[u8]) -> Result<Call, NotALine>
    ensures { MatchResult result (λ c. Parts 87 text.now c) (λ _. NoParts 87 text.now) }
{
    let [node, address, word] = fields::<3>(text)?;
    Ok(Call::Write {
        node,
        address,
        word,
    })
}

// The call of a letter and the fields behind it.
fn call_of(letter: char, text: &[u8]) -> Result<Call, NotALine>
    ensures { MatchResult result (λ c. Parts letter text.now c) (λ _. NoParts letter text.now) }
{
    match letter {
        'S' => start(text),
        'R' => read(text),
        'W' => write(text),
        'A' => {
            let [node, pick] = fields::<2>(text)?;
            Ok(Call::Act { node, pick })
        }
        'D' => {
            let [pick] = fields::<1>(text)?;
            Ok(Call::Deliver { pick })
        }
        'T' => {
            let [node] = fields::<1>(text)?;
            Ok(Call::Draw { node })
        }
        'F' => {
            let [node, place] = fields::<2>(text)?;
            Ok(Call::Finish { node, place })
        }
        'P' => {
            let [node, place] = fields::<2>(text)?;
            Ok(Call::PutBack { node, place })
        }
        'C' => {
            let [kind, length] = fields::<2>(text)?;
            Ok(Call::Create { kind, length })
        }
        _ => Err(NotALine),
    }
}

impl Call {
    // The call that a line writes; the line stands here without its line feed. No `FromStr`, which reads a `str`, and
    // no `TryFrom`: the three clauses would have to be one relation.
    pub fn parse(line: &[u8]) -> Result<Call, NotALine>
        ensures writes { MatchResult result (λ c. Writes c line.now) (λ _. NoCall line.now) }
        ensures back { ReadsBack line.now result }
        ensures short { 96 < length line.now → is_err result ≡ true }
    {
        let (letter, text) = line.split_first().ok_or(NotALine)?;
        call_of(char::from(*letter), text)
    }
}
