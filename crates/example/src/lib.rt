// The portal's example, as a proved run of a session.
#![tactic(auto)]

ghost use Rattle.example.specs.Memory.{PortalRun};
ghost use Rattle.example.specs.Exact.{ExactOverPool};
ghost use Rattle.example.specs.Runs.{ExampleSession};

use network::Pool;
use script::{Answer, Line};
use session::Session;

const LINES: [&[u8]; 15] = [
    b"S,2,1,2",
    b"R,0,2,7,1",
    b"R,0,2,7,2",
    b"A,0,0",
    b"A,0,0",
    b"W,1,2,40",
    b"D,0",
    b"A,1,0",
    b"D,0",
    b"D,0",
    b"T,0",
    b"F,0,0",
    b"W,0,2,41",
    b"A,0,0",
    b"D,0",
];

#[derive(Drop)]
pub struct Example {
    pub session: Session<Pool>,
    pub answers: [Answer; 15],
}

// The law is not empty: each thing that it counts, and each thing that it supposes, is there in this run.
pub fn portal_run()
    ensures { PortalRun }
{}

// Over the pool, what a call answers and leaves is computed.
pub fn exact_over_pool()
    ensures { ExactOverPool }
{}

// The promises of sessions are not empty: this one was made, and kept them.
pub fn run_example() -> Example
    ensures { ExampleSession result.session result.answers }
{
    let mut session = Session::new(Pool::new());
    let mut answers = [Answer::Done; 15];
    // By number (others were tried): a zip with `iter_mut` lends the answers away while the law of the run speaks of them,
    // and a `map` of the lines promises each answer, but not in what state its closure, the session inside, is left.
    for (i, text) in LINES.iter().enumerate() {
        answers[i] = session.line(Line::Text(*text));
    }
    Example { session, answers }
}
