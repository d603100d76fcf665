// What one call does to the whole memory, and the law of every run.
#![tactic(auto)]

ghost use Rattle.protocol.specs.Laws.{LawOfRuns};
ghost use Rattle.protocol.specs.Example.{ExampleRun};
ghost use Rattle.protocol.specs.Edges.{MemoryEdges};

// Whatever is called, and whatever the network chooses to hand out: each step from a reached memory leads to a reached memory where
// the laws hold.
pub fn law_of_runs()
    ensures { LawOfRuns }
{}

// The law is not empty: there is a run in which a read comes before its write, waits, and is answered, drawn and finished.
pub fn example_run()
    ensures { ExampleRun }
{}

// The edges: the last address, the last room of a network of limit 2, and a write that makes its reader ready before the READ is home.
pub fn edges()
    ensures { MemoryEdges }
{}
