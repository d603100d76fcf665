// One board alone: its tables after each step.
#![tactic(auto)]

use anyhow::Context;
use lines::{Acted, Answer, Board, Continuation, Outgoing, Place, Read, Traffic};
use network::{Address, Node};

// What the network holds and can hold, as far as this board is told.
const TRAFFIC: Traffic = Traffic { load: 0, limit: 64 };

// A board, and where its tables are shown.
#[derive(Drop)]
struct Shown<'a> {
    rt: &'a HostRuntime,
    board: Board,
}

impl Shown<'_> {
    fn show_commands(&self) -> anyhow::Result<()> {
        print!(self.rt; "    commands:")?;
        for command in self.board.commands() {
            print!(self.rt; " {command};")?;
        }
        println!(self.rt; "")?;
        Ok(())
    }

    // The places that are not free.
    fn show_places(&self) -> anyhow::Result<()> {
        print!(self.rt; "    places:")?;
        for (number, place) in self.board.places().iter().enumerate() {
            if !matches!(place, Place::Free) {
                print!(self.rt; " {number} {place};")?;
            }
        }
        println!(self.rt; "")?;
        Ok(())
    }

    fn show_lines(&self) -> anyhow::Result<()> {
        print!(self.rt; "    hand {}, lines:", self.board.hand())?;
        for line in self.board.lines() {
            print!(self.rt; " {line};")?;
        }
        println!(self.rt; "")?;
        Ok(())
    }

    fn show_order(&self) -> anyhow::Result<()> {
        print!(self.rt; "    ready, longest first:")?;
        for place in self.board.order() {
            print!(self.rt; " {place}")?;
        }
        println!(self.rt; "")?;
        Ok(())
    }

    fn show(&self) -> anyhow::Result<()> {
        self.show_commands()?;
        self.show_places()?;
        self.show_lines()?;
        self.show_order()
    }

    fn read(&mut self, address: Address, instruction: u32) -> anyhow::Result<()> {
        let continuation = Continuation {
            frame: 7,
            instruction,
        };
        let read = Read {
            address,
            continuation,
        };
        match self.board.read(read) {
            Ok(place) => println!(self.rt; "  read: place {place}")?,
            Err(_) => println!(self.rt; "  read: all places are taken")?,
        }
        self.show()
    }

    fn write(&mut self, address: Address, word: u64) -> anyhow::Result<()> {
        match self.board.write(address, word) {
            Ok(()) => println!(self.rt; "  write: held")?,
            Err(_) => println!(self.rt; "  write: no more writes can be held")?,
        }
        self.show()
    }

    // Acts on the oldest command, as node 0.
    fn act(&mut self) -> anyhow::Result<()> {
        let node = Node::new(0).context("no such node")?;
        match self.board.act(node, 0, TRAFFIC) {
            Ok(Acted { readied, sends }) => {
                println!(self.rt; "  act: {readied} made ready, {}", sent(sends))?;
            }
            Err(_) => println!(self.rt; "  act: refused")?,
        }
        self.show()
    }

    // Answers the place drawn.
    fn draw(&mut self) -> anyhow::Result<usize> {
        let Answer { place, read, word } = self.board.draw().context("nothing is ready")?;
        let instruction = read.continuation.instruction;
        println!(self.rt; "  draw: place {place}, word {word}, instruction {instruction}")?;
        self.show()?;
        Ok(place)
    }

    fn finish(&mut self, place: usize) -> anyhow::Result<()> {
        match self.board.finish(place) {
            Ok(()) => println!(self.rt; "  finish: place {place} is free")?,
            Err(_) => println!(self.rt; "  finish: place {place} is not drawn")?,
        }
        self.show()
    }

    // (By itself, as at the board: it differs from a finish in a call and in its words.)
    fn put_back(&mut self, place: usize) -> anyhow::Result<()> {
        match self.board.put_back(place) {
            Ok(()) => println!(self.rt; "  put back: place {place}")?,
            Err(_) => println!(self.rt; "  put back: place {place} is not drawn")?,
        }
        self.show()
    }
}

fn sent(outgoing: Option<Outgoing>) -> &'static str {
    match outgoing {
        None => "nothing goes out",
        Some(Outgoing::Read(_)) => "a READ goes out",
        Some(Outgoing::Write(_, _)) => "a WRITE goes out",
    }
}

// Two reads before the word comes, the write, and what is drawn then: put back once, drawn again, finished.
fn run(rt: &HostRuntime) -> anyhow::Result<()> {
    println!(rt; "One board with two lines:")?;
    let board = Board::new(2).context("no such board")?;
    let slice = Address::new(4).context("no such address")?;
    let mut shown = Shown { rt, board };
    shown.read(slice, 1)?;
    shown.read(slice, 2)?;
    shown.act()?;
    shown.act()?;
    shown.write(slice, 40)?;
    shown.act()?;
    let first = shown.draw()?;
    shown.put_back(first)?;
    let second = shown.draw()?;
    shown.finish(second)?;
    let again = shown.draw()?;
    shown.finish(again)?;
    shown.finish(again)
}

fn main(rt: HostRuntime) -> anyhow::Result<()> {
    run(&rt)
}
