//! Calls to a planner, and what each is answered.

#![tactic(auto)]

use opening::Numbers;
use planner::effect::Effect;
use planner::planner::Planner;
use ranking::aberration::Aberration;
use std::io;
use theory::refusal::Refusal;
use wishes::forming::WishNumbers;

/// A call to a planner.
#[derive(Clone, Copy)]
enum Call {
    /// Opens a trial with w, s, n1 and n2.
    Open(u16, u16, u16, u16),
    /// Adds a wish by its numbers, as they are given: the kind, and two more. They may be those of no wish.
    Add(u16, u16, u16),
    /// Strikes a wish by its numbers.
    Strike(u16, u16, u16),
    Find,
}

use Call::{Add, Find, Open, Strike};

const CALLS: [Call; 35] = [
    // openings at the limits
    Find,
    Open(4, 2, 1, 5),
    Open(2, 1, 1, 1),
    Open(1, 1, 1, 6),
    Open(1, 1, 1, 7),
    Open(1, 1, 2, 1),
    Find,
    // wishes that move the plan, until none is left
    Open(2, 1, 1, 3),
    Find,
    Add(1, 3, 0),
    Find,
    Add(1, 5, 0),
    Find,
    Strike(1, 6, 0),
    Strike(1, 5, 0),
    Find,
    Add(3, 8, 0),
    Strike(3, 8, 0),
    // twelve wishes, and no thirteenth
    Open(2, 1, 1, 3),
    Add(5, 3, 0),
    Add(5, 4, 0),
    Add(5, 5, 0),
    Add(5, 6, 0),
    Add(5, 7, 0),
    Add(5, 8, 0),
    Add(5, 9, 0),
    Add(5, 10, 0),
    Add(3, 2, 0),
    Add(3, 4, 0),
    Add(3, 8, 0),
    Add(5, 3, 0),
    Add(2, 1, 2),
    Add(2, 1, 4),
    Add(2, 4, 1),
    Add(6, 1, 0),
];

/// Prints an answer or the refusal.
fn tell(rt: &impl Print, call: &str, answer: Result<u8, Refusal>) -> io::Result<()> {
    match answer {
        Ok(number) => println!(rt; "{call}: {number}"),
        Err(refusal) => {
            let number = refusal.number();
            println!(rt; "{call}: no {number}")
        }
    }
}

/// Finds a plan and prints its columns.
fn find(rt: &impl Print, place: &mut Planner<Aberration>) -> io::Result<()> {
    match place.find() {
        Ok(key) => {
            print!(rt; "find: 0, the plan is")?;
            for column in key.columns() {
                print!(rt; " {column}")?;
            }
            println!(rt; "")
        }
        Err(refusal) => tell(rt, "find", Err(refusal)),
    }
}

impl Call {
    /// Makes the call and prints what it is answered.
    fn make(self, rt: &impl Print, place: &mut Planner<Aberration>) -> io::Result<()> {
        match self {
            Open(w, s, n1, n2) => {
                let opened = place.open(Numbers { w, s, n1, n2 }, Aberration);
                tell(rt, "open", opened.map(|()| 0))
            }
            Add(kind, e, f) => {
                let added = place.add(WishNumbers { kind, e, f });
                tell(rt, "add", added.map(Effect::number))
            }
            Strike(kind, e, f) => {
                let struck = place.strike(WishNumbers { kind, e, f });
                tell(rt, "strike", struck.map(Effect::number))
            }
            Find => find(rt, place),
        }
    }
}

fn main(rt: HostRuntime) -> io::Result<()> {
    let mut place = Planner::new(Aberration);
    for call in CALLS {
        call.make(&rt, &mut place)?;
    }
    Ok(())
}
