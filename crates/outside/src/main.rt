//! A ranking that was written outside of the library, given to a planner beside aberration.

#![tactic(auto)]

mod free;

use free::MostFree;
use key::Key;
use opening::{Numbers, Shape};
use planner::planner::Planner;
use ranking::aberration::Aberration;
use std::io;
use theory::refusal::Refusal;

/// Prints the columns of a key with three of its figures.
fn print_key(rt: &impl Print, name: &str, found: Result<Key, Refusal>) -> io::Result<()> {
    let Ok(key) = found else {
        return println!(rt; "  {name}: none");
    };
    let tally = key.tally();
    print!(rt; "  {name}:")?;
    for column in key.columns() {
        print!(rt; " {column}")?;
    }
    let free = u32::from(tally.m1) + u32::from(tally.m2);
    let words = tally.a3;
    println!(rt; " with {free} free interactions and {words} words of length 3")
}

/// Prints what both rankings find for an opening.
fn compare(rt: &impl Print, numbers: (u16, u16, u16, u16)) -> io::Result<()> {
    let (w, s, n1, n2) = numbers;
    println!(rt; "open {w} {s} {n1} {n2}")?;
    match Shape::try_from(Numbers { w, s, n1, n2 }) {
        Ok(shape) => {
            let mut usual = Planner::of(shape, Aberration);
            let mut ours = Planner::of(shape, MostFree);
            print_key(rt, "aberration", usual.find())?;
            print_key(rt, "most free", ours.find())
        }
        Err(refusal) => {
            let number = refusal.number();
            println!(rt; "  no {number}")
        }
    }
}

fn main(rt: HostRuntime) -> io::Result<()> {
    for numbers in [
        (2, 1, 1, 3),
        (2, 2, 1, 4),
        (3, 2, 3, 4),
        (1, 1, 2, 1),
        (2, 1, 1, 1),
    ] {
        compare(&rt, numbers)?;
    }
    Ok(())
}
