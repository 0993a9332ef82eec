//! Published minimum-aberration split-plot designs with additional whole plots, found anew.
//!
//! For each: w s n1 n2, the counts A3 to A6 as they were published, and those of the plan that finding gives under
//! aberration.

#![tactic(auto)]

use opening::Numbers;
use planner::planner::Planner;
use ranking::aberration::Aberration;
use std::io;
use theory::refusal::Refusal;
use theory::tally::Tally;

/// The numbers of an opening, and the published counts of words of length 3 to 6.
type Design = ((u16, u16, u16, u16), (u16, u16, u16, u16));

const DESIGNS: [Design; 35] = [
    // 8 whole plots of 2 runs
    ((3, 1, 1, 4), (0, 0, 1, 0)),
    ((3, 1, 1, 5), (1, 1, 1, 0)),
    ((3, 1, 1, 6), (2, 3, 2, 0)),
    ((3, 1, 1, 7), (3, 7, 4, 0)),
    ((3, 1, 1, 8), (4, 14, 8, 0)),
    ((3, 1, 2, 3), (0, 1, 0, 0)),
    ((3, 1, 2, 4), (0, 3, 0, 0)),
    ((3, 1, 2, 5), (2, 3, 2, 0)),
    ((3, 1, 2, 6), (4, 5, 4, 2)),
    ((3, 1, 2, 7), (6, 10, 8, 4)),
    // 8 whole plots of 4 runs
    ((3, 2, 1, 5), (0, 0, 0, 1)),
    ((3, 2, 1, 6), (0, 1, 2, 0)),
    ((3, 2, 1, 7), (0, 3, 4, 0)),
    ((3, 2, 1, 8), (0, 6, 8, 0)),
    ((3, 2, 1, 9), (0, 10, 16, 0)),
    ((3, 2, 2, 4), (0, 0, 0, 1)),
    ((3, 2, 2, 5), (0, 1, 2, 0)),
    ((3, 2, 2, 6), (0, 3, 4, 0)),
    ((3, 2, 2, 7), (0, 6, 8, 0)),
    ((3, 2, 2, 8), (0, 10, 16, 0)),
    // 16 whole plots of 2 runs
    ((4, 1, 1, 5), (0, 0, 0, 1)),
    ((4, 1, 1, 6), (0, 1, 2, 0)),
    ((4, 1, 1, 7), (0, 3, 4, 0)),
    ((4, 1, 1, 8), (0, 6, 8, 0)),
    ((4, 1, 1, 9), (0, 10, 16, 0)),
    ((4, 1, 2, 4), (0, 0, 0, 1)),
    ((4, 1, 2, 5), (0, 1, 2, 0)),
    ((4, 1, 2, 6), (0, 3, 4, 0)),
    ((4, 1, 2, 7), (0, 6, 8, 0)),
    ((4, 1, 2, 8), (0, 10, 16, 0)),
    ((4, 1, 3, 3), (0, 0, 1, 0)),
    ((4, 1, 3, 4), (0, 1, 2, 0)),
    ((4, 1, 3, 5), (0, 3, 4, 0)),
    ((4, 1, 3, 6), (0, 7, 7, 0)),
    ((4, 1, 3, 7), (0, 16, 0, 12)),
];

/// The figures of the plan that finding gives for an opening.
fn found(numbers: Numbers) -> Result<Tally, Refusal> {
    let mut planner = Planner::new(Aberration);
    planner.open(numbers, Aberration)?;
    Ok(planner.find()?.tally())
}

/// Finds a plan and prints its counts beside the published ones.
fn show(rt: &impl Print, design: Design) -> io::Result<()> {
    let ((w, s, n1, n2), published) = design;
    let (p3, p4, p5, p6) = published;
    match found(Numbers { w, s, n1, n2 }) {
        Ok(tally) => {
            let (a3, a4, a5, a6) = (tally.a3, tally.a4, tally.a5, tally.a6);
            let same = (a3, a4, a5, a6) == published;
            let verdict = if same { "the same" } else { "other" };
            println!(rt;
                "{w} {s} {n1} {n2}: published {p3} {p4} {p5} {p6}, found {a3} {a4} {a5} {a6}, {verdict}"
            )
        }
        Err(_) => println!(rt; "{w} {s} {n1} {n2}: no plan"),
    }
}

fn main(rt: HostRuntime) -> io::Result<()> {
    for design in DESIGNS {
        show(&rt, design)?;
    }
    Ok(())
}
