//! How long finding takes on the largest openings, without wishes and with some: a benchmark.
//!
//! It writes to standard error, so that what it writes to standard output is always the same.

#![tactic(auto)]

use opening::Numbers;
use planner::planner::Planner;
use ranking::aberration::Aberration;
use ranking::penalty::Penalty;
use ranking::ranking::Ranking;
use std::io;
use std::time::Instant;
use wishes::forming::WishNumbers;

/// Finds a plan and tells the milliseconds that it took.
fn timed<R: Ranking>(rt: &HostRuntime, place: &mut Planner<R>) -> io::Result<u128> {
    let start = Instant::now(rt)?;
    let _ = place.find();
    Ok(start.elapsed(rt)?.as_millis())
}

/// Tells the times for one opening under one ranking.
fn measure<R: Ranking + Copy>(
    rt: &HostRuntime,
    name: &str,
    ranking: R,
    numbers: Numbers,
) -> io::Result<()> {
    let mut place = Planner::new(ranking);
    if place.open(numbers, ranking).is_err() {
        return Ok(());
    }
    let Numbers { w, s, n1, n2 } = numbers;
    let without = timed(rt, &mut place)?;
    let _ = place.add(WishNumbers {
        kind: 5,
        e: 4,
        f: 0,
    });
    let with = timed(rt, &mut place)?;
    eprintln!(rt;
        "{name} {w} {s} {n1} {n2}: {without} ms, {with} ms where no word may be shorter than 4"
    )
}

// Two rankings, since with one alone the compiler leaves out every figure that it does not read.
fn main(rt: HostRuntime) -> io::Result<()> {
    for numbers in [(2, 3, 1, 9), (3, 2, 1, 9), (3, 2, 2, 8)] {
        measure(&rt, "aberration", Aberration, numbers.into())?;
        measure(&rt, "penalty", Penalty, numbers.into())?;
    }
    Ok(())
}
