// Holds the answers to calls against the answers that they should have.
// A line of input is a call, " => ", and what its answer must begin with. What differs is printed, and at the end the count.
#![tactic(auto)]

use desk::desk::Desk;
use job::runner::answer_line;
use std::alloc::{AllocError, Global};
use std::io::{BufRead, BufReader};

// The wanted words, whole, at the front of the answer.
fn begins(have: &str, want: &str) -> bool {
    have.strip_prefix(want).is_some_and(|rest| rest.is_empty() || rest.starts_with([' ', ':', ',']))
}

// The answer to a call, as it is printed; empty where there is none.
fn answered(heap: Global, desk: &mut Desk, call: &str) -> Result<String, AllocError> {
    match answer_line(heap, desk, call.as_bytes())? {
        Some(reply) => format!(in heap; "{reply}"),
        None => Ok(String::new(heap)),
    }
}

// One line of input: whether its answer is as wanted.
fn holds(rt: &HostRuntime, desk: &mut Desk, line: &str) -> anyhow::Result<bool> {
    let heap = rt.alloc();
    let Some((call, want)) = line.trim().split_once(" => ") else {
        println!(rt; "no case: {line}")?;
        return Ok(false);
    };
    let have = answered(heap, desk, call)?;
    if begins(have.as_str(), want) {
        return Ok(true);
    }
    println!(rt; "{call}\n  want {want}\n  have {have}")?;
    Ok(false)
}

fn run(rt: &HostRuntime) -> anyhow::Result<()> {
    let heap = rt.alloc();
    let mut desk = Desk::new(heap);
    let mut right = 0u64;
    let mut wrong = 0u64;
    for line in BufReader::new(heap, rt.stdin())?.lines(heap) {
        if holds(rt, &mut desk, line?.as_str())? {
            right = right.saturating_add(1);
        } else {
            wrong = wrong.saturating_add(1);
        }
    }
    println!(rt; "{right} right, {wrong} wrong")?;
    Ok(())
}

fn main(rt: HostRuntime) -> anyhow::Result<()> {
    run(&rt)
}
