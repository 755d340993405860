// Answers a job, one call to a line, from the file that is named or from standard input.
#![tactic(auto)]

use anyhow::anyhow;
use desk::desk::Desk;
use job::runner::answer_line;
use std::env;
use std::fs::File;
use std::io::{BufRead, BufReader};

// Each line that is a call gets its number and its answer.
// stays: every line is read into the room of the one before; `split` makes a vector for each line, which took half as long again on a job of blank lines
fn answer_all<I: BufRead + Drop>(rt: &HostRuntime, mut input: I) -> anyhow::Result<()> {
    let heap = rt.alloc();
    let mut desk = Desk::new(heap);
    let mut line = Vec::new(heap);
    for number in 1..u64::MAX {
        line.clear();
        if input.read_until(b'\n', &mut line)? == 0 {
            break;
        }
        if let Some(reply) = answer_line(heap, &mut desk, line.as_slice())? {
            println!(rt; "{number}: {reply}")?;
        }
    }
    Ok(())
}

// The file's job, or a word on why it can't be read.
fn answer_file(rt: &HostRuntime, path: &str) -> anyhow::Result<()> {
    let file = File::open(rt, path).map_err(|error| anyhow!(
        "the job '{path}' can't be read: {error}"
    ))?;
    answer_all(rt, BufReader::new(rt.alloc(), file)?)
}

fn run(rt: &HostRuntime) -> anyhow::Result<()> {
    match env::args(rt)?.nth(1) {
        Some(path) => answer_file(rt, path.as_str()),
        None => answer_all(rt, BufReader::new(rt.alloc(), rt.stdin())?),
    }
}

fn main(rt: HostRuntime) -> anyhow::Result<()> {
    run(&rt)
}
