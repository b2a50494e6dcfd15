//! The operator's desk as a program: it reads lines, answers each, and ends at the end of its input or at `quit`.
#![tactic(auto)]

use anyhow::anyhow;
use desk::{Denial, Desk};
use std::env;
use std::fs::File;
use std::io::Read;
use std::ops::ControlFlow;
use text::Line;

/// Answers a whole line, and breaks off where the operator quits.
fn answer(rt: &impl Print, desk: &mut Desk, line: &Line) -> anyhow::Result<ControlFlow<()>> {
    let outcome = match line.text() {
        Ok(bytes) => desk.answer(bytes),
        Err(problem) => Some(Err(Denial::Unread(problem))),
    };
    match outcome {
        Some(Ok(grant)) => {
            println!(rt; "{grant}")?;
            if grant.ends() {
                return Ok(ControlFlow::Break(()));
            }
        }
        Some(Err(denial)) => println!(rt; "{denial}")?,
        None => {}
    }
    Ok(ControlFlow::Continue(()))
}

/// Takes in bytes and answers each line that they end; breaks off where the operator quits.
fn take_in(
    rt: &impl Print,
    desk: &mut Desk,
    line: &mut Line,
    bytes: &[u8],
) -> anyhow::Result<ControlFlow<()>> {
    for byte in bytes {
        if *byte != b'\n' {
            line.push(*byte);
            continue;
        }
        if answer(rt, desk, line)?.is_break() {
            return Ok(ControlFlow::Break(()));
        }
        line.clear();
    }
    Ok(ControlFlow::Continue(()))
}

/// Reads lines and answers each as soon as it is whole.
fn serve<R: Print + AllocGlobal>(rt: &R, mut input: impl Read + Drop) -> anyhow::Result<()> {
    let mut desk = Desk::new(rt.alloc());
    let mut line = Line::new(rt.alloc())?;
    // Not a `BufReader`: it takes twice as much from an input that others read on, wants memory, and costs two to
    // four times the work on each byte.
    let mut bytes = [0u8; 4096];
    for _ in 0..u64::MAX {
        let count = input.read(&mut bytes)?;
        if count == 0 {
            break;
        }
        if take_in(rt, &mut desk, &mut line, &bytes[..count])?.is_break() {
            return Ok(());
        }
    }
    answer(rt, &mut desk, &line)?;
    Ok(())
}

fn main(rt: HostRuntime) -> anyhow::Result<()> {
    let mut words = env::args(&rt)?.skip(1);
    match (words.next(), words.next()) {
        (None, _) => serve(&rt, rt.stdin()),
        (Some(path), None) => serve(&rt, File::open(&rt, path)?),
        (Some(_), Some(_)) => Err(anyhow!(
            "one file of commands at the most, or none to read standard input"
        )),
    }
}
