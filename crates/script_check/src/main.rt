//! Scripts by hand: cases in, and for each which script it is, or why it is none.
//!
//! A case is a line `=== TITLE`, and the lines of a script behind it. Lines that begin with `=` stand for what a line cannot say
//! well: `=repeat N LINE` for a line N times, `=bytes HEX` for bytes with no line feed behind them, and `=load COUNT NUMBER`
//! for the script that is made of so many blocks from a number.
#![tactic(auto)]

mod answer;
mod case;
mod piece;

use answer::{answer, put};
use case::Case;
use std::io;
use std::io::{BufRead, BufReader};

fn main(rt: HostRuntime) -> io::Result<()> {
    let mut case = None;
    serve(&rt, &mut case)?;
    finish(&rt, &case)
}

// Takes the lines of the input one after another.
fn serve(rt: &HostRuntime, case: &mut Option<Case>) -> io::Result<()> {
    for line in BufReader::new(rt.alloc(), rt.reader())?.lines(rt.alloc()) {
        take(rt, case, line?.as_str())?;
    }
    Ok(())
}

// A title ends the case before it. Lines before the first title are passed over.
fn take(rt: &HostRuntime, case: &mut Option<Case>, line: &str) -> io::Result<()> {
    if line.starts_with("=== ") {
        finish(rt, case)?;
        *case = Some(Case::new(rt.alloc()));
        return put(&mut io::writer(rt), line);
    }
    match case {
        Some(case) => Ok(case.add(line)?),
        None => Ok(()),
    }
}

fn finish(rt: &HostRuntime, case: &Option<Case>) -> io::Result<()> {
    match case {
        Some(case) => answer(rt.alloc(), &mut io::writer(rt), case),
        None => Ok(()),
    }
}
