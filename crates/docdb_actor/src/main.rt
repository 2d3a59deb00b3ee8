//! One session, one tablet or one status tablet by hand: lines in, and what it answers to each.
//!
//! Each line is echoed, with its answer behind it. `Sitting` has the actor; the words of the lines are those of
//! `actor_words`. What a call requires of a line is tested before it: such a line is answered as not understood, or as not
//! awaited, and changes nothing.
#![tactic(auto)]

mod awaits;
mod log;
mod machine_line;
mod machine_seat;
mod opening;
mod seated;
mod session_line;
mod session_seat;
mod sitting;
mod status_seat;
mod tablet_seat;
mod unanswered;

use sitting::Sitting;
use std::io;
use std::io::Write;

fn main(rt: HostRuntime) -> io::Result<()> {
    let mut sitting = Sitting::new(rt.alloc());
    serve(&rt, &mut sitting)
}

// Takes the lines of the input one after another.
fn serve(rt: &HostRuntime, sitting: &mut Sitting) -> io::Result<()> {
    for line in rt.lines(rt.alloc()) {
        answer(rt, sitting, line?.as_bytes())?;
    }
    Ok(())
}

fn answer(rt: &HostRuntime, sitting: &mut Sitting, line: &[u8]) -> io::Result<()> {
    let answered = sitting.takes(line)?;
    io::writer(rt).write_all(answered.bytes())
}
