//! Replies.
use crate::fates::read_fate;
use crate::lists::{read_founds, read_rows};
use crate::not_read::NotRead;
use crate::terms::path_of;
use crate::words::Words;
use std::alloc::Global;
use txn_types::{Refusal, Reply};

/// The reply that the words of a line spell.
pub fn read_reply(alloc: Global, mut words: Words) -> Result<Reply, NotRead> {
    let reply = match words.next()? {
        b"others" => Reply::Others(read_founds(alloc, &mut words)?),
        b"listed" => listed(alloc, &mut words)?,
        b"collected" => Reply::Collected(read_rows(alloc, &mut words)?),
        b"met" => met(alloc, &mut words)?,
        b"intents" => Reply::Intents(read_founds(alloc, &mut words)?),
        b"restarted" => restarted(&mut words)?,
        b"refused" => Reply::Refused(refusal(&mut words)?),
        name => timed(name, &mut words)?,
    };
    words.end()?;
    Ok(reply)
}

fn listed(alloc: Global, words: &mut Words) -> Result<Reply, NotRead> {
    let limit = words.time()?;
    let others = read_founds(alloc, words)?;
    Ok(Reply::Listed { limit, others })
}

fn met(alloc: Global, words: &mut Words) -> Result<Reply, NotRead> {
    let at = words.time()?;
    let path = path_of(alloc, words.next()?)?;
    Ok(Reply::Met { at, path })
}

// Whether it had kept a piece is a word of its own.
fn restarted(words: &mut Words) -> Result<Reply, NotRead> {
    let kept = !words.is_over();
    if kept {
        words.expect(b"kept")?;
    }
    Ok(Reply::Restarted { kept })
}

fn timed(name: &[u8], words: &mut Words) -> Result<Reply, NotRead> {
    match name {
        b"written" => Ok(Reply::Written { at: words.time()? }),
        b"single_done" => Ok(Reply::SingleDone { at: words.time()? }),
        b"committed" => Ok(Reply::Committed { at: words.time()? }),
        b"aborted_by" => Ok(Reply::AbortedBy { by: words.txn()? }),
        b"fate" => Ok(Reply::FateIs(read_fate(words)?)),
        name => bare(name),
    }
}

fn bare(name: &[u8]) -> Result<Reply, NotRead> {
    match name {
        b"applied_here" => Ok(Reply::AppliedHere),
        b"cleaned" => Ok(Reply::Cleaned),
        b"begun" => Ok(Reply::Begun),
        b"gone" => Ok(Reply::Gone),
        b"ended" => Ok(Reply::Ended),
        b"noted" => Ok(Reply::Noted),
        _ => Err(NotRead::Form),
    }
}

fn refusal(words: &mut Words) -> Result<Refusal, NotRead> {
    match words.next()? {
        b"conflict" => Ok(Refusal::Conflict {
            other: words.txn()?,
        }),
        b"overlap" => Ok(Refusal::Overlap { at: words.time()? }),
        b"lease_held" => Ok(Refusal::LeaseHeld {
            until: words.number()?,
        }),
        b"clock_full" => Ok(Refusal::ClockFull { at: words.time()? }),
        b"clock_range" => Ok(Refusal::ClockRange {
            reading: words.number()?,
        }),
        b"log_fault" => Ok(Refusal::LogFault),
        b"down" => Ok(Refusal::Down {
            since: words.number()?,
        }),
        b"memory" => Ok(Refusal::Memory),
        _ => Err(NotRead::Form),
    }
}
