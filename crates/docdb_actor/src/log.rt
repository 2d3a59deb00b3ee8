//! The log of a tablet or a status tablet.
ghost use Rattle.std.specs.Prelude.{◌≡◌, [], IfOk};

use actor_words::{NotRead, Words};
use docdb_outside::{FailAt, MemLog};
use std::alloc::{AllocError, Global};

/// An empty log, of which the calls fail that the rest of a line names: behind the word for it, the number of each and
/// whether its piece is kept.
pub fn read_log(alloc: Global, words: &mut Words) -> Result<MemLog, NotRead>
    ensures { IfOk result (λ log. log.held ≡ []) }
{
    let fails = read_fails(alloc, words)?;
    Ok(MemLog::of(Vec::new(alloc), fails))
}

fn read_fails(alloc: Global, words: &mut Words) -> Result<Vec<FailAt>, NotRead> {
    let mut fails = Vec::new(alloc);
    if words.is_over() {
        return Ok(fails);
    }
    words.expect(b"fails")?;
    'fails: while !words.is_over() {
        let call = words.next()?;
        let kept = words.next()?;
        fails.push(fail_at(call, kept)?).map_err(AllocError::from)?;
    }
    Ok(fails)
}

fn fail_at(call: &[u8], kept: &[u8]) -> Result<FailAt, NotRead> {
    let call = Words::of(call).number()?;
    match kept {
        b"kept" => Ok(FailAt { call, kept: true }),
        b"lost" => Ok(FailAt { call, kept: false }),
        _ => Err(NotRead::Form),
    }
}
