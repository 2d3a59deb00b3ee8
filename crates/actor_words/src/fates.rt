//! Fates.
ghost use Rattle.std.specs.Prelude.{◌<◌, OnOk};
ghost use Rattle.actor_words.specs.Words.{size};

use crate::not_read::NotRead;
use crate::terms::{time_of, txn_of};
use crate::words::Words;
use docdb_base::Seq;
use std::alloc::Global;
use txn_types::{Fate, FateOf, Fates};

/// The fate that comes next.
pub(crate) fn read_fate(words: &mut Words) -> Result<Fate, NotRead>
    ensures { OnOk result (size words.new < size words.old) }
{
    match words.next()? {
        b"pending" => Ok(Fate::Pending),
        b"aborted" => Ok(Fate::Aborted),
        b"absent" => Ok(Fate::Absent),
        b"committed" => Ok(Fate::Committed {
            at: time_of(words.next()?)?,
        }),
        _ => Err(NotRead::Form),
    }
}

/// Transactions and their fates, behind their word and to the end of the line.
pub(crate) fn read_fates(alloc: Global, words: &mut Words) -> Result<Fates, NotRead> {
    words.expect(b"fates")?;
    let mut fates = Seq::new(alloc);
    'fates: while !words.is_over() {
        let txn = txn_of(words.next()?)?;
        let fate = read_fate(words)?;
        fates.push(FateOf { txn, fate })?;
    }
    Ok(fates)
}
