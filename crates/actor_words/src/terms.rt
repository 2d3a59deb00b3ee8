//! What single words spell: times, transactions, actors, paths and values.
use crate::not_read::NotRead;
use crate::numbers::{number_of, small_of};
use doc_path::Path;
use docdb_base::Seq;
use hybrid_time::HybridTime;
use std::alloc::Global;
use txn_types::{Actor, Bytes, Op, TxnId};

/// A time: its microseconds, a dot, and its logical counter.
pub(crate) fn time_of(word: &[u8]) -> Result<HybridTime, NotRead> {
    let (micros, logical) = two_numbers(word)?;
    if micros >= 1 << 52 || logical >= 4096 {
        return Err(NotRead::Form);
    }
    Ok(HybridTime::of(micros, logical as u16))
}

/// A transaction: the number of its session, a dot, and its serial number.
pub(crate) fn txn_of(word: &[u8]) -> Result<TxnId, NotRead> {
    let (session, serial) = two_numbers(word)?;
    Ok(TxnId {
        number: u128::from(session) * 18_446_744_073_709_551_616 + u128::from(serial),
    })
}

// Two numbers with a dot between them.
fn two_numbers(word: &[u8]) -> Result<(u64, u64), NotRead> {
    for (at, byte) in word.iter().enumerate() {
        if *byte == b'.' {
            return Ok((number_of(&word[..at])?, number_of(&word[at + 1..])?));
        }
    }
    Err(NotRead::Form)
}

/// An actor: a number, behind a letter where it is no session.
pub fn read_actor(word: &[u8]) -> Result<Actor, NotRead> {
    match word {
        [b't', number @ ..] => Ok(Actor::Tablet(small_of(number)?)),
        [b's', number @ ..] => Ok(Actor::Status(small_of(number)?)),
        [b'a', number @ ..] => Ok(Actor::Applier(small_of(number)?)),
        number => Ok(Actor::Session(small_of(number)?)),
    }
}

/// The number of a status tablet, as an actor.
pub(crate) fn status_of(word: &[u8]) -> Result<u32, NotRead> {
    match read_actor(word)? {
        Actor::Status(number) => Ok(number),
        _ => Err(NotRead::Form),
    }
}

/// A path: each part behind a slash.
pub(crate) fn path_of(alloc: Global, word: &[u8]) -> Result<Path, NotRead> {
    let [b'/', text @ ..] = word else {
        return Err(NotRead::Form);
    };
    let mut path = None;
    for part in text.split(|byte| *byte == b'/') {
        path = Some(with_part(alloc, path, part)?);
    }
    path.ok_or(NotRead::Form)
}

fn with_part(alloc: Global, path: Option<Path>, part: &[u8]) -> Result<Path, NotRead> {
    if part.is_empty() {
        return Err(NotRead::Form);
    }
    match path {
        Some(mut path) => {
            path.push(part)?;
            Ok(path)
        }
        None => Ok(Path::of(alloc, part)?),
    }
}

/// A value: its text behind an equals sign. None is a dash.
pub(crate) fn value_of(alloc: Global, word: &[u8]) -> Result<Option<Bytes>, NotRead> {
    match word {
        [b'=', text @ ..] => Ok(Some(Seq::of(text.to_vec(alloc)?))),
        [b'-'] => Ok(None),
        _ => Err(NotRead::Form),
    }
}

/// What a write does: it sets a value, or deletes.
pub(crate) fn op_of(alloc: Global, word: &[u8]) -> Result<Op, NotRead> {
    match value_of(alloc, word)? {
        Some(value) => Ok(Op::Put(value)),
        None => Ok(Op::Delete),
    }
}

/// A transaction, or a dash for none.
pub(crate) fn own_of(word: &[u8]) -> Result<Option<TxnId>, NotRead> {
    if word == b"-".as_slice() {
        return Ok(None);
    }
    Ok(Some(txn_of(word)?))
}

/// A time, or a dash for none.
pub(crate) fn limit_of(word: &[u8]) -> Result<Option<HybridTime>, NotRead> {
    if word == b"-".as_slice() {
        return Ok(None);
    }
    Ok(Some(time_of(word)?))
}
