//! Commands of a session.
use crate::lists::read_places;
use crate::not_read::NotRead;
use crate::terms::{path_of, read_actor, value_of};
use crate::words::Words;
use std::alloc::Global;
use txn_types::{Actor, Bytes, Command, Place};

/// The command that the words of a line spell.
pub fn read_command(alloc: Global, mut words: Words) -> Result<Command, NotRead> {
    let command = match words.next()? {
        b"commit" => Command::Commit,
        b"abort" => Command::Abort,
        b"end" => Command::End,
        b"put" => put(alloc, &mut words)?,
        b"del" => Command::Del {
            place: place(alloc, &mut words)?,
        },
        b"single_put" => single_put(alloc, &mut words)?,
        b"single_del" => single_del(alloc, &mut words)?,
        b"read" => read(alloc, &mut words, false)?,
        b"read_strictly" => read(alloc, &mut words, true)?,
        b"scan" => scan(alloc, &mut words, false)?,
        b"scan_strictly" => scan(alloc, &mut words, true)?,
        name => with_numbers(name, &mut words)?,
    };
    words.end()?;
    Ok(command)
}

fn with_numbers(name: &[u8], words: &mut Words) -> Result<Command, NotRead> {
    match name {
        b"begin" => Ok(Command::Begin {
            priority: words.small()?,
        }),
        b"restart" => Ok(Command::Restart {
            actor: machine(words.next()?)?,
        }),
        b"apply" => Ok(Command::Apply {
            tablet: words.small()?,
        }),
        b"clock" => Ok(Command::Clock {
            node: words.small()?,
            micros: words.number()?,
        }),
        _ => Err(NotRead::Form),
    }
}

// A tablet or a status tablet.
fn machine(word: &[u8]) -> Result<Actor, NotRead> {
    match read_actor(word)? {
        Actor::Session(_) | Actor::Applier(_) => Err(NotRead::Form),
        actor => Ok(actor),
    }
}

fn place(alloc: Global, words: &mut Words) -> Result<Place, NotRead> {
    let tablet = words.small()?;
    let path = path_of(alloc, words.next()?)?;
    Ok(Place { tablet, path })
}

fn value(alloc: Global, words: &mut Words) -> Result<Bytes, NotRead> {
    value_of(alloc, words.next()?)?.ok_or(NotRead::Form)
}

fn put(alloc: Global, words: &mut Words) -> Result<Command, NotRead> {
    let place = place(alloc, words)?;
    let value = value(alloc, words)?;
    Ok(Command::Put { place, value })
}

fn single_put(alloc: Global, words: &mut Words) -> Result<Command, NotRead> {
    let place = place(alloc, words)?;
    let value = value(alloc, words)?;
    words.expect(b"priority")?;
    let priority = words.small()?;
    Ok(Command::SinglePut {
        place,
        value,
        priority,
    })
}

fn single_del(alloc: Global, words: &mut Words) -> Result<Command, NotRead> {
    let place = place(alloc, words)?;
    words.expect(b"priority")?;
    let priority = words.small()?;
    Ok(Command::SingleDel { place, priority })
}

fn read(alloc: Global, words: &mut Words, strict: bool) -> Result<Command, NotRead> {
    let places = read_places(alloc, words)?;
    Ok(Command::Read { strict, places })
}

fn scan(alloc: Global, words: &mut Words, strict: bool) -> Result<Command, NotRead> {
    let place = place(alloc, words)?;
    Ok(Command::Scan { strict, place })
}
