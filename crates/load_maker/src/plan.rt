//! The commands of a block.
ghost use Rattle.std.specs.Prelude.{◌≡◌, ◌<◌, ◌≤◌, ◌%◌, IfOk, OnOk};
ghost use Rattle.script_text.specs.declared.line.Line.TheVariants.{Told};
ghost use Rattle.script_text.specs.Said.{said_of};
ghost use Rattle.script_text.specs.Script.{said_after};
ghost use Rattle.load_maker.specs.Made.{clock, document, number_of, others, place, said_over, session, transaction, value, with_block};

use crate::draws::Draws;
use doc_key::DocKey;
use doc_value::Primitive;
use docdb_base::{Memory, Seq};
use script_text::{Document, Line, Said, place_for};
use std::alloc::Global;
use txn_data::{Bytes, Command, Place};

/// The tablets of the cluster.
pub(crate) const TABLETS: u32 = 8;

fn number_of(draw: u32) -> Primitive
    ensures { result ≡ number_of draw }
{
    Primitive::Int(i64::from(draw % 1_000))
}

fn document(alloc: Global, draw: u32) -> Result<Document, Memory>
    ensures { IfOk result (λ d. d ≡ document draw) }
{
    let mut hashed = Seq::new(alloc);
    hashed.push(number_of(draw))?;
    let mut subkeys = Seq::new(alloc);
    subkeys.push(Primitive::Column(1))?;
    let key = DocKey {
        hashed,
        range: Seq::new(alloc),
    };
    Ok(Document { key, subkeys })
}

fn place(alloc: Global, draw: u32) -> Result<Place, Memory>
    ensures { IfOk result (λ p. p ≡ place draw) }
{
    let document = document(alloc, draw)?;
    place_for(alloc, TABLETS, &document)
}

fn value(alloc: Global, draw: u32) -> Result<Bytes, Memory>
    ensures { IfOk result (λ v. v ≡ value draw) }
{
    let mut bytes = Vec::new(alloc);
    number_of(draw).encode(&mut bytes)?;
    Ok(Seq::of(bytes))
}

/// One of the sessions 1 to 20.
fn session(draw: u32) -> u32
    ensures { result ≡ session draw }
{
    draw % 20 + 1
}

fn tell(alloc: Global, said: &mut Said, session: u32, command: Command) -> Result<(), Memory>
    ensures { OnOk result (said_of said.new ≡ said_after (said_of said.old) (Told session command)) }
{
    said.put(alloc, Line::Told { session, command })
}

/// Sets the clock so far into a block.
fn set_clock(alloc: Global, said: &mut Said, block: u32, ahead: u64) -> Result<(), Memory>
    requires { ahead ≤ 30 }
    ensures { OnOk result (said_of said.new ≡ said_after (said_of said.old) (clock block ahead)) }
{
    let micros = 1_000_000 + 30 * u64::from(block) + ahead;
    tell(alloc, said, 1, Command::Clock { node: 0, micros })
}

/// A transaction of two writes.
fn transaction(alloc: Global, said: &mut Said, block: u32, draws: &Draws) -> Result<(), Memory>
    ensures { OnOk result (said_of said.new ≡ said_over (said_of said.old) (transaction block draws.now)) }
{
    let session = session(draws.session);
    set_clock(alloc, said, block, 10)?;
    tell(alloc, said, session, Command::Begin { priority: 0 })?;
    let first = place(alloc, draws.key)?;
    let value_there = value(alloc, draws.value)?;
    tell(
        alloc,
        said,
        session,
        Command::Put {
            place: first,
            value: value_there,
        },
    )?;
    let second = place(alloc, draws.other_key)?;
    let other_value = value(alloc, draws.other_value)?;
    tell(
        alloc,
        said,
        session,
        Command::Put {
            place: second,
            value: other_value,
        },
    )?;
    tell(alloc, said, session, Command::Commit)?;
    Ok(())
}

/// A single write, a read, and the pass of a tablet.
fn others(alloc: Global, said: &mut Said, block: u32, draws: &Draws) -> Result<(), Memory>
    ensures { OnOk result (said_of said.new ≡ said_over (said_of said.old) (others block draws.now)) }
{
    let session = session(draws.single_session);
    set_clock(alloc, said, block, 20)?;
    let written = place(alloc, draws.single_key)?;
    let single_value = value(alloc, draws.single_value)?;
    tell(
        alloc,
        said,
        session,
        Command::SinglePut {
            place: written,
            value: single_value,
            priority: 0,
        },
    )?;
    set_clock(alloc, said, block, 30)?;
    let mut places = Seq::new(alloc);
    places.push(place(alloc, draws.read_key)?)?;
    tell(
        alloc,
        said,
        session,
        Command::Read {
            strict: false,
            places,
        },
    )?;
    tell(
        alloc,
        said,
        session,
        Command::Apply {
            tablet: block % TABLETS,
        },
    )?;
    Ok(())
}

/// The ten commands of a block.
pub(crate) fn put_block(
    alloc: Global,
    said: &mut Said,
    block: u32,
    draws: &Draws,
) -> Result<(), Memory>
    ensures { OnOk result (said_of said.new ≡ with_block block draws.now (said_of said.old)) }
{
    transaction(alloc, said, block, draws)?;
    others(alloc, said, block, draws)
}
