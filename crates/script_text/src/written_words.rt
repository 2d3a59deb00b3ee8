//! The words of commands and of moves are written.
ghost use Rattle.std.specs.Prelude.{◌≡◌, ◌++◌, ◌∷◌, [], decimal, flat_map, length, map, take, OnOk, OnErr};
ghost use Rattle.std.specs.List.{All};
ghost use Rattle.doc_value.specs.Reading.{IsBytes};
ghost use Rattle.txn_data.specs.declared.place.Place.{Place as OnePlace};
ghost use Rattle.script_text.specs.Written.{IsInBytes, actor_word, behind_space, command_words, go_words, line_text, mover_word, path_word, priority_words, strict_words, told_words, value_word};

use doc_path::Path;
use doc_value::KeyRefusal;
use docdb_base::Memory;
use itoa::Buffer;
use std::alloc::AllocError;
use sub_doc_key::path_text;
use txn_data::{Actor, Command, GoLine, Mover, Place};

fn write_number(number: u64, out: &mut Vec<u8>) -> Result<(), Memory>
    ensures ok { OnOk result (out.new.items ≡ out.old.items ++ decimal number) }
    ensures memory { OnErr result (take (length out.old.items) out.new.items ≡ out.old.items) }
{
    let mut buffer = Buffer::new();
    out.extend_from_slice(buffer.format(number).as_bytes())
}

/// A letter and a number.
fn write_lettered(letter: u8, number: u32, out: &mut Vec<u8>) -> Result<(), Memory>
    ensures ok { OnOk result (out.new.items ≡ out.old.items ++ letter ∷ decimal number) }
    ensures memory { OnErr result (take (length out.old.items) out.new.items ≡ out.old.items) }
{
    out.push(letter)?;
    write_number(number as u64, out)
}

/// What a slice of bytes holds is bytes. A contract learns it here, where the slice is at hand.
fn are_bytes(bytes: &[u8])
    ensures { IsBytes bytes.now }
{}

/// The same of each part of a path.
fn is_of_bytes(path: &Path)
    ensures { All IsBytes path.now }
{
    for i in 0..path.parts() {
        are_bytes(path.part(i));
    }
}

/// A space and the text of a path.
fn write_place(place: &Place, out: &mut Vec<u8>) -> Result<(), Memory>
    ensures ok { OnOk result (out.new.items ≡ out.old.items ++ behind_space (path_word place.now)) }
    ensures bytes { OnOk result (All IsBytes place.now.path) }
    ensures memory { OnErr result (take (length out.old.items) out.new.items ≡ out.old.items) }
{
    is_of_bytes(&place.path);
    out.push(b' ')?;
    path_text(&place.path, out)
}

#[tactic(auto, using(crate::proofs::Kept::kept))]
fn write_places(places: &[Place], out: &mut Vec<u8>) -> Result<(), Memory>
    ensures ok { OnOk result (out.new.items ≡ out.old.items ++ flat_map behind_space (map path_word places.now)) }
    ensures bytes { OnOk result (All (λ (p : OnePlace). All IsBytes p.path) places.now) }
    ensures memory { OnErr result (take (length out.old.items) out.new.items ≡ out.old.items) }
{
    'places: for place in places {
        write_place(place, out)?;
    }
    Ok(())
}

/// A space and the text of a value.
fn write_value(bytes: &[u8], out: &mut Vec<u8>) -> Result<(), Memory>
    ensures ok { OnOk result (out.new.items ≡ out.old.items ++ behind_space (value_word bytes.now)) }
    ensures bytes { OnOk result (IsBytes bytes.now) }
    ensures memory { OnErr result (take (length out.old.items) out.new.items ≡ out.old.items) }
{
    are_bytes(bytes);
    out.push(b' ')?;
    match doc_value::decode(*out.allocator(), bytes) {
        Ok(value) => value.text(out),
        Err(KeyRefusal::Memory) => Err(AllocError),
        Err(_) => Ok(()),
    }
}

fn write_priority(priority: u32, out: &mut Vec<u8>) -> Result<(), Memory>
    ensures ok { OnOk result (out.new.items ≡ out.old.items ++ flat_map behind_space (priority_words priority)) }
    ensures memory { OnErr result (take (length out.old.items) out.new.items ≡ out.old.items) }
{
    if priority == 0 {
        return Ok(());
    }
    out.extend_from_slice(b" prio=")?;
    write_number(priority as u64, out)
}

fn write_strict(strict: bool, out: &mut Vec<u8>) -> Result<(), Memory>
    ensures ok { OnOk result (out.new.items ≡ out.old.items ++ flat_map behind_space (strict_words strict)) }
    ensures memory { OnErr result (take (length out.old.items) out.new.items ≡ out.old.items) }
{
    if strict {
        out.extend_from_slice(b" norestart")
    } else {
        Ok(())
    }
}

fn write_actor(actor: Actor, out: &mut Vec<u8>) -> Result<(), Memory>
    ensures ok { OnOk result (out.new.items ≡ out.old.items ++ actor_word actor) }
    ensures memory { OnErr result (take (length out.old.items) out.new.items ≡ out.old.items) }
{
    match actor {
        Actor::Tablet(k) => write_lettered(b't', k, out),
        Actor::Status(j) => write_lettered(b's', j, out),
        Actor::Session(_) | Actor::Applier(_) => Ok(()),
    }
}

/// The words of a command, with a space before each.
#[tactic(auto, using(crate::proofs::Kept::kept))]
fn write_command(command: &Command, out: &mut Vec<u8>) -> Result<(), Memory>
    ensures ok { OnOk result (out.new.items ≡ out.old.items ++ flat_map behind_space (command_words command.now)) }
    ensures bytes { OnOk result (IsInBytes command.now) }
    ensures memory { OnErr result (take (length out.old.items) out.new.items ≡ out.old.items) }
{
    match command {
        Command::Begin { priority } => {
            out.extend_from_slice(b" begin")?;
            write_priority(*priority, out)
        }
        Command::Put { place, value } => {
            out.extend_from_slice(b" put")?;
            write_place(place, out)?;
            write_value(value.items(), out)
        }
        Command::Del { place } => {
            out.extend_from_slice(b" del")?;
            write_place(place, out)
        }
        Command::Commit => out.extend_from_slice(b" commit"),
        Command::Abort => out.extend_from_slice(b" abort"),
        Command::Read { strict, places } => {
            out.extend_from_slice(b" read")?;
            write_strict(*strict, out)?;
            write_places(places.items(), out)
        }
        Command::Scan { strict, place } => {
            out.extend_from_slice(b" scan")?;
            write_strict(*strict, out)?;
            write_place(place, out)
        }
        Command::SinglePut {
            place,
            value,
            priority,
        } => {
            out.extend_from_slice(b" single put")?;
            write_place(place, out)?;
            write_value(value.items(), out)?;
            write_priority(*priority, out)
        }
        Command::SingleDel { place, priority } => {
            out.extend_from_slice(b" single del")?;
            write_place(place, out)?;
            write_priority(*priority, out)
        }
        Command::Restart { actor } => {
            out.extend_from_slice(b" restart ")?;
            write_actor(*actor, out)
        }
        Command::Apply { tablet } => {
            out.extend_from_slice(b" apply ")?;
            write_lettered(b't', *tablet, out)
        }
        Command::Clock { node, micros } => {
            out.extend_from_slice(b" clock ")?;
            write_number(*node as u64, out)?;
            out.push(b' ')?;
            write_number(*micros, out)
        }
        Command::End => Ok(()),
    }
}

/// The line of a command of a session.
pub(crate) fn write_told(session: u32, command: &Command, out: &mut Vec<u8>) -> Result<(), Memory>
    ensures ok { OnOk result (out.new.items ≡ out.old.items ++ line_text (told_words session command.now)) }
    ensures bytes { OnOk result (IsInBytes command.now) }
    ensures memory { OnErr result (take (length out.old.items) out.new.items ≡ out.old.items) }
{
    write_number(session as u64, out)?;
    out.push(b':')?;
    write_command(command, out)?;
    out.push(b'\n')?;
    Ok(())
}

fn write_mover(who: Mover, out: &mut Vec<u8>) -> Result<(), Memory>
    ensures ok { OnOk result (out.new.items ≡ out.old.items ++ mover_word who) }
    ensures memory { OnErr result (take (length out.old.items) out.new.items ≡ out.old.items) }
{
    match who {
        Mover::Session(i) => write_number(i as u64, out),
        Mover::Applier(k) => write_lettered(b'a', k, out),
    }
}

/// The line of a move.
#[tactic(auto, using(crate::proofs::Kept::kept))]
pub(crate) fn write_go(line: &GoLine, out: &mut Vec<u8>) -> Result<(), Memory>
    ensures ok { OnOk result (out.new.items ≡ out.old.items ++ line_text (go_words line.now)) }
    ensures memory { OnErr result (take (length out.old.items) out.new.items ≡ out.old.items) }
{
    out.extend_from_slice(b"@go ")?;
    write_mover(line.who, out)?;
    out.push(b' ')?;
    write_number(line.count as u64, out)?;
    out.push(b'\n')?;
    Ok(())
}
