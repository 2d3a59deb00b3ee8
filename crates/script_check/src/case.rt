//! A case: the bytes of a script, or a script that is made.
ghost use Rattle.std.specs.Prelude.{◌≡◌, ◌<◌, ◌⊎◌, IfErr, IfOk, IfSome, IsNone, Ok, Err, max, min};
ghost use Rattle.cluster_config.specs.Head.{IsSpelled};
ghost use Rattle.script_text.specs.Saying.{IsSaid};
ghost use Rattle.script_text.specs.Script.{script_of};
ghost use Rattle.load_maker.specs.Made as load;

use crate::piece::Piece;
use docdb_base::Memory;
use load_maker::make;
use script_text::{ScriptRefusal, read_script};
use std::alloc::Global;
use txn_data::{Commands, Config};

/// A case: the bytes of a script, or a script that is made.
#[derive(Drop)]
pub struct Case {
    alloc: Global,
    /// The bytes of its lines.
    pub text: Vec<u8>,
    /// How many blocks a made script has, and the number that it is made from.
    pub made: Option<(u32, u64)>,
}

impl Case {
    /// No line.
    pub fn new(alloc: Global) -> Case {
        Case {
            alloc,
            text: Vec::new(alloc),
            made: None,
        }
    }

    /// Takes a line.
    pub fn add(&mut self, line: &str) -> Result<(), Memory> {
        match Piece::of(line) {
            Piece::Lines { count, line } => self.put_lines(count, line.as_bytes()),
            Piece::Bytes(digits) => self.put_bytes(digits.as_bytes()),
            Piece::Made { blocks, number } => {
                self.made = Some((blocks, number));
                Ok(())
            }
        }
    }

    /// The script, or why it is none. A made script has 1 to 10,000 blocks: the nearest of these.
    pub fn read(&self) -> Result<(Config, Commands), ScriptRefusal>
        ensures ok { IsNone self.now.made → IfOk result (λ x. script_of self.now.text.items ≡ Ok x) }
        ensures refused { IsNone self.now.made
            → IfErr result (λ e. (e ≡ ScriptRefusal.Memory) ⊎ (script_of self.now.text.items ≡ Err e)) }
        ensures cluster { IfSome self.now.made (λ m. IfOk result (λ x. x.0 ≡ load.cluster)) }
        ensures plan { IfSome self.now.made (λ m. IfOk result (λ x. x.1 ≡ load.made (max 1 (min m.0 10000)) m.1)) }
        ensures memory { IfSome self.now.made (λ m. IfErr result (λ e. e ≡ ScriptRefusal.Memory)) }
        // What a script says, read or made, can be written.
        ensures spelled { IfOk result (λ x. IsSpelled x.0) }
        ensures said { IfOk result (λ x. IsSaid x.0 x.1) }
    {
        match self.made {
            None => read_script(self.alloc, self.text.as_slice()),
            Some((blocks, number)) => Ok(make(self.alloc, blocks.clamp(1, 10_000), number)?),
        }
    }

    fn put_lines(&mut self, count: u32, line: &[u8]) -> Result<(), Memory> {
        for _ in 0..count {
            self.text.extend_from_slice(line)?;
            self.text.push(b'\n')?;
        }
        Ok(())
    }

    fn put_bytes(&mut self, digits: &[u8]) -> Result<(), Memory> {
        for pair in digits.chunks_exact(2) {
            self.text.push(hex(pair[0]) * 16 + hex(pair[1]))?;
        }
        Ok(())
    }
}

// A hexadecimal digit. Another byte counts as 0.
fn hex(digit: u8) -> u8
    ensures { result < 16 }
{
    match digit {
        b'0'..=b'9' => digit - b'0',
        b'a'..=b'f' => digit - b'a' + 10,
        _ => 0,
    }
}
