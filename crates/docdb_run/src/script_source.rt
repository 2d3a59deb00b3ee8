//! The bytes of a script.
ghost use Rattle.std.specs.Prelude.{◌≡◌, ◌≤◌, length, take, drop, Some, Err, IfOk, IfSome};
ghost use Rattle.docdb_outside.specs.Count.{Rose};

use docdb_outside::Source;
use std::alloc::Global;

/// Why a script was not read.
#[derive(Clone, Copy, Debug, PartialEq, Eq)]
pub enum ReadRefusal {
    /// The source failed.
    Failed,
    /// Out of memory.
    Memory,
}

// One more than the most bytes of a script.
const LIMIT: usize = 16_777_217;

/// Reads a source to its end, or to one byte past the most bytes of a script, and never further.
pub fn read_source<S: Source>(alloc: Global, source: &mut S) -> Result<Vec<u8>, ReadRefusal>
    ensures read { IfOk result (λ script. IfSome (S.left source.old)
        (λ bytes. (script.items ≡ take 16777217 bytes) × (S.left source.new ≡ Some (drop 16777217 bytes)))) }
    ensures most { IfOk result (λ script. length script.items ≤ 16777217) }
    ensures failed { result ≡ Err ReadRefusal.Failed → Rose (S.faults source.old) (S.faults source.new) }
    ensures faults { S.faults source.old ≤ S.faults source.new }
{
    let mut script = Vec::new(alloc);
    let mut buffer = [0; 4096];
    'pieces: while script.len() < LIMIT {
        let room = (LIMIT - script.len()).min(buffer.len());
        let Ok(count) = source.read(&mut buffer[..room]) else {
            return Err(ReadRefusal::Failed);
        };
        if count == 0 {
            break;
        }
        let Ok(()) = script.extend_from_slice(&buffer[..count]) else {
            return Err(ReadRefusal::Memory);
        };
    }
    Ok(script)
}
