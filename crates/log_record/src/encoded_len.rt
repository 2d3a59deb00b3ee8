//! How many bytes the spelling of a record has.
ghost use Rattle.std.specs.Prelude.{◌≡◌, ◌≤◌, length, IsTrue};
ghost use Rattle.log_record.specs.Spelling.{bytes_spelling, path_spelling, op_spelling};
ghost use Rattle.log_record.specs.Spelling.{are_bytes, is_path, is_op, spelling, has_spelling};

use crate::log_record::LogRecord;
use doc_path::Path;
use txn_data::Op;

const KIND: usize = 1;

const TXN_ID: usize = 16;

const ISOLATION: usize = 1;

const TIME: usize = 8;

/// A number, a priority, a status tablet or a count.
const NUMBER: usize = 4;

const META: usize = TXN_ID + NUMBER + ISOLATION + NUMBER;

#[tactic(auto, using(crate::proofs::Short::bytes_len))]
fn bytes_len(bytes: &[u8]) -> usize
    requires { IsTrue (are_bytes bytes.now) }
    ensures value { result ≡ length (bytes_spelling bytes.now) }
    ensures most { result ≤ 65540 }
{
    NUMBER + bytes.len()
}

fn path_len(path: &Path) -> usize
    requires { IsTrue (is_path path.now) }
    ensures value { result ≡ length (path_spelling path.now) }
    ensures most { result ≤ 327701 }
{
    let mut len = 1;
    for i in 0..path.parts() {
        len += bytes_len(path.part(i));
    }
    len
}

fn op_len(op: &Op) -> usize
    requires { IsTrue (is_op op.now) }
    ensures value { result ≡ length (op_spelling op.now) }
    ensures most { result ≤ 65541 }
{
    match op {
        Op::Put(value) => 1 + bytes_len(value.items()),
        Op::Delete => 1,
    }
}

impl LogRecord {
    /// How many bytes the spelling of the record has. It takes no memory.
    #[tactic(auto, using(crate::proofs::Short::spelling_len))]
    pub fn encoded_len(&self) -> usize
        requires { IsTrue (has_spelling self.now) }
        ensures { result ≡ length (spelling self.now) }
    {
        match self {
            LogRecord::Lease { .. } => KIND + TIME,
            LogRecord::Write { path, op, .. } => {
                KIND + META + NUMBER + TIME + path_len(path) + op_len(op)
            }
            LogRecord::Apply { .. } => KIND + TXN_ID + TIME,
            LogRecord::Single { path, op, .. } => {
                KIND + TXN_ID + TIME + path_len(path) + op_len(op)
            }
            LogRecord::Begin { .. } => KIND + TXN_ID + ISOLATION + NUMBER,
            LogRecord::Commit { tablets, .. } => {
                KIND + TXN_ID + TIME + NUMBER + NUMBER * tablets.items().len()
            }
            LogRecord::Abort { by: None, .. } => KIND + TXN_ID + 1,
            LogRecord::Abort { by: Some(_), .. } => KIND + TXN_ID + 1 + TXN_ID,
            LogRecord::Clean { .. } | LogRecord::Forget { .. } => KIND + TXN_ID,
        }
    }
}
