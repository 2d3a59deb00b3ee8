//! The tablet of a session that runs alone.
ghost use Rattle.std.specs.Prelude.{◌≡◌, ◌≤◌, ◌++◌, ◌∷◌, [], Some, max, min, IfOk, OnOk, OnErr};
ghost use Rattle.hybrid_time.specs.Time.{next_time, time_at};
ghost use Rattle.txn_types.specs.Writes.{value, set_at};
ghost use Rattle.docdb_run.specs.Course.{version_of, writes_of, single_reply, time_given};

use doc_path::Path;
use docdb_base::{Memory, Seq, TryCopy};
use hybrid_time::{HybridTime, TimeRefusal, at_least, next};
use std::alloc::Global;
use txn_types::{Bytes, Op, Refusal, Reply, Version};

/// A tablet without provisional writes: the last time that it gave, and its versions, the oldest first.
#[derive(Debug, Drop)]
pub struct Tablet {
    pub last: HybridTime,
    pub versions: Seq<Version>,
}

impl Tablet {
    /// A tablet that has served nothing.
    pub fn new(alloc: Global) -> Tablet
        ensures last { result.last ≡ 0 }
        ensures versions { result.versions ≡ [] }
    {
        Tablet {
            last: HybridTime::ZERO,
            versions: Seq::new(alloc),
        }
    }

    /// The commit time of a single write whose session has seen `seen`, at this reading in microseconds.
    pub fn time_for(&self, seen: HybridTime, reading: u64) -> Result<HybridTime, TimeRefusal>
        ensures { result ≡ next_time self.now.last seen reading }
    {
        next(self.last, seen, reading)
    }

    /// Commits a single write at a time of the tablet's own. If memory runs out, the tablet is as before.
    pub fn commit(
        &mut self,
        alloc: Global,
        path: &Path,
        value: &Bytes,
        at: HybridTime,
    ) -> Result<(), Memory>
        ensures last { OnOk result (self.new.last ≡ at) }
        ensures versions { OnOk result (self.new.versions ≡ self.old.versions ++ version_of path.now value.now at ∷ []) }
        ensures memory { OnErr result (self.new ≡ self.old) }
    {
        let version = Version {
            path: path.try_copy(alloc)?,
            at,
            wrote: at,
            number: 0,
            op: Op::Put(value.try_copy(alloc)?),
        };
        self.versions.push(version)?;
        self.last = at;
        Ok(())
    }

    /// The value at a path, by all versions.
    pub fn value_at(&self, alloc: Global, path: &Path) -> Result<Option<Bytes>, Memory>
        ensures { IfOk result (λ found. found ≡ value (writes_of self.now.versions) path.now) }
    {
        let versions = self.versions.items();
        for i in (0..versions.len()).rev() {
            let version = &versions[i];
            if version.path.is_prefix(path) {
                return value_set(alloc, version, path);
            }
        }
        Ok(None)
    }
}

/// The value at a path by a version whose path is a prefix of it: what hides the path sets nothing there.
fn value_set(alloc: Global, version: &Version, path: &Path) -> Result<Option<Bytes>, Memory>
    ensures { IfOk result (λ found. found ≡ set_at path.now (Some (record { path = version.now.path; op = version.now.op }))) }
{
    match &version.op {
        Op::Put(value) if path.is_prefix(&version.path) => Ok(Some(value.try_copy(alloc)?)),
        _ => Ok(None),
    }
}

/// The least time that is below none of `last`, `floor` and the reading, in microseconds.
pub fn least(last: HybridTime, floor: HybridTime, reading: u64) -> HybridTime
    requires { reading ≤ 4000000000000000 }
    ensures { result ≡ max (max last floor) (time_at reading 0) }
{
    at_least(last, floor, reading).unwrap()
}

/// The later of two times.
pub fn later(a: HybridTime, b: HybridTime) -> HybridTime
    ensures { result ≡ max a b }
{
    if a < b { b } else { a }
}

/// The earlier of two times.
pub fn earlier(a: HybridTime, b: HybridTime) -> HybridTime
    ensures { result ≡ min a b }
{
    if a < b { a } else { b }
}

/// What the tablet replies to a single write.
pub fn single_reply(time: &Result<HybridTime, TimeRefusal>) -> Reply
    ensures { result ≡ single_reply time.now }
{
    match time {
        Ok(at) => Reply::SingleDone { at: *at },
        Err(TimeRefusal::ClockFull { at }) => Reply::Refused(Refusal::ClockFull { at: *at }),
        Err(TimeRefusal::ClockRange { reading }) => {
            Reply::Refused(Refusal::ClockRange { reading: *reading })
        }
    }
}

/// The time that the tablet gave a single write.
pub fn time_given(time: &Result<HybridTime, TimeRefusal>) -> Option<HybridTime>
    ensures { result ≡ time_given time.now }
{
    match time {
        Ok(at) => Some(*at),
        Err(_) => None,
    }
}
