//! What the commands of a history came to.
ghost use Rattle.std.specs.Prelude.{◌≡◌, ◌+◌, [], IfOk};
ghost use Rattle.report_text.specs.Walk.{counts_with};
ghost use Rattle.report_text.specs.Total.{is_refused, is_committed, is_values, restarts_of, counts_of};

use docdb_base::Memory;
use std::alloc::AllocError;
use txn_types::Told;

/// How many of the commands that sessions were told are of each kind, and how often the finished reads restarted.
#[derive(Clone, Copy, Debug, Drop, PartialEq, Eq)]
pub(crate) struct Counts {
    pub commands: u64,
    pub ok: u64,
    pub refused: u64,
    pub committed: u64,
    pub reads: u64,
    pub restarts: u64,
}

impl Counts {
    /// Counts nothing yet.
    pub(crate) fn none() -> Counts
        ensures { result ≡ counts_of [] }
    {
        Counts {
            commands: 0,
            ok: 0,
            refused: 0,
            committed: 0,
            reads: 0,
            restarts: 0,
        }
    }

    /// The counts with one more that was told. A count past 64 bits is answered as out of memory, so that no other
    /// number is shown. In a run each restart has entries of its own, so no memory holds a run that comes to one.
    /// That is not proved.
    pub(crate) fn with(&self, told: &Told) -> Result<Counts, Memory>
        ensures { IfOk result (λ n. n ≡ counts_with told.now self.now) }
    {
        let is_refused = is_refused(told);
        Ok(Counts {
            commands: sum(self.commands, 1)?,
            ok: sum(self.ok, u64::from(!is_refused))?,
            refused: sum(self.refused, u64::from(is_refused))?,
            committed: sum(self.committed, u64::from(is_committed(told)))?,
            reads: sum(self.reads, u64::from(is_values(told)))?,
            restarts: sum(self.restarts, u64::from(restarts_of(told)))?,
        })
    }
}

fn sum(count: u64, more: u64) -> Result<u64, Memory>
    ensures { IfOk result (λ n. n ≡ count + more) }
{
    count.checked_add(more).ok_or(AllocError)
}

fn is_refused(told: &Told) -> bool
    ensures { result ≡ is_refused told.now }
{
    matches!(told, Told::Refused(_))
}

fn is_committed(told: &Told) -> bool
    ensures { result ≡ is_committed told.now }
{
    matches!(told, Told::Committed { .. })
}

fn is_values(told: &Told) -> bool
    ensures { result ≡ is_values told.now }
{
    matches!(told, Told::Values { .. })
}

fn restarts_of(told: &Told) -> u32
    ensures { result ≡ restarts_of told.now }
{
    match told {
        Told::Values { restarts, .. } => *restarts,
        _ => 0,
    }
}
