//! What the commands of a run came to.
ghost use Rattle.std.specs.Prelude.{◌≡◌, ◌+◌, ◌<◌, ◌≤◌, ◌^◌, not, length, map, sum, if◌then◌else◌};
ghost use Rattle.docdb_run.specs.Text.{is_refused, is_committed, is_values, restarts_of, count_told};

use txn_types::Told;

/// How many of what was told is of each kind, and how often the reads were restarted.
#[derive(Clone, Copy, Debug, PartialEq, Eq)]
pub struct Counts {
    pub ok: u64,
    pub refused: u64,
    pub committed: u64,
    pub reads: u64,
    pub restarts: u64,
}

impl Counts {
    /// The counts of what was told.
    pub fn of(told: &[Told]) -> Counts
        requires { length told.now < 2 ^ 32 }
        ensures ok { result.ok ≡ count_told (λ t. not (is_refused t)) told.now }
        ensures refused { result.refused ≡ count_told is_refused told.now }
        ensures committed { result.committed ≡ count_told is_committed told.now }
        ensures reads { result.reads ≡ count_told is_values told.now }
        ensures restarts { result.restarts ≡ sum (map restarts_of told.now) }
    {
        let mut counts = Counts {
            ok: 0,
            refused: 0,
            committed: 0,
            reads: 0,
            restarts: 0,
        };
        for t in told {
            counts.add(t);
        }
        counts
    }

    fn add(&mut self, told: &Told)
        requires ok { self.old.ok < 2 ^ 32 }
        requires refused { self.old.refused < 2 ^ 32 }
        requires committed { self.old.committed < 2 ^ 32 }
        requires reads { self.old.reads < 2 ^ 32 }
        requires restarts { self.old.restarts + 2 ^ 32 ≤ 2 ^ 64 }
        ensures ok { self.new.ok ≡ self.old.ok + (if not (is_refused told.now) then 1 else 0) }
        ensures refused { self.new.refused ≡ self.old.refused + (if is_refused told.now then 1 else 0) }
        ensures committed { self.new.committed ≡ self.old.committed + (if is_committed told.now then 1 else 0) }
        ensures reads { self.new.reads ≡ self.old.reads + (if is_values told.now then 1 else 0) }
        ensures restarts { self.new.restarts ≡ self.old.restarts + restarts_of told.now }
        ensures most_restarts { self.new.restarts ≤ self.old.restarts + 2 ^ 32 }
    {
        self.ok += u64::from(!is_refused(told));
        self.refused += u64::from(is_refused(told));
        self.committed += u64::from(is_committed(told));
        self.reads += u64::from(is_values(told));
        self.restarts += u64::from(restarts_of(told));
    }
}

fn is_refused(told: &Told) -> bool
    ensures { result ≡ is_refused told.now }
{
    matches!(told, Told::Refused(_))
}

fn is_committed(told: &Told) -> bool
    ensures { result ≡ is_committed told.now }
{
    matches!(told, Told::Committed { .. })
}

fn is_values(told: &Told) -> bool
    ensures { result ≡ is_values told.now }
{
    matches!(told, Told::Values { .. })
}

fn restarts_of(told: &Told) -> u32
    ensures { result ≡ restarts_of told.now }
{
    match told {
        Told::Values { restarts, .. } => *restarts,
        _ => 0,
    }
}
