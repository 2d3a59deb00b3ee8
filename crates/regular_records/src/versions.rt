//! What a tablet stands on.
ghost use Rattle.std.specs.Prelude.{◌≡◌};

use crate::decided::Decided;
use doc_path::Path;
use docdb_base::Memory;
use hybrid_time::HybridTime;
use txn_types::{Bytes, MetAt, Paths, Rows, Version, Window};

/// A set of versions, in which a path, a commit time and a write number come once. Contracts see it as a list, whose order
/// does not matter. Each path that a call is given has to fit.
pub trait Versions {
    ghost use Rattle.std.specs.Prelude.{◌≡◌, ◌↔◌, List, [], IfOk, OnOk, OnErr};
    ghost use Rattle.std.specs.List.{All, AllByRecursion};
    ghost use Rattle.doc_path.specs.Path.{Parts};
    ghost use Rattle.txn_data.specs.declared.version.Version.{Version as Seen};
    ghost use Rattle.txn_data.specs.declared.row.Row.{Row as Read};
    ghost use Rattle.txn_types.specs.Lists.{Member};
    ghost use Rattle.txn_types.specs.Writes.{value, beneath};
    ghost use Rattle.txn_types.specs.Tablet.{with_versions, writes_at, greatest_above, met_in};
    ghost use Rattle.regular_records.specs.Records.{decided, times_on};
    ghost use Rattle.regular_records.specs.Holding.{AreApart};

    // These are its versions, each once, in some order.
    ghost holds: { Self → List Seen → Type 0 };

    // A path that sets of this kind can hold.
    ghost fits: { Parts → Type 0 };

    // A path, a commit time and a write number come once.
    ghost held_apart: { (set : Self) (vs : List Seen) → holds set vs → AreApart vs };

    // The order of its versions does not matter.
    ghost any_order: { (set : Self) (us vs : List Seen) → holds set us → AreApart vs → ((v : Seen) → Member v vs ↔ Member v us) → holds set vs };

    // The path of each version that it holds fits.
    ghost held_fits: { (set : Self) (vs : List Seen) → holds set vs → (v : Seen) → Member v vs → fits v.path };

    /// Adds these versions, one after another. One with the path, the commit time and the write number of another that is
    /// there takes its place. If memory runs out, it holds what it held before.
    fn add_all(&mut self, list: Vec<Version>) -> Result<(), Memory>
        requires { All (λ (v : Seen). fits v.path) list.items }
        ensures ok { (vs : List Seen) → holds self.old vs → OnOk result (holds self.new (with_versions vs list.items)) }
        ensures memory { (vs : List Seen) → holds self.old vs → OnErr result (holds self.new vs) };

    /// The value at `path` at the time `t`, where it has one.
    fn get_at(&self, path: &Path, t: HybridTime) -> Result<Option<Bytes>, Memory>
        requires { fits path.now }
        ensures { (vs : List Seen) → holds self.now vs → IfOk result (λ found. found ≡ value (writes_at t vs) path.now) };

    /// All paths at or beneath `path` that have a value at the time `t`, each with its value, in path order.
    fn scan_at(&self, path: &Path, t: HybridTime) -> Result<Rows, Memory>
        requires { fits path.now }
        ensures rows { (vs : List Seen) → holds self.now vs → IfOk result (λ rows. rows ≡ beneath (writes_at t vs) path.now) }
        ensures fit { IfOk result (λ rows. AllByRecursion (λ (r : Read). fits r.path) rows) };

    /// The greatest commit time above `t` of a version on a path that is related to `path`. It takes no memory.
    fn newest_related_above(&self, path: &Path, t: HybridTime) -> Option<HybridTime>
        requires { fits path.now }
        ensures { (vs : List Seen) → holds self.now vs → result ≡ greatest_above t (times_on path.now vs) };

    /// What a read of `paths` at the time `t` meets in this window: the greatest commit time of a version on a related
    /// path that is above `t` and not above the end of the window, and that was written not later than the local limit;
    /// and the least path of such a version with that time.
    fn window(&self, paths: &Paths, t: HybridTime, w: &Window) -> Result<Option<MetAt>, Memory>
        requires { All fits paths.now }
        ensures { (vs : List Seen) → holds self.now vs → IfOk result (λ met. met ≡ met_in w.now t paths.now vs) };

    /// The commit time and the write number of the newest version up to the time `t` whose path is a prefix of `path`, and
    /// how many parts its path has. It takes no memory.
    fn decided_at(&self, path: &Path, t: HybridTime) -> Option<Decided>
        requires { fits path.now }
        ensures { (vs : List Seen) → holds self.now vs → result ≡ decided t path.now vs };

    /// An empty set of the same kind.
    fn empty_like(&self) -> Result<Self, Memory>
        ensures { IfOk result (λ empty. holds empty []) };
}
