//! What holds of the bytes of a log, and of the records that entries log.
ghost use Rattle.std.specs.Prelude.{◌≡◌, ◌++◌, ◌∷◌, ℕ, Bool, false, [], Option, List};
ghost use Rattle.txn_data.specs.declared.actor.Actor.{Actor};
ghost use Rattle.txn_data.specs.declared.append.Append.{Append};
ghost use Rattle.txn_data.specs.declared.append.Append.TheVariants.{Failed};
ghost use Rattle.txn_data.specs.declared.request.Request.{Request};
ghost use Rattle.txn_data.specs.declared.reply.Reply.{Reply};
ghost use Rattle.txn_data.specs.declared.event.Event.TheVariants.{Serve, Restarted};
ghost use Rattle.txn_types.specs.History.{History};
ghost use Rattle.txn_types.specs.Clock.{lease_end, has_failed};
ghost use Rattle.txn_types.specs.Tablet.{provisional, versions};
ghost use Rattle.txn_types.specs.Status.{record_of};
ghost use Rattle.log_record.specs.declared.log_record.LogRecord.{LogRecord};
ghost use Rattle.tablet_log.specs.Frames.{Holds, IsBroken};
ghost use Rattle.tablet_log.specs.Entries.{records_of, logged_records, failed_records};
ghost use Rattle.tablet_log.specs.Replay.{tablet_of, record_in, lease_in};
ghost use Rattle.tablet_log.specs.Rests.{RestsDown, if_kept};

use log_record::{no_spelling_begins_another, spellings_are_short};

/// Bytes are the frames of at most one list of records, and broken at no more than one offset, and never both.
pub fn bytes_have_one_meaning()
    ensures one_list { (bytes : List ℕ) (p q : List LogRecord) → Holds bytes p → Holds bytes q → p ≡ q }
    ensures one_offset { (bytes : List ℕ) (m n : ℕ) → IsBroken bytes m → IsBroken bytes n → m ≡ n }
    ensures not_both { (bytes : List ℕ) (p : List LogRecord) (n : ℕ) → Holds bytes p → IsBroken bytes n → ⊥ }
{
    spellings_are_short();
    no_spelling_begins_another();
}

/// The records that stand in the log of a tablet are replayed to its lease, its provisional writes and its versions.
pub fn a_tablet_is_replayed()
    ensures { (lease : ℕ) (h : History) → tablet_of (logged_records lease h)
        ≡ record { lease = lease_end lease h; intents = provisional h; versions = versions h } }
{}

/// The records that stand in the log of a status tablet are replayed to its lease, and to what it keeps of each
/// transaction.
pub fn a_status_tablet_is_replayed()
    ensures lease { (lease : ℕ) (h : History) → lease_in (logged_records lease h) ≡ lease_end lease h }
    ensures records { (lease : ℕ) (h : History) (x : ℕ) → record_in x (logged_records lease h) ≡ record_of x h }
{}

/// What one more Serve does to the records that stand in a log: they grow by its records, or where its append failed
/// these are the ones that may stand behind them.
pub fn a_serve_is_logged()
    ensures taken { (lease : ℕ) (a : Actor) (reading : Option ℕ) (from : Actor) (asked : Request) (r : Reply) (time : Option ℕ) (append : Append) (h : History)
        → (append ≡ Failed → ⊥)
        → logged_records lease (record { actor = a; reading = reading; event = Serve from asked r time append } ∷ h)
        ≡ logged_records lease h ++ records_of lease (lease_end lease h) (Serve from asked r time append) }
    ensures failed { (lease : ℕ) (a : Actor) (reading : Option ℕ) (from : Actor) (asked : Request) (r : Reply) (time : Option ℕ) (h : History)
        → logged_records lease (record { actor = a; reading = reading; event = Serve from asked r time Failed } ∷ h) ≡ logged_records lease h }
    ensures piece { (lease : ℕ) (a : Actor) (reading : Option ℕ) (from : Actor) (asked : Request) (r : Reply) (time : Option ℕ) (h : History)
        → failed_records lease (record { actor = a; reading = reading; event = Serve from asked r time Failed } ∷ h)
        ≡ records_of lease (lease_end lease h) (Serve from asked r time Failed) }
{}

/// What a restart does to the records that stand in a log: the failed piece is among them where it is kept. There is one
/// only where an append failed and no restart came since.
pub fn a_restart_is_logged()
    ensures records { (lease : ℕ) (a : Actor) (h : History) (reading : Option ℕ) (from : Actor) (kept : Bool) → RestsDown a h
        → logged_records lease (record { actor = a; reading = reading; event = Restarted from kept } ∷ h)
        ≡ logged_records lease h ++ if_kept kept (failed_records lease h) }
    ensures none { (lease : ℕ) (h : History) → has_failed h ≡ false → failed_records lease h ≡ [] }
{}
