//! Runs in which commands are refused, and refusals that no run has. A call does nothing.
ghost use Rattle.law_refusal_witness.specs.Clocks.{ShowsFullCounter};
ghost use Rattle.law_refusal_witness.specs.Faults.{closing_fault, closing_fails, write_kept, write_lost, write_fails, ShowsRefusedClosing, ShowsFailedWrite};
ghost use Rattle.law_refusal_witness.specs.Refused.{misused, meeting, stopped, by_clocks, by_logs, between, listing_first, load_fails, ShowsOwnRefusals, ShowsMeetings, ShowsStoppedReads, ShowsClocks, ShowsFaults, ShowsComingBetween, ShowsFailedLoad};
ghost use Rattle.law_refusal_witness.specs.WrongRefusals.{WrongRefusalsAreRefused};
ghost use Rattle.law_witness.specs.Scripts.{run_of, lost};
ghost use Rattle.law_witness.specs.Witness.{small};
ghost use Rattle.std.specs.Prelude.{true, false, []};
ghost use Rattle.worked_cases.specs.Simulated.{all_done, by_turns};

/// In this run a session refuses by itself: a put with no transaction open, and a begin and a single write with one open.
pub fn a_session_refuses_by_itself()
    ensures { ShowsOwnRefusals (run_of small misused) }
{}

/// In this run writers meet. One is told Conflict, since the other is pending with its priority. The other is told Aborted, since
/// the next one has a higher priority. It is told Overlap by a fate, and by a version.
pub fn writers_are_refused()
    ensures { ShowsMeetings (run_of small meeting) }
{}

/// In this run reads are told Restart: a strict one, one after a write, and one after a read of its transaction.
pub fn reads_are_stopped()
    ensures { ShowsStoppedReads (run_of small stopped) }
{}

/// In this run a single write is told LeaseHeld after its tablet restarted, and then a session and a tablet have readings above
/// the greatest: a begin and a single write are told ClockRange.
pub fn clocks_refuse()
    ensures { ShowsClocks (run_of small by_clocks) }
{}

/// In this run the append of a commit fails, and the commit is told so. Then its session is told InDoubt of a put, and Down of a
/// second commit.
pub fn faults_refuse()
    ensures { ShowsFaults (all_done small lost by_logs []) }
{}

/// In this run a single write is told Conflict: another write became provisional after its tablet had listed none.
pub fn a_write_comes_between()
    ensures { ShowsComingBetween (by_turns small between listing_first []) }
{}

/// In this run the load of a restart fails. The restart is told so, and then a single write is told Down.
pub fn a_load_fails()
    ensures { ShowsFailedLoad load_fails }
{}

/// In this run a put is told Conflict, and the Abort that closes its transaction is refused: its append fails. The transaction is
/// closed all the same.
pub fn a_closing_abort_is_refused()
    ensures { ShowsRefusedClosing (all_done small closing_fault closing_fails []) }
{}

/// In this run the append of a write fails and a restart keeps it. The put is told LogFault and closes its transaction, and its
/// write is provisional.
pub fn a_kept_write_closes()
    ensures { ShowsFailedWrite (all_done small write_kept write_fails []) true }
{}

/// In this run the append of a write fails and a restart loses it. The put is told LogFault and closes its transaction, and nothing
/// of it is provisional.
pub fn a_lost_write_closes()
    ensures { ShowsFailedWrite (all_done small write_lost write_fails []) false }
{}

/// A tablet that listed for a read at the last time of a microsecond refuses a single write with ClockFull as long as the reading
/// is not above this microsecond, and then takes it.
pub fn a_counter_ends()
    ensures { ShowsFullCounter }
{}

/// Seven refusals and tells that no run has are refused, each after a run: Restart where nothing was met, Conflict with an aborted
/// transaction, an abort by an equal priority, Overlap below the greatest time, the end of an earlier lease, InDoubt after Down,
/// and values after Down.
pub fn wrong_refusals_are_refused()
    ensures { WrongRefusalsAreRefused }
{}
