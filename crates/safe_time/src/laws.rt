//! What holds of any sequence of steps, failed appends and restarts.
ghost use Rattle.std.specs.Prelude.{◌≡◌, ◌∷◌, ℕ, Bool, List, Option, Some, None, Ok};
ghost use Rattle.txn_data.specs.declared.actor.Actor.{Actor};
ghost use Rattle.txn_data.specs.declared.append.Append.{Append};
ghost use Rattle.txn_data.specs.declared.append.Append.TheVariants.{Failed};
ghost use Rattle.txn_data.specs.declared.request.Request.{Request};
ghost use Rattle.txn_data.specs.declared.event.Event.TheVariants.{Serve, Restarted};
ghost use Rattle.txn_data.specs.declared.reply.Reply.{Reply};
ghost use Rattle.txn_types.specs.History.{History};
ghost use Rattle.txn_types.specs.Clock.{timed, lease_end};
ghost use Rattle.txn_types.specs.Lists.{or_else};
ghost use Rattle.safe_time.specs.declared.step.Step.{Step};
ghost use Rattle.safe_time.specs.ActorClock.{kind_of, served, taken, restarted, clock_of, answer_over};
ghost use Rattle.safe_time.specs.Course.{Happening, course, AllLater, AllLeased, IsLeased};

/// An actor's table answers an action that takes a time by what this clock serves over its entries.
pub fn it_is_the_clock_of_the_tables()
    ensures { (lease : ℕ) (h : History) (fails : Bool) (tick : Bool) (floor reading : ℕ) (records : Bool) (r : ℕ → Reply)
        → timed lease h fails (kind_of tick) floor reading records r
        ≡ answer_over fails records r (served (clock_of lease h) reading floor tick) }
{}

/// A time of its own is above all times that count so far, over restarts too; any other is not below them. A time whose
/// append failed and was lost does not count, and may come again.
pub fn times_rise()
    ensures { (lease : ℕ) (xs : List Happening) (reading floor : ℕ) (tick : Bool) (step : Step)
        → (course lease xs).failed ≡ None → served (course lease xs).clock reading floor tick ≡ Ok step
        → AllLater tick step.time (course lease xs).counted }
{}

/// The microseconds of each time that counts are not above the end of the last lease in the log. So are those of a time
/// that is served, once its lease is logged.
pub fn times_are_leased()
    ensures counted { (lease : ℕ) (xs : List Happening) → AllLeased (course lease xs).logged (course lease xs).counted }
    ensures served { (lease : ℕ) (xs : List Happening) (reading floor : ℕ) (tick : Bool) (step : Step)
        → served (course lease xs).clock reading floor tick ≡ Ok step → IsLeased (or_else step.lease (course lease xs).logged) step.time }
{}

/// What one more entry of an actor does to the clock that its table reads off its entries: a step that was given is
/// taken, an entry without a time changes nothing, and a restart starts again from the lease in the log. Of an entry whose
/// append failed nothing is said, since the actor serves no step until its restart.
pub fn entries_move_the_clock()
    ensures taken { (lease : ℕ) (h : History) (reading floor : ℕ) (tick : Bool) (step : Step) → served (clock_of lease h) reading floor tick ≡ Ok step
        → (a : Actor) (read : Option ℕ) (from : Actor) (asked : Request) (r : Reply) (append : Append) → (append ≡ Failed → ⊥)
        → clock_of lease (record { actor = a; reading = read; event = Serve from asked r (Some step.time) append } ∷ h) ≡ taken (clock_of lease h) step }
    ensures same { (lease : ℕ) (h : History) (a : Actor) (read : Option ℕ) (from : Actor) (asked : Request) (r : Reply) (append : Append) → (append ≡ Failed → ⊥)
        → clock_of lease (record { actor = a; reading = read; event = Serve from asked r None append } ∷ h) ≡ clock_of lease h }
    ensures restarted { (lease : ℕ) (h : History) (a : Actor) (read : Option ℕ) (from : Actor) (kept : Bool)
        → clock_of lease (record { actor = a; reading = read; event = Restarted from kept } ∷ h)
        ≡ restarted (clock_of lease h) (lease_end lease (record { actor = a; reading = read; event = Restarted from kept } ∷ h)) }
{}
