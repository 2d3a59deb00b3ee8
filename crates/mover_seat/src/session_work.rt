//! What a session does next.
ghost use Rattle.std.specs.Prelude.{◌≡◌, ℕ, Bool, true, false, List, IfSome, IsNone};
ghost use Rattle.txn_data.specs.declared.command.Command.{Command};
ghost use Rattle.txn_data.specs.declared.config.Config.{Config};
ghost use Rattle.txn_types.specs.Run.{Mover, Flight};
ghost use Rattle.session_core.specs.Core.{commands_of, is_idle};
ghost use Rattle.mover_chain.specs.NextEvent.{is_left};
ghost use Rattle.mover_seat.specs.Lines.{IsCounted};
ghost use Rattle.mover_seat.specs.Made.{tells_made};
ghost use Rattle.mover_seat.specs.declared.lines.Lines.{Lines};
ghost use Rattle.mover_seat.specs.NextEvent.{session_from};
ghost use Rattle.mover_seat.specs.Session.{HasCome, Comes};
ghost use Rattle.mover_seat.specs.Stage.{does_fit, does_await};

use crate::lines::Lines;
use crate::made::Made;
use crate::stage::Stage;
use session_core::{SessionCore, Turn};
use txn_types::{Actor, Reply, Told, ToldRefusal};

/// The next entry of a session that stands there, with this reading of its node, and where it then stands; nothing where it
/// has no event left.
pub(crate) fn next_of(
    core: &mut SessionCore,
    lines: &mut Lines,
    stage: Stage,
    reading: u64,
) -> Option<Made>
    requires fits { does_fit core.old stage ≡ true }
    requires awaits { does_await stage ≡ false }
    requires counted { IsCounted core.old lines.old }
    ensures some { (config : Config) (i : ℕ) (given : List Command) (all : Bool) (begun : List Command) (m : Mover) (f : Flight) → HasCome config i given all begun m f core.old lines.old stage → IfSome result (λ made. Comes config i given all begun m f reading made core.new lines.new) }
    ensures none { (config : Config) (i : ℕ) (given : List Command) (all : Bool) (begun : List Command) (m : Mover) (f : Flight) → HasCome config i given all begun m f core.old lines.old stage → IsNone result → (is_left (session_from given all begun m f) ≡ false) × HasCome config i given all begun m f core.new lines.new Stage.Between }
    ensures fits { IfSome result (λ made. does_fit core.new made.stage ≡ true) }
    ensures idle { IsNone result → is_idle core.new ≡ true }
    ensures counted { IsCounted core.new lines.new }
    ensures given { lines.new.given ≡ lines.old.given }
    ensures finished { lines.new.finished ≡ lines.old.finished }
{
    match stage {
        Stage::Between => begin(core, lines),
        Stage::Reads => Some(read(core, lines, reading)),
        Stage::Asks { to, request } => Some(Made::asks(None, to, request)),
        Stage::Tells(told) => Some(tell(core, lines, None, told)),
        Stage::Hears { from, reply } => Some(hear(core, from, reply)),
        Stage::Awaits { .. } => unreachable!(),
    }
}

// The next line starts.
fn begin(core: &mut SessionCore, lines: &mut Lines) -> Option<Made>
    requires idle { is_idle core.old ≡ true }
    requires counted { IsCounted core.old lines.old }
    ensures some { (config : Config) (i : ℕ) (given : List Command) (all : Bool) (begun : List Command) (m : Mover) (f : Flight) (reading : ℕ) → HasCome config i given all begun m f core.old lines.old Stage.Between → IfSome result (λ made. Comes config i given all begun m f reading made core.new lines.new) }
    ensures none { (config : Config) (i : ℕ) (given : List Command) (all : Bool) (begun : List Command) (m : Mover) (f : Flight) → HasCome config i given all begun m f core.old lines.old Stage.Between → IsNone result → (is_left (session_from given all begun m f) ≡ false) × HasCome config i given all begun m f core.new lines.new Stage.Between }
    ensures fits { IfSome result (λ made. does_fit core.new made.stage ≡ true) }
    ensures idle { IsNone result → is_idle core.new ≡ true }
    ensures counted { IsCounted core.new lines.new }
    ensures given { lines.new.given ≡ lines.old.given }
    ensures finished { lines.new.finished ≡ lines.old.finished }
{
    let line = lines.take(core.is_open())?;
    let stage = Stage::of(core.start(&line));
    Some(Made::starts(core.commands() as u32, line, stage))
}

// The reading that was wanted is there.
fn read(core: &mut SessionCore, lines: &Lines, reading: u64) -> Made
    requires fits { does_fit core.old Stage.Reads ≡ true }
    requires counted { IsCounted core.old lines.now }
    ensures come { (config : Config) (i : ℕ) (given : List Command) (all : Bool) (begun : List Command) (m : Mover) (f : Flight) → HasCome config i given all begun m f core.old lines.now Stage.Reads → Comes config i given all begun m f reading result core.new lines.now }
    ensures fits { does_fit core.new result.stage ≡ true }
    ensures commands { commands_of core.new ≡ commands_of core.old }
{
    match core.given(reading) {
        Ok(Turn::Ask { to, request }) => Made::asks(Some(reading), to, request),
        Ok(Turn::Tell(told)) => tell(core, lines, Some(reading), told),
        Ok(Turn::Reading) => unreachable!(),
        Err(_) => tell(core, lines, None, Told::Refused(ToldRefusal::Memory)),
    }
}

// The command is told this.
fn tell(core: &SessionCore, lines: &Lines, reading: Option<u64>, told: Told) -> Made
    requires counted { IsCounted core.now lines.now }
    ensures { result ≡ tells_made reading (commands_of core.now) lines.now.clock told }
{
    Made::tells(reading, core.commands() as u32, lines.clock, told)
}

/// The reply that came is heard.
pub(crate) fn hear(core: &mut SessionCore, from: Actor, reply: Reply) -> Made
    requires fits { does_fit core.old (Stage.Hears from reply) ≡ true }
    ensures come { (config : Config) (i : ℕ) (given : List Command) (all : Bool) (begun : List Command) (m : Mover) (f : Flight) (lines : Lines) (reading : ℕ) → HasCome config i given all begun m f core.old lines (Stage.Hears from reply) → Comes config i given all begun m f reading result core.new lines }
    ensures fits { does_fit core.new result.stage ≡ true }
    ensures commands { commands_of core.new ≡ commands_of core.old }
{
    let stage = Stage::of(core.hear(from, &reply));
    Made::hears(from, reply, stage)
}
