//! What an applier does next.
ghost use Rattle.std.specs.Prelude.{◌≡◌, ◌≤◌, ◌<◌, ◌+◌, ◌^◌, ℕ, Bool, true, false, Some, None, is_some, IfSome, IsNone, ◌⊎◌};
ghost use Rattle.txn_data.specs.declared.config.Config.{Config};
ghost use Rattle.txn_types.specs.PassProgram.{pass_program};
ghost use Rattle.txn_types.specs.Program.{heard};
ghost use Rattle.txn_types.specs.Run.{Mover, Flight};
ghost use Rattle.intent_applier.specs.Rest.{rest};
ghost use Rattle.intent_applier.specs.declared.pass.Pass.{Pass};
ghost use Rattle.mover_chain.specs.NextEvent.{is_left};
ghost use Rattle.mover_seat.specs.NextEvent.{applier_from};
ghost use Rattle.mover_seat.specs.Pass.{GoesOn, IsLost, does_hold, begins, HasCome, Comes};
ghost use Rattle.mover_seat.specs.Stage.{does_await};

use crate::made::Made;
use crate::moved::Moved;
use crate::stage::Stage;
use intent_applier::{Pass, PassTurn};
use std::alloc::Global;
use txn_types::{Actor, Command, Reply, Told, ToldRefusal};

/// The next entry of the applier of this tablet, which stands there, and where it then stands; nothing where it has no event
/// left. `may_begin` says whether it may begin a pass.
pub(crate) fn next_of(
    alloc: Global,
    tablet: u32,
    may_begin: bool,
    begun: &mut u32,
    pass: &mut Option<Pass>,
    stage: Stage,
) -> Option<Made>
    requires holds { does_hold pass.old stage ≡ true }
    requires awaits { does_await stage ≡ false }
    requires few { begun.old < 2 ^ 31 }
    ensures some { (config : Config) (done : Bool) (m : Mover) (f : Flight) → HasCome config tablet begun.old m f pass.old stage → may_begin ≡ begins tablet config.passes begun.old done → IfSome result (λ made. Comes config tablet done begun.old m f made begun.new pass.new) }
    ensures none { (config : Config) (done : Bool) (m : Mover) (f : Flight) → HasCome config tablet begun.old m f pass.old stage → may_begin ≡ begins tablet config.passes begun.old done → IsNone result → (is_left (applier_from done config.passes tablet begun.old m f) ≡ false) × HasCome config tablet begun.new m f pass.new Stage.Between }
    ensures holds { IfSome result (λ made. does_hold pass.new made.stage ≡ true) }
    ensures held { IsNone result → does_hold pass.new Stage.Between ≡ true }
    ensures begun { begun.old ≤ begun.new }
    ensures few { (begun.new ≡ begun.old) ⊎ (may_begin ≡ true) × (begun.new ≡ begun.old + 1) }
    ensures same { IsNone result → begun.new ≡ begun.old }
{
    match stage {
        Stage::Between if may_begin => {
            *begun += 1;
            let stage = started(alloc, tablet, pass);
            Some(Made::starts(*begun, Command::Apply { tablet }, stage))
        }
        Stage::Between => None,
        Stage::Asks { to, request } => Some(Made::asks(None, to, request)),
        Stage::Tells(told) => Some(Made::tells(None, *begun, Moved::Event, told)),
        Stage::Hears { from, reply } => Some(hear(pass, from, reply)),
        Stage::Reads | Stage::Awaits { .. } => unreachable!(),
    }
}

/// The reply that came is heard. If memory runs out, the pass is over, and told so next.
pub(crate) fn hear(pass: &mut Option<Pass>, from: Actor, reply: Reply) -> Made
    requires { does_hold pass.old (Stage.Hears from reply) ≡ true }
    ensures come { (config : Config) (k begun : ℕ) (done : Bool) (m : Mover) (f : Flight) → HasCome config k begun m f pass.old (Stage.Hears from reply) → Comes config k done begun m f result begun pass.new }
    ensures holds { does_hold pass.new result.stage ≡ true }
{
    let stage = heard(pass, &reply);
    Made::hears(from, reply, stage)
}

// A pass over this tablet starts. Tells where its applier then stands.
fn started(alloc: Global, tablet: u32, pass: &mut Option<Pass>) -> Stage
    ensures on { GoesOn (pass_program tablet) pass.new result }
    ensures holds { does_hold pass.new result ≡ true }
{
    let Ok(begun) = Pass::start(alloc, tablet) else {
        unreachable!();
    };
    go_on(begun, pass)
}

// The pass under way hears a reply. Tells where its applier then stands. If memory runs out, the pass is over, and told so.
fn heard(pass: &mut Option<Pass>, reply: &Reply) -> Stage
    requires { is_some pass.old ≡ true }
    ensures on { (p : Pass) → pass.old ≡ Some p → GoesOn (heard (rest p) reply.now) pass.new result ⊎ IsLost pass.new result }
    ensures holds { does_hold pass.new result ≡ true }
{
    let Some(mut under_way) = pass.take() else {
        unreachable!();
    };
    match under_way.hear(reply) {
        Ok(()) => go_on(under_way, pass),
        Err(_) => Stage::Tells(Told::Refused(ToldRefusal::Memory)),
    }
}

// What comes next in a pass, which is held as long as it asks.
fn go_on(mut under_way: Pass, pass: &mut Option<Pass>) -> Stage
    ensures on { GoesOn (rest under_way) pass.new result }
    ensures holds { does_hold pass.new result ≡ true }
{
    match under_way.next() {
        Ok(PassTurn::Ask { to, request }) => {
            *pass = Some(under_way);
            Stage::Asks { to, request }
        }
        Ok(PassTurn::Done(told)) => {
            *pass = None;
            Stage::Tells(told)
        }
        Err(_) => unreachable!(),
    }
}
