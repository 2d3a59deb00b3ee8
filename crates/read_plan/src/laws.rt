//! How much a read asks, over the definitions alone. A call does nothing.
ghost use Rattle.read_plan.specs.Laws.{ReadsTakeTwoRounds, RoundsVisitFewTablets};

/// Whatever a read hears, it makes at most two rounds of visits, the first with the window and the second without, and in
/// each visits a tablet at most once: with one to sixteen places at most sixteen visits a round.
pub fn reads_take_two_rounds()
    ensures rounds { ReadsTakeTwoRounds }
    ensures visits { RoundsVisitFewTablets }
{}
