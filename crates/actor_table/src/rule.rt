//! The rule of a stage's table.
use crate::view::View;
use atomic_table::TableRule;

/// The rule of a stage's table. Its key is the number of actors.
pub struct StageRule;

impl TableRule<(), View, u64> for StageRule {
    ghost use Rattle.actor_table.specs.Rule.{IsKept};
    ghost use Rattle.actor_table.specs.Steps.{opening_view};

    ghost holds = { λ actors s. IsKept actors s.words s.views };

    ghost first = { opening_view };
}
