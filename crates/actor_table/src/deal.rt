//! The step that makes the seat of the next actor.
use crate::view::View;
use atomic_table::Split;

/// Makes the seat of the next actor.
pub struct Deal;

impl Split<View> for Deal {
    ghost use Rattle.actor_table.specs.Steps.{deal_view, dealt_view};

    ghost left = { deal_view };

    ghost right = { dealt_view };
}
