//! The step by which a message leaves.
use crate::view::View;
use atomic_table::Split;

/// Lets the message that a seat holds leave in a note.
pub struct Leave;

impl Split<View> for Leave {
    ghost use Rattle.actor_table.specs.Steps.{leave_view, left_view};

    ghost left = { leave_view };

    ghost right = { left_view };
}
