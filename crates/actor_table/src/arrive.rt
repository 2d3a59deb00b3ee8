//! The step by which a note arrives.
use crate::view::View;
use atomic_table::Join;

/// Takes in a note.
pub struct Arrive;

impl Join<View> for Arrive {
    ghost use Rattle.actor_table.specs.declared.view.View.TheVariants.{Spent};
    ghost use Rattle.actor_table.specs.Steps.{arrive_view};

    ghost both = { arrive_view };

    ghost spent = { Spent };
}
