//! The step by which a seat takes in what another one knows.
use crate::view::View;
use atomic_table::Join;

/// Takes in what another seat knows.
pub struct Gather;

impl Join<View> for Gather {
    ghost use Rattle.actor_table.specs.declared.view.View.TheVariants.{Spent};
    ghost use Rattle.actor_table.specs.Steps.{gather_view};

    ghost both = { gather_view };

    ghost spent = { Spent };
}
