//! The step that stamps an entry.
use crate::said::Said;
use crate::view::View;
use atomic_table::Play;
use std::marker::PhantomData;

/// Stamps the entry that `N` says.
pub struct Stamp<N> {
    of: PhantomData<N>,
}

impl<N: Said> Play<(), View> for Stamp<N> {
    ghost use Rattle.actor_table.specs.Steps.{Acts};

    ghost then = { Acts N.said };
}
