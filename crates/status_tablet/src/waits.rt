//! The tablets that have not applied a transaction yet.
ghost use Rattle.std.specs.Prelude.{◌≡◌, not, nat_eq, filter};
ghost use Rattle.std.specs.List.{list_all};

use std::marker::Model;

/// The tablets that have not applied a committed transaction yet. Contracts see the list.
#[derive(Debug, Drop)]
pub struct Waits {
    tablets: Vec<u32>,
}

impl Model for Waits {
    ghost use Rattle.std.specs.Prelude.{ℕ, List};

    ghost Value = { List ℕ };

    ghost view = { λ w. w.tablets.items };
}

impl Waits {
    /// It waits for these tablets.
    pub fn of(tablets: Vec<u32>) -> Waits
        ensures { result ≡ tablets.items }
    {
        Waits { tablets }
    }

    /// Whether no tablet but this one is waited for.
    pub fn only(&self, tablet: u32) -> bool
        ensures { result ≡ list_all (λ k. nat_eq k tablet) self.now }
    {
        self.tablets.iter().all(|k| *k == tablet)
    }

    /// The tablet has applied the transaction. It takes no memory.
    pub fn note(&mut self, tablet: u32)
        ensures { self.new ≡ filter (λ k. not (nat_eq k tablet)) self.old }
    {
        self.tablets.retain(|k| *k != tablet);
    }
}
