//! What serves requests.
ghost use Rattle.std.specs.Prelude.{◌≡◌, ◌<◌, ◌^◌, ◌↔◌, length};

use txn_data::{Actor, Request, Served};

/// A tablet or a status tablet: it serves one request after another, each as its table says over its own entries.
pub trait Machine {
    ghost use Rattle.std.specs.Prelude.{◌≡◌, ℕ, ◌<◌, ◌^◌, ◌↔◌, List, length};
    ghost use Rattle.txn_data.specs.Time.{takes_time};
    ghost use Rattle.txn_data.specs.declared.actor.Actor.{Actor};
    ghost use Rattle.txn_data.specs.declared.request.Request.{Request};
    ghost use Rattle.txn_data.specs.declared.entry.Entry.{Entry};
    ghost use Rattle.txn_types.specs.Machine.{Advances, FewTablets, ReadingGiven};

    // The actor that it is, and the length of its leases in microseconds.
    ghost actor: { Self → Actor };

    ghost lease: { Self → ℕ };

    // The request is one of its own table, each part of a path and each value in it has 1 to 65,536 bytes, and each path
    // fits its versions.
    ghost accepts: { Self → Request → Type 0 };

    // Its state and its store are those of the table over these entries of its own, the newest first, where the log that
    // it was opened on held these bytes and had counted so many faults.
    ghost stands_for: { Self → List ℕ → ℕ → List Entry → Type 0 };

    // How many actions it has made.
    ghost count: { Self → ℕ };

    /// Serves a request of `from`, with the reading of its node's clock, in microseconds, where the request takes one.
    /// If memory runs out, it is as before.
    fn serve(&mut self, from: Actor, request: &Request, reading: Option<u64>) -> Served
        requires accepted { accepts self.old request.now }
        requires reading { ReadingGiven (takes_time request.now) reading }
        requires tablets { FewTablets request.now }
        requires room { count self.old < 2 ^ 62 }
        ensures actor { actor self.new ≡ actor self.old }
        ensures lease { lease self.new ≡ lease self.old }
        ensures accepts { (asked : Request) → accepts self.new asked ↔ accepts self.old asked }
        ensures copy { result.copy ≡ result.reply }
        ensures advances { Advances (stands_for self.old) (stands_for self.new) (lease self.old) (actor self.old) from reading request.now result.reply result };

    /// How many actions it has made, refused ones among them. It takes no memory.
    fn actions(&self) -> u64
        ensures count { result ≡ count self.now }
        ensures entries { (bytes : List ℕ) (faults : ℕ) (h : List Entry) → stands_for self.now bytes faults h → result ≡ length h };
}
