//! What can be stamped.

/// What can be stamped: something that contracts see as an entry.
pub trait Stamped {
    ghost use Rattle.std.specs.Prelude.{Bool};
    ghost use Rattle.txn_data.specs.declared.entry.Entry.{Entry};

    // The entry.
    ghost seen: { Self → Entry };

    // Whether the entry uses the message that its seat holds.
    ghost uses: { Self → Bool };
}
