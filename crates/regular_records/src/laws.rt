//! What holds of the newest version and of what a read meets, for proofs of callers. A call does nothing.
ghost use Rattle.regular_records.specs.Laws.{MetOfBoth, NewestIsLastWord, NewestOfBoth, RowsOfAdded};

/// The newest version up to a time on a prefix of a path is the last word on that path.
pub fn newest_is_last_word()
    ensures { NewestIsLastWord }
{}

/// Of two lists of versions, the newest is the later of the two newest.
pub fn newest_of_both()
    ensures { NewestOfBoth }
{}

/// Of two lists of versions, what a read meets is the better of what it meets in each.
pub fn met_of_both()
    ensures { MetOfBoth }
{}

/// Behind other versions, versions that are added one after another have the rows that their list has.
pub fn rows_of_added()
    ensures { RowsOfAdded }
{}
