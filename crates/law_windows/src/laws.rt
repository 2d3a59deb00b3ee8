//! The windows of finished reads in every run, for proofs of callers. A call does nothing.
ghost use Rattle.law_windows.specs.Laws.{KnownCommitsAreInWindows, KnownWritesAreInWindows, WindowsAreOfBegins};

/// A read inside a transaction has the window of its begin.
pub fn windows_are_of_begins()
    ensures { WindowsAreOfBegins }
{}

/// Where clocks agree within the skew, what was known before a read is committed not after the end of its window.
pub fn known_commits_are_in_windows()
    ensures { KnownCommitsAreInWindows }
{}

/// And neither are the times of its writes.
pub fn known_writes_are_in_windows()
    ensures { KnownWritesAreInWindows }
{}
