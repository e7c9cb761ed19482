//! A law on histories, as the contract of a function that does nothing.
ghost use Rattle.host_worker.specs.Laws.{ContentIsOfOwnEntries};

/// What the blocks of a range have depends on the changes of its own blocks alone.
pub fn content_is_of_own_entries()
    ensures { ContentIsOfOwnEntries }
{}
