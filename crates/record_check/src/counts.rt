//! How often bytes stand in lists.
ghost use Rattle.std.specs.Prelude.{◌≡◌};
ghost use Rattle.std.specs.Str.{bytes_eq};
ghost use Rattle.host_model.specs.Lists.{count, within_counts, same_counts};

// How often these bytes stand in the list.
pub fn times(bytes: &[u8; 32], list: &[[u8; 32]]) -> usize
    ensures { result ≡ count (bytes_eq bytes.now) list.now }
{
    list.iter().filter(|other| *bytes == **other).count()
}

/// Whether no bytes stand in the first list more often than in the second.
pub fn are_within(these: &[[u8; 32]], those: &[[u8; 32]]) -> bool
    ensures { result ≡ within_counts bytes_eq these.now those.now }
{
    these
        .iter()
        .all(|bytes| times(bytes, these) <= times(bytes, those))
}

/// Whether all bytes stand in both lists as often.
pub fn are_as_often(these: &[[u8; 32]], those: &[[u8; 32]]) -> bool
    ensures { result ≡ same_counts bytes_eq these.now those.now }
{
    are_within(these, those) && are_within(those, these)
}
