use std::fmt;

/// Which header the table is read from.
#[derive(Clone, Copy, Debug, PartialEq, Eq)]
pub enum Which {
    /// The header in block 1.
    Primary,
    /// The header in the last block.
    Backup,
}

impl fmt::Display for Which {
    fn fmt<W: fmt::Write>(&self, f: &mut fmt::Formatter<W>) -> fmt::Result {
        f.write_str(match self {
            Which::Primary => "primary",
            Which::Backup => "backup",
        })
    }
}
