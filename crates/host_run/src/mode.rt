//! How the words say that a script is played.
ghost use Rattle.std.specs.Prelude.{◌≡◌, unwrap_or};

use host_play::Setting;

/// What is put of a run.
#[derive(Clone, Copy, Debug, PartialEq, Eq)]
pub enum Text {
    /// The text of its report, with the steps of the device or without.
    Report { steps: bool },
    /// The summary of its report.
    Summary,
}

/// How a script is played and told.
#[derive(Clone, Copy, Debug, PartialEq, Eq)]
pub struct Mode {
    pub setting: Setting,
    /// On a copy of the image in memory.
    pub dry: bool,
    pub text: Text,
}

const WORKERS: u32 = 2;

const DEPTH: u32 = 128;

/// The setting that words ask for.
pub fn setting_of(workers: Option<u32>, depth: Option<u32>, cut: bool) -> Setting
    ensures { result
        ≡ record { workers = unwrap_or workers 2; depth = unwrap_or depth 128; cut = cut } }
{
    Setting {
        workers: workers.unwrap_or(WORKERS),
        depth: depth.unwrap_or(DEPTH),
        cut,
    }
}
