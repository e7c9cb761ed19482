// The limits of a script.
ghost use Rattle.std.specs.Prelude.{IfErr};
ghost use Rattle.host_start.specs.Reading.{Judges};
ghost use Rattle.host_start.specs.Refusals.{IsOfScript};

use crate::{Limit, StartError};
use host_block::BlockSize;
use script_model::Script;

/// The script, where it passes no limit with blocks of this size.
pub fn judge(script: Script, size: BlockSize) -> Result<Script, StartError>
    ensures judges { Judges size script result }
    ensures cause { IfErr result IsOfScript }
{
    match script.limit(size) {
        Some(passed) => Err(StartError::TooLarge {
            what: Limit::from(passed),
        }),
        None => Ok(script),
    }
}
