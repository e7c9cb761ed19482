//! Laws over what a run leaves, each the contract of a function that does nothing.
ghost use Rattle.run_law.specs.Images.{AbsentTablesAreTold, LargeDisksAreTold, LargeImagesAreTold};
ghost use Rattle.run_law.specs.Images.{LargeTablesAreTold, UnservedSessionsAreTold};
ghost use Rattle.run_law.specs.Scripts.{BadScriptsAreTold, LongScriptsAreTold, MadeLimitsAreTold};
ghost use Rattle.run_law.specs.Scripts.{PassedLimitsAreTold};

/// A script with a bad line is refused by its first bad line and the first cause in it.
pub fn bad_scripts_are_told()
    ensures { BadScriptsAreTold }
{}

/// A text with more bytes than a script may have is refused as too long.
pub fn long_scripts_are_told()
    ensures { LongScriptsAreTold }
{}

/// A script that passes a limit is refused by the first limit that it passes.
pub fn passed_limits_are_told()
    ensures { PassedLimitsAreTold }
{}

/// So is a generated one.
pub fn made_limits_are_told()
    ensures { MadeLimitsAreTold }
{}

/// An image with too many blocks is refused as such.
pub fn large_images_are_told()
    ensures { LargeImagesAreTold }
{}

/// So is one on a disk that doesn't tell its content.
pub fn large_disks_are_told()
    ensures { LargeDisksAreTold }
{}

/// An image without a table is refused as such.
pub fn absent_tables_are_told()
    ensures { AbsentTablesAreTold }
{}

/// An image with a table that is too large is refused as such.
pub fn large_tables_are_told()
    ensures { LargeTablesAreTold }
{}

/// A script with a session whose partition isn't served is refused by the first such session.
pub fn unserved_sessions_are_told()
    ensures { UnservedSessionsAreTold }
{}
