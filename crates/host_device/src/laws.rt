// Laws over the definitions, each the contract of a function that does nothing.
ghost use Rattle.host_device.specs.Laws.{CrashInsideStep, CrashAfterFlush};

/// A crash at any moment of a step leaves what the history before it allows.
pub fn crash_inside_step()
    ensures { CrashInsideStep }
{}

/// A crash right after a flush that didn't fail leaves the content.
pub fn crash_after_flush()
    ensures { CrashAfterFlush }
{}
