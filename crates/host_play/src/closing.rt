//! The closing flush.
ghost use Rattle.std.specs.Prelude.{◌≡◌, ◌↔◌, ◌++◌, IsTrue};
ghost use Rattle.host_device.specs.Seen.{fixed_of, steps_of};
ghost use Rattle.host_report.specs.Lawful.{closing_steps};
ghost use Rattle.host_report.specs.declared.closing.Closing.TheVariants.{Cut as WasCut};

use host_block::Op;
use host_device::{Device, StepError};
use host_io::Disk;
use host_model::SharedBytes;
use host_report::Closing;

/// Flushes the device after the sessions, unless that is cut.
pub fn close_device<D: Disk>(device: &mut Device<D>, cut: bool) -> Closing
    ensures steps { (steps_of device.new).items
        ≡ (steps_of device.old).items ++ closing_steps result }
    ensures cut { (result ≡ WasCut) ↔ IsTrue cut }
    ensures fixed { fixed_of device.new ≡ fixed_of device.old }
{
    if cut { Closing::Cut } else { flush(device) }
}

// Makes the closing flush, with no session's number.
fn flush<D: Disk>(device: &mut Device<D>) -> Closing
    ensures steps { (steps_of device.new).items
        ≡ (steps_of device.old).items ++ closing_steps result }
    ensures not_cut { ¬ (result ≡ WasCut) }
    ensures fixed { fixed_of device.new ≡ fixed_of device.old }
{
    if device.make_room().is_err() {
        return Closing::NoMemory;
    }
    match device.step(0, 0, 0, 0, Op::Flush, 0, SharedBytes::empty()) {
        Ok(()) => Closing::Good,
        Err(StepError::Fault) => Closing::Fault,
        Err(StepError::Oom) => Closing::NoMemory,
    }
}
