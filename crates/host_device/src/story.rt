// The device as a state behind a book.

use crate::device::Device;
use crate::fixed::DeviceFixed;
use host_io::Disk;
use host_model::Step;
use host_turn::Story;

impl<D: Disk> Story for Device<D> {
    ghost use Rattle.host_device.specs.Seen.{steps_of, fixed_of};

    type Entry = Step;

    type Fixed = DeviceFixed<D>;

    ghost story = { λ device. (steps_of device).items };

    ghost maker = { λ step. step.hand };

    ghost fixed = { fixed_of };

    fn length(&self) -> u64 {
        self.steps.len()
    }
}
