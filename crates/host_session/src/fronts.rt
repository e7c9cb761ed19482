ghost use Rattle.std.specs.Prelude.{◌≡◌};
ghost use Rattle.host_session.specs.Client.{greater, slip_fronts};

use host_rings::Slip;

/// How long the device history and the buffer history are known to be.
#[derive(Clone, Copy, Debug, PartialEq, Eq)]
pub struct Fronts {
    pub device: u64,
    pub memory: u64,
}

impl Fronts {
    /// The greater of each, once a slip was received.
    pub(crate) fn raised_by(&self, slip: &Slip) -> Fronts
        ensures { result ≡ greater self.now (slip_fronts slip.now) }
    {
        Fronts {
            device: self.device.max(slip.device_front),
            memory: self.memory.max(slip.memory_front),
        }
    }
}
