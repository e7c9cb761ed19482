//! What a server ends with.
use crate::session_end::SessionEnds;
use host_device::Device;
use host_io::Disk;
use std::marker::Model;
use std::snapshot::Snapshot;

/// The device, and how the sessions of a server ended.
#[derive(Drop)]
pub struct Finished<D: Disk> {
    /// The closing flush may still be made on it.
    pub device: Device<D>,
    pub(crate) ends: Ends<D>,
}

/// How the sessions of a server ended, and how many frames are home. It has no maker but
/// `Server::finish`.
///
/// Contracts see the sessions, whether they are kept, the frames, and the device's steps and the
/// length of its blocks at that moment.
#[derive(Drop)]
pub struct Ends<D: Disk> {
    pub(crate) sessions: SessionEnds,
    pub(crate) frames_home: u32,
    // The device as it was then.
    pub(crate) left: Snapshot<Device<D>>,
}

impl<D: Disk> Model for Ends<D> {
    ghost use Rattle.host_device.specs.Seen.{shape_of, steps_of};
    ghost use Rattle.host_worker.specs.Ends.{EndsState, IsEnded, ends_seen};

    ghost Value = { EndsState };

    ghost view = { λ a.
        ends_seen a.sessions.items a.sessions.kept a.frames_home (steps_of a.left.value).items
        (shape_of a.left.value).size };

    ghost invariant = { λ a.
        IsEnded (ends_seen a.sessions.items a.sessions.kept a.frames_home
        (steps_of a.left.value).items (shape_of a.left.value).size) };
}
