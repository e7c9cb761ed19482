//! The server.
ghost use Rattle.std.specs.Prelude.{◌≡◌, ◌≤◌};

use crate::session::Session;
use host_device::Device;
use host_frames::Pool;
use host_io::Disk;
use host_session::SessionShared;
use host_turn::Book;

/// A device, a pool of pages and the sessions over them, each on a partition of its own number.
/// Clients and hands work at it together.
#[derive(Drop)]
pub struct Server<D: Disk> {
    pub(crate) device: Book<Device<D>>,
    pub(crate) pool: Pool,
    pub(crate) sessions: Vec<Session>,
    pub(crate) hands: u32,
}

impl<D: Disk> Server<D> {
    ghost use Rattle.host_worker.specs.Servers.{IsSessionShared, pool_of, session_count};

    /// The pool of all pages.
    pub fn pool(&self) -> &Pool
        ensures { result.now ≡ pool_of self.now }
    {
        &self.pool
    }

    /// What the clients and the hands of a session share. Sessions count from 1.
    pub fn session(&self, number: u32) -> &SessionShared
        requires { (1 ≤ number) × (number ≤ session_count self.now) }
        ensures { IsSessionShared self.now number result.now }
    {
        &self.sessions[number as usize - 1].shared
    }
}
