use crate::hand::Hand;
use crate::server::Server;
use host_device::Device;
use host_io::Disk;
use host_session::ClientEnd;

/// A server, its clients by the numbers of their sessions, and its hands by their numbers.
#[derive(Drop)]
pub struct Started<D: Disk> {
    pub server: Server<D>,
    pub clients: Vec<ClientEnd>,
    pub hands: Vec<Hand<D>>,
}

/// Want of memory. It hands the device back.
#[derive(Drop)]
pub struct NoServer<D: Disk> {
    pub device: Device<D>,
}
