//! Those that take part in a run.
use host_block::Bytes;
use host_io::Disk;
use host_session::ClientEnd;
use host_worker::Hand;

/// A client's end of its session, and the pieces that its shows are put into, the last one's first.
#[derive(Drop)]
pub struct Client {
    pub end: ClientEnd,
    pub pieces: Vec<Bytes>,
}

/// A client with a hand that helps it, or a worker, which is a hand alone.
#[derive(Drop)]
pub struct Actor<D: Disk> {
    pub hand: Hand<D>,
    pub client: Option<Client>,
}
