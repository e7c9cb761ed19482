//! What an end of the request ring knows. No value of this type is made.
use crate::envelope::Envelope;
use std::collections::LinkedList;

pub struct RequestView {
    /// Whether it may push.
    pub pushes: bool,
    /// Whether it may pop.
    pub pops: bool,
    /// For how many records the ring was made.
    pub records: u64,
    /// What it has pushed.
    pub pushed: LinkedList<Envelope>,
    /// What it has taken.
    pub taken: LinkedList<Envelope>,
    /// What it was told of the other end: for the sender what was taken, for all others what was
    /// pushed.
    pub heard: LinkedList<Envelope>,
}
