//! What an end of the answer ring knows. No value of this type is made.
use crate::slip::Slip;
use std::collections::LinkedList;

pub struct AnswerView {
    /// Whether it may push.
    pub pushes: bool,
    /// Whether it may pop.
    pub pops: bool,
    /// A sender's number.
    pub number: u64,
    /// How many senders the taker has made.
    pub senders: u64,
    /// What the sender has pushed.
    pub pushed: LinkedList<Slip>,
    /// What the taker has taken.
    pub taken: LinkedList<Slip>,
    /// What each closed sender pushed, for the taker to know.
    pub closed: LinkedList<LinkedList<Slip>>,
    /// What the taker was told was pushed.
    pub heard: LinkedList<Slip>,
}
