//! What a seat knows. No value of these types is made.
use std::collections::LinkedList;

pub enum Stage {
    /// It has made the seats below its number, and makes the next.
    Maker,
    Outside,
    Waiting,
    Inside,
    /// It tells a seat what another has seen.
    Note,
    /// It has taken in other seats, for good.
    Closing,
    Spent,
}

pub struct View<E, F> {
    pub stage: Stage,
    pub number: u64,
    /// Tickets are counted without bound. A word has the ticket modulo 2^64.
    pub ticket: u64,
    /// How many seats it stands for, or can still make.
    pub share: u64,
    /// The fixed part of the book's state.
    pub fixed: Option<F>,
    /// The beginning of the history that the seat has seen.
    pub seen: LinkedList<E>,
    /// What another seat had seen, from a note that was taken in.
    pub told: LinkedList<E>,
    /// The fixed part that the note had.
    pub told_fixed: Option<F>,
    /// The seats that were taken in, with what they had seen.
    pub members: LinkedList<(u64, LinkedList<E>)>,
}
