//! What a seat knows. No value of these types is made.
use std::collections::LinkedList;

/// One claim.
pub struct Claim {
    /// How many frames it asked for.
    pub asked: u64,
    /// The frames that it won.
    pub won: LinkedList<u32>,
    /// The frames that it found taken.
    pub taken: LinkedList<u32>,
}

pub struct View {
    /// How many seats it stands for, or can still make.
    pub share: u64,
    /// How long a page is, in bytes.
    pub page_size: u32,
    /// How many frames its claims got. A refused one got none.
    pub granted: u64,
    /// How many frames were given back with it.
    pub given_back: u64,
    /// The last one stands first.
    pub claims: LinkedList<Claim>,
    /// The frames that its claim has won, and whose pages are still in their slots.
    pub to_fetch: LinkedList<u32>,
    /// The frames whose pages are out.
    pub frames_out: LinkedList<u32>,
    /// The frames whose slots are out with the seat.
    pub slots_held: LinkedList<u32>,
}
