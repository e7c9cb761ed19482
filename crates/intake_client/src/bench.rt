//! A session's intake with all that it stands on, its client, and one hand.
use crate::flight::Flight;
use host_group::Cells;
use host_intake::Intake;
use host_memory::Memory;
use host_rings::Sender;
use host_turn::{Book, BookSeat};
use std::marker::Model;

/// The client's number is 1. One record that the hand took may fly while others are taken and end.
#[derive(Drop)]
pub struct Bench {
    pub(crate) memory: Book<Memory>,
    pub(crate) hand: BookSeat<Memory>,
    pub(crate) cells: Cells,
    pub(crate) sender: Sender,
    pub(crate) intake: Intake,
    pub(crate) sent: u32,
    /// How long the client knows the buffers' history to be.
    pub(crate) front: u64,
    pub(crate) flight: Option<Flight>,
}

impl Model for Bench {
    ghost use Rattle.intake_client.specs.Benched.{BenchState, IsKept, bench_state};

    ghost Value = { BenchState };

    ghost view = { bench_state };

    ghost invariant = { IsKept };
}
