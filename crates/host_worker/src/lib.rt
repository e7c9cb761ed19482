//! The server: sessions over one device, hands that go round them, waits, and what is gathered at
//! the end.
#![tactic(auto)]

mod ending;
mod finish;
mod finished;
mod gathering;
mod hand;
mod laws;
mod prepare;
mod room;
mod round;
mod server;
mod session;
mod session_end;
mod start;
mod started;
mod turned;
mod wait;

pub use ending::{abort, drain};
pub use finished::{Ends, Finished};
pub use gathering::{Served, gather};
pub use hand::Hand;
pub use laws::content_is_of_own_entries;
pub use round::turn;
pub use server::Server;
pub use started::{NoServer, Started};
pub use turned::Turn;
pub use wait::{send_through, wait_for};
