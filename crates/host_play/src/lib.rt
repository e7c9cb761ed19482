//! A script is played over the workers: a client for each session and the workers, each in a thread
//! of its own.
#![tactic(auto)]

mod acting;
mod actor;
mod ahead;
mod casting;
mod client;
mod closing;
mod device;
mod ending;
mod gathering;
mod lines;
mod opened;
mod pieces;
mod played;
mod playing;
mod stage;

pub use played::{Ground, NoPlay, Played, Setting};
pub use playing::play;
