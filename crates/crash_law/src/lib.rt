//! What a crash leaves of a lawful run.
#![tactic(auto)]

mod laws;

pub use laws::{
    ended_writes_survive, flushed_writes_survive, forced_writes_survive, own_flushes_keep,
};
