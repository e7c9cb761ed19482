//! The plain judge of whether a run played a script. It is slow, takes memory as it likes, and
//! shares nothing with the server.
#![tactic(auto)]

mod calls;
mod plan;
mod played;

pub use plan::{Ask, Plan};
pub use played::is_played;
