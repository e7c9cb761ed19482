//! What makes a session lawful, as laws over what is known of it once its ends were put together;
//! and that its hands keep what these laws ask of them, so that its pages come back.
#![tactic(auto)]

mod hand_laws;
mod laws;

pub use hand_laws::{hands_keep_sessions, pages_come_back};
pub use laws::{
    buffers_told, drains_come_last, due_answers, fronts_rise, order_kept, sessions_are_lawful,
    taken_in_order, used_rightly,
};
