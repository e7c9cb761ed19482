//! The plain judge of a session's buffers: whether their history is what it has to be. It is slow,
//! takes memory as it likes, and shares nothing with the server.
#![tactic(auto)]

mod entries;
mod events;
mod history;
mod own_entries;
mod owners;
mod pages;
mod places;
mod releases;
mod session;
mod told;
mod used;

pub use events::are_equal;
pub use history::events_of;
pub use places::{
    are_before, are_before_one, client_places, entry_places, first_are_before, step_places,
};
pub use session::is_buffer_history;
pub use told::told_count;
