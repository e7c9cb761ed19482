//! Both ends of a session: what its client does, what its hands share, and how the two are put
//! together at the end.
#![tactic(auto)]

mod buffers;
mod client;
mod close;
mod error;
mod finish;
mod fronts;
mod hand;
mod laws;
mod messages;
mod open;
mod room;
mod shared;
mod spec;

pub use client::ClientEnd;
pub use close::{SessionLogs, close_session};
pub use error::SendError;
pub use fronts::Fronts;
pub use hand::SessionHand;
pub use host_model::AttachError;
pub use laws::{counting_holds_before, counting_tells};
pub use open::open_session;
pub use shared::SessionShared;
pub use spec::SessionSpec;
