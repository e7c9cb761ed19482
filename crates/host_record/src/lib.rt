//! The requests and responses of a session, as 32 bytes each on the wire, and the statuses that a
//! response names.
#![tactic(auto)]

mod finish;
mod opcode;
mod request;
mod response;
mod status;

pub use finish::Finish;
pub use opcode::Opcode;
pub use request::Request;
pub use response::Response;
pub use status::Status;
