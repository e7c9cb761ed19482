//! The plain judge: for each definition of what is lawful a function that computes it. It is slow,
//! takes memory as it likes, and shares nothing with the server.
#![tactic(auto)]

mod closing;
mod following;
mod frames;
mod image;
mod image_bytes;
mod legal;
mod order;
mod parts;
mod report;
mod run;
mod session;

pub use image_bytes::{blocks_of, is_lawful_image};
pub use parts::{RunParts, SessionParts};
pub use report::{is_lawful, is_lawful_run, run_parts};
pub use run::{is_lawful_in, session_parts};
pub use session::{keeps_order, parts_of_lists};
