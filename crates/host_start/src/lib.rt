//! What stands before the sessions of a run: the script, the image and the partitions of the
//! sessions.
#![tactic(auto)]

mod attach;
mod copy;
mod error;
mod judge;
mod places;
mod ready;
mod script;
mod start;

pub use copy::ImageCopy;
pub use error::{Limit, StartError};
pub use places::Place;
pub use ready::{NotReady, ReadyCopy, start_on_copy, start_on_disk};
pub use script::{make_script, read_script};
pub use start::Start;
