//! The text of `list`: the partition table of an image, put into a sink.
#![tactic(auto)]

mod attach;
mod entry;
mod guid;
mod image;
mod laws;
mod list;
mod list_error;
mod name;
mod opened;
mod served;

pub use image::list_image;
pub use laws::test_tells_served;
pub use list::write_list;
pub use list_error::ListError;
