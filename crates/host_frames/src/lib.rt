//! The pool of buffer pages: pages move by value, and words of claim bits say which frames are
//! taken.
#![tactic(auto)]

mod claim;
mod give_back;
mod no_frames;
mod page;
mod pages;
mod pool;
mod pool_name;
mod rule;
mod seat;
mod steps;
mod view;

pub use no_frames::NoFrames;
pub use pages::Pages;
pub use pool::Pool;
pub use pool_name::PoolName;
pub use seat::PoolSeat;
