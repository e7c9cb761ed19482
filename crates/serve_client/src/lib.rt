//! A server serves one client for as long as it asks, and keeps its histories or not. What is
//! proved of it is the same.
#![tactic(auto)]

mod asking;
mod begun;
mod in_memory;
mod load;
mod outcome;
mod serving;

pub use in_memory::serve_in_memory;
pub use load::Load;
pub use outcome::Outcome;
pub use serving::serve;

#[cfg(test)]
mod tests;
