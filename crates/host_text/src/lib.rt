//! Words and lines of a text, put into a sink by way of bytes that are held back.
#![tactic(auto)]

mod held;
mod line;
mod word;

pub use held::Held;
pub use line::put_line;
pub use word::Word;
