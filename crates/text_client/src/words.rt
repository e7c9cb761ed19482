//! The tests of `host_words`: words of a call, and the command that they are.

#[cfg(test)]
mod reading;
