//! The worked example and the tests of `host_cache`: `flush_kept` carries a history over a flush,
//! as a device does. The tests hold random calls of a cache against a plain array.

mod keeps;

pub use keeps::flush_kept;

#[cfg(test)]
mod tests;
