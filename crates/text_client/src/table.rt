//! The tests of `host_gpt` and `host_part`: CRCs, tables of whole and of damaged images, and the
//! ranges that are served.

#[cfg(test)]
mod tests;
