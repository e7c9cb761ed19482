//! The tests of `host_block` and `host_io`: bytes and lists, and a disk, a source and a sink in
//! memory.

#[cfg(test)]
mod tests;
