//! Memory that a thread asks for ahead.

use std::alloc::{AllocError, Global};

// How many bytes: more than a long session takes.
const AHEAD: usize = 8_388_608;

/// Asks for one large piece of memory, and gives it back at once. Where there is none, nothing is
/// lost.
///
/// The C library gets a thread's memory from the system one page at a time, each by a call that
/// keeps all threads from theirs. After this call the thread has many pages at once, which it fills
/// one by one. The first call in a process only makes the C library take pieces of this length for
/// common.
pub fn ask_ahead(alloc: Global) {
    let _piece: Result<Vec<u8>, AllocError> = Vec::with_capacity(alloc, AHEAD);
}
