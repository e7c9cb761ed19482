//! The seats at a book.
use crate::story::Story;
use crate::view::View;
use atomic_table::Seat;

/// The right to take turns at one book, under one number. It has no bytes, and may go to another
/// thread.
///
/// A seat that is dropped while it has the turn leaves its book shut for good.
#[derive(Drop)]
pub struct BookSeat<S: Story> {
    pub(crate) seat: Seat<Option<S>, View<S::Entry, S::Fixed>>,
}
