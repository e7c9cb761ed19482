use host_record::Request;

/// What a client does next.
#[derive(Clone, Copy)]
pub enum Deed {
    /// It attaches a buffer of so many pages.
    Attach(u32),
    /// It fills blocks of a buffer with one byte.
    Fill {
        id: u16,
        block: u32,
        count: u32,
        byte: u8,
    },
    /// It is shown blocks of a buffer.
    Show {
        id: u16,
        block: u32,
        count: u16,
    },
    /// It sends a record.
    Send(Request),
    /// It waits until so many answers were received.
    Await(u32),
}
