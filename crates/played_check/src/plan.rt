//! What a script asks of its clients.

use host_record::Finish;

/// What a line asks of a client.
#[derive(Clone, Copy)]
pub enum Ask {
    Attach {
        pages: u32,
    },
    Fill {
        id: u16,
        block: u32,
        count: u32,
        byte: u8,
    },
    Show {
        id: u16,
        block: u32,
        count: u32,
    },
    /// A record.
    Send {
        bytes: [u8; 32],
    },
    /// Until each answer that is owed was received.
    WaitAll,
    /// Until the session has had so many answers.
    WaitFor {
        total: u64,
    },
}

/// What a script asks of one client.
#[derive(Drop)]
pub struct Plan {
    pub part: u32,
    pub asks: Vec<Ask>,
    pub finish: Finish,
}
