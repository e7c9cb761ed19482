use host_block::ReservedList;
use host_record::Finish;

/// One thing that a client is to do.
#[derive(Clone, Copy, Debug, PartialEq, Eq)]
pub enum ScriptLine {
    Attach {
        pages: u32,
    },
    /// Fills `count` blocks of the buffer with one value; the first is `block`.
    Fill {
        id: u16,
        block: u32,
        count: u32,
        byte: u8,
    },
    /// Copies `count` blocks of the buffer into the log; the first is `block`.
    Show {
        id: u16,
        block: u32,
        count: u32,
    },
    /// Sends a record.
    Send {
        bytes: [u8; 32],
    },
    /// Waits for all answers that the records before it owe.
    WaitAll,
    /// Waits until the session has had so many answers.
    WaitFor {
        total: u32,
    },
}

/// What one client is to do, in order.
pub type ScriptLines = ReservedList<ScriptLine>;

/// What one client is to do, and on which partition.
#[derive(Drop)]
pub struct SessionScript {
    pub part: u32,
    pub lines: ScriptLines,
    pub finish: Finish,
}

/// What each client is to do, in the order of the sessions.
pub type SessionScripts = ReservedList<SessionScript>;

/// A script that was read or made.
#[derive(Drop)]
pub struct Script {
    pub sessions: SessionScripts,
}
