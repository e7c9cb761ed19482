ghost use Rattle.std.specs.Prelude.{◌≡◌, Some};
ghost use Rattle.host_record.specs.Command.{names_blocks, names_buffer, is_transfer};

/// What a request asks for, by the low eight bits of its command.
#[derive(Clone, Copy, Debug, PartialEq, Eq)]
pub enum Opcode {
    Read,
    Write,
    Flush,
    Trim,
    Close,
}

impl Opcode {
    /// Whether such a request names blocks of the device: a read, write or trim.
    pub fn names_blocks(self) -> bool
        ensures { result ≡ names_blocks (Some self) }
    {
        matches!(self, Opcode::Read | Opcode::Write | Opcode::Trim)
    }

    /// Whether such a request names a buffer: a read, write or close.
    pub fn names_buffer(self) -> bool
        ensures { result ≡ names_buffer (Some self) }
    {
        matches!(self, Opcode::Read | Opcode::Write | Opcode::Close)
    }

    /// Whether such a request moves blocks between a buffer and the device: a read or write.
    pub fn is_transfer(self) -> bool
        ensures { result ≡ is_transfer (Some self) }
    {
        matches!(self, Opcode::Read | Opcode::Write)
    }
}
