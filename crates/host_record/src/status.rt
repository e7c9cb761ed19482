ghost use Rattle.std.specs.Prelude.{◌≡◌, IfNone, IfSome};
ghost use Rattle.host_record.specs.Status.{status_number};

/// How a request ended. The names follow Zircon's.
#[derive(Clone, Copy, Debug, PartialEq, Eq)]
pub enum Status {
    Ok,
    NotSupported,
    NoMemory,
    InvalidArgs,
    OutOfRange,
    TooSmall,
    NotFound,
    Io,
}

impl Status {
    /// The number of the status, as a response has it.
    pub fn number(self) -> i32
        ensures { result ≡ status_number self }
    {
        match self {
            Status::Ok => 0,
            Status::NotSupported => -2,
            Status::NoMemory => -4,
            Status::InvalidArgs => -10,
            Status::OutOfRange => -14,
            Status::TooSmall => -15,
            Status::NotFound => -25,
            Status::Io => -40,
        }
    }

    /// The status that has this number; `None` where none has it.
    pub fn of(n: i32) -> Option<Status>
        ensures found { IfSome result (λ status. status_number status ≡ n) }
        ensures none { IfNone result ((status : Status) → status_number status ≡ n → ⊥) }
    {
        match n {
            0 => Some(Status::Ok),
            -2 => Some(Status::NotSupported),
            -4 => Some(Status::NoMemory),
            -10 => Some(Status::InvalidArgs),
            -14 => Some(Status::OutOfRange),
            -15 => Some(Status::TooSmall),
            -25 => Some(Status::NotFound),
            -40 => Some(Status::Io),
            _ => None,
        }
    }
}
