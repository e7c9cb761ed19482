/// The first word of a line.
#[derive(Clone, Copy)]
pub enum Keyword {
    Session,
    Attach,
    Fill,
    Show,
    Read,
    Write,
    Flush,
    Trim,
    Close,
    Raw,
    Wait,
    Drain,
    Abort,
}
