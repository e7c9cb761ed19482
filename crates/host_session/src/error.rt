use thiserror::Error;

/// Why a record wasn't sent.
#[derive(Clone, Copy, Debug, PartialEq, Eq, Error)]
pub enum SendError {
    #[error("the request ring is full")]
    Full,
    #[error("the session was ended or aborted")]
    Closed,
}
