//! The plain data of a script, its language, printed form, limits and generator as definitions, and
//! what follows from them.
#![tactic(auto)]

mod cause;
mod keyword;
mod laws;
mod limit;
mod parse_error;
mod script;
mod statement;

pub use cause::ScriptCause;
pub use keyword::Keyword;
pub use laws::{generated_again, printed_again, read_again};
pub use limit::Limit;
pub use parse_error::ParseError;
pub use script::{Script, ScriptLine, ScriptLines, SessionScript, SessionScripts};
pub use statement::Statement;
