//! The script language: scripts that are read from a text, printed, and made from a seed.
#![tactic(auto)]

mod append;
mod arguments;
mod draft;
mod draws;
mod generator;
mod keyword;
mod line;
mod named;
mod number;
mod open_session;
mod owing;
mod parser;
mod print;
mod record;
mod split;
mod statement;

pub use generator::generate;
pub use parser::parse;
pub use print::print_script;
pub use script_model::{
    Limit, ParseError, Script, ScriptCause, ScriptLine, ScriptLines, SessionScript, SessionScripts,
};
