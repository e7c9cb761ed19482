//! The top call: the words of the program, a script and a disk make a run, whose text goes into a
//! sink.
#![tactic(auto)]

mod ended;
mod list;
mod load;
mod make;
mod mode;
mod on_copy;
mod on_disk;
mod outcome;
mod play_and_tell;
mod play_start;
mod put;
mod refusal;
mod refuse;
mod run_script;
mod status;
mod tell;
mod top_call;
mod words;

pub use host_script::ScriptCause;
pub use host_start::Limit;
pub use outcome::Outcome;
pub use status::RunStatus;
pub use top_call::run;
