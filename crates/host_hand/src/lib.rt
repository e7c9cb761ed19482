//! What one hand does at one session: it hands on a kept answer, or takes a record, carries it out,
//! settles it and lands it.
#![tactic(auto)]

mod block;
mod calls;
mod carry;
mod close;
mod end;
mod errand;
mod hold;
mod job;
mod next;
mod read;
mod run;
mod serving;
mod step;
mod visit;
mod work;

pub use serving::serve;
pub use visit::Visit;
