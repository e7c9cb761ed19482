//! `serve_load COUNT` has so many requests served on a disk in memory, one after another, by a
//! server that keeps no history, and prints how many were sent.
#![tactic(auto)]

use host_file::program_words;
use serve_client::serve_in_memory;
use std::process::ExitCode;
use std::sync::Wait;

fn main(rt: HostRuntime) -> ExitCode {
    let Some(sent) = sent_by_word(&rt, &rt) else {
        return ExitCode::from(1);
    };
    match println!(rt; "{sent} requests, none kept") {
        Ok(()) => ExitCode::SUCCESS,
        Err(_) => ExitCode::from(2),
    }
}

// How many records were sent, as the first word asks; the second handle lets it wait. `None` where
// the word is no number, or for want of memory.
fn sent_by_word<R: Wait>(rt: &HostRuntime, handle: &R) -> Option<u32> {
    let words = program_words(rt).ok()?;
    let records = words.first()?.as_str().parse::<u32>().ok()?;
    let done = serve_in_memory(handle, rt.alloc(), records, false)?;
    Some(done.sent)
}
