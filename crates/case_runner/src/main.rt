//! Plays the cases that stand on standard input, and prints a line for each: that it went as it
//! wants, or what differs.
#![tactic(auto)]

mod case;
mod check;
mod counted;
mod entry;
mod failing;
mod gate;
mod history;
mod image;
mod images;
mod judge;
mod play;
mod plays;
mod script;
mod text;
mod wanted;
mod words;
mod wrong;

use case::{Case, cases_of};
use plays::{Finding, play_case};
use std::process::ExitCode;
use std::sync::Wait;
use std::thread::Threads;
use std::{io, str};

/// The most lines of an output that are shown.
const SHOWN: usize = 60;

fn main(rt: HostRuntime) -> ExitCode {
    match play_cases(&rt, &rt) {
        Ok(true) => ExitCode::SUCCESS,
        Ok(false) => ExitCode::from(1),
        Err(_) => ExitCode::from(2),
    }
}

// Plays all cases, in threads of the second handle, and says whether each went as it wants.
fn play_cases<R: Threads + Wait + Sync>(rt: &HostRuntime, threads: &R) -> io::Result<bool> {
    let text = io::read_to_string(rt.alloc(), rt.reader())?;
    let cases = cases_of(rt.alloc(), &text)?;
    let mut are_right = true;
    for case in &cases {
        if !tell(rt, case, play_case(threads, rt.alloc(), case))? {
            are_right = false;
        }
    }
    Ok(are_right)
}

// Prints the line of a case, and says whether it is right.
fn tell(rt: &HostRuntime, case: &Case<'_>, found: Result<(), Finding<'_>>) -> io::Result<bool> {
    let name = case.name;
    if let Some(wrong) = &case.bad {
        println!(rt; "{name}: {wrong}")?;
        return Ok(false);
    }
    if found.is_err() == case.is_to_differ {
        println!(rt; "{name} ok")?;
        return Ok(true);
    }
    match &found {
        Ok(()) => println!(rt; "{name}: nothing differs")?,
        Err(finding) => show(rt, name, finding)?,
    }
    Ok(false)
}

// Prints what differs, with the output.
fn show(rt: &HostRuntime, name: &str, finding: &Finding<'_>) -> io::Result<()> {
    let Finding {
        wrong,
        with,
        nr,
        ..
    } = finding;
    println!(rt; "{name}: {wrong} (with {with}, play {nr})")?;
    let Some((status, bytes)) = &finding.left else {
        return Ok(());
    };
    println!(rt; "  status {status}")?;
    let Ok(text) = str::from_utf8(bytes) else {
        return Ok(());
    };
    for line in text.lines().take(SHOWN) {
        println!(rt; "  | {line}")?;
    }
    Ok(())
}
