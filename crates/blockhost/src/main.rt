//! `blockhost run IMAGE` reads a script from standard input, plays it on the image, and prints what
//! its sessions did; with `--dry` it plays on a copy in memory. `blockhost load IMAGE SEED SESSIONS
//! REQUESTS` plays a generated script so, and prints a summary. `blockhost list IMAGE` prints the
//! partition table, `blockhost make SEED SESSIONS REQUESTS` a generated script.
#![tactic(auto)]

mod ending;

ghost use Rattle.std.specs.Prelude.{IfOk};
ghost use Rattle.blockhost.specs.Program.{IsProgramEnd};

use crate::ending::{exit_code, run_words};
use host_file::{FileDisk, RealFile, StdSink, StdSource, WordsError, program_words};
use std::alloc::AllocError;
use std::fs::File;
use std::io;
use std::process::ExitCode;
use std::sync::Wait;
use std::thread::Threads;

fn main(rt: HostRuntime) -> ExitCode {
    exit_code(run_program(&rt, &rt))
}

// Runs the program's words on the real files and streams, in threads of the second handle, and
// gives the number of the status.
fn run_program<R: Threads + Wait + Sync>(rt: &HostRuntime, threads: &R) -> io::Result<u8>
    ensures { IfOk result IsProgramEnd }
{
    // The number of a standard stream that is closed goes to a folder, which takes no text. Else
    // the image would get it, and the text of the run with it. So nothing is run where that fails.
    let _in = File::open(rt, "/")?;
    let _out = File::open(rt, "/")?;
    let _err = File::open(rt, "/")?;
    let args = words_of(rt)?;
    let words: Vec<&str> = args.iter().map(|arg| arg.as_str()).collect(rt.alloc())?;
    let mut script = StdSource::new(rt.reader());
    let mut out = StdSink::new(io::writer(rt));
    let disk = FileDisk::new(RealFile::new(rt.clone()?));
    let ended = run_words(threads, rt.alloc(), &words, &mut script, disk, &mut out);
    if ended.disk.is_held() {
        let _ = eprintln!(rt; "blockhost: another program has the image");
    }
    Ok(ended.number)
}

// The words after the program's name. Words that are no text are outside the grammar, as no words
// are, and are taken for none.
fn words_of(rt: &HostRuntime) -> Result<Vec<String>, AllocError> {
    match program_words(rt) {
        Ok(words) => Ok(words),
        Err(WordsError::NotText) => Ok(Vec::new(rt.alloc())),
        Err(WordsError::Oom) => Err(AllocError),
    }
}
