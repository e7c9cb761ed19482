//! The ids of a session are used up.
use crate::run_text;
use host_gpt::sample::base_image;
use host_io::OpenGate;
use host_model::Event;
use host_play::Setting;
use host_session::AttachError;
use std::alloc::{AllocError, Global};
use std::sync::Wait;
use std::test::Fail;
use std::thread::Threads;

// For each id a buffer of one page is attached and closed, so that no more than a thousand stand.
// Then comes one attach more.
fn text(alloc: Global, ids: u16) -> Result<Vec<u8>, AllocError> {
    let mut text = b"session 1\n".to_vec(alloc)?;
    for id in 1..=ids {
        let lines = format!(in alloc; "attach 1\nclose 0 {id}\n")?;
        text.extend_from_slice(lines.as_bytes())?;
        if id % 1_000 == 0 {
            text.extend_from_slice(b"wait\n")?;
        }
    }
    text.extend_from_slice(b"wait\nattach 1\n")?;
    Ok(text)
}

// Whether each id was given once, the attach after them was refused, and all pages are home.
fn uses_up<R: Threads + Wait + Sync>(rt: &R, alloc: Global, workers: u32) -> Option<bool> {
    if workers == 0 || workers > 16 {
        return None;
    }
    let image = base_image(alloc).ok()?;
    let text = text(alloc, 65_535).ok()?;
    let setting = Setting {
        workers,
        depth: 128,
        cut: false,
    };
    let fails = Vec::new(alloc);
    let run = run_text(
        rt,
        alloc,
        image.as_slice(),
        &text,
        fails,
        setting,
        &OpenGate,
    )?;
    let session = run.report.sessions.get(0)?;
    let last = session.log.get(3 * 65_535)?;
    let is_refused = matches!(
        last,
        Event::NotAttached {
            pages: 1,
            cause: AttachError::NoIds
        }
    );
    let (events, records) = (session.log.len(), session.taken.len());
    let home = run.report.frames_home;
    Some(is_refused && events == 3 * 65_535 + 2 && records == 65_535 && home == 4096)
}

#[test]
fn ids_are_used_up(rt: HostRuntime) -> Result<(), Fail> {
    assert!(rt; uses_up(&rt, rt.alloc(), 1).ok_or("run")?);
    Ok(())
}

#[test]
fn ids_are_used_up_with_eight_workers(rt: HostRuntime) -> Result<(), Fail> {
    assert!(rt; uses_up(&rt, rt.alloc(), 8).ok_or("run")?);
    Ok(())
}
