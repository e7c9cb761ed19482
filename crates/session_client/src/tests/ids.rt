//! Ids and frames are used up.
use super::{answer, close, plain};
use crate::{Desk, Taken, close_desk, open_desk};
use host_record::Finish;
use host_session::AttachError;
use std::sync::Wait;
use std::test::*;

// A buffer of one page is given, closed and answered. Tells whether it had this id and was closed
// well.
fn give_and_close<R: Wait>(rt: &R, desk: &mut Desk, id: u16) -> bool {
    if desk.attach(rt, 1) != Some(Ok(id)) {
        return false;
    }
    desk.send(rt, &close(7, id));
    let Taken::ToDo(task) = desk.take(rt) else {
        return false;
    };
    desk.land(rt, task);
    answer(rt, desk) == Some((0, 7))
}

// Gives and closes so many buffers, and tells how many were well.
fn use_up<R: Wait>(rt: &R, desk: &mut Desk, count: u16) -> u16 {
    for n in 1..=count {
        if !give_and_close(rt, desk, n) {
            return n - 1;
        }
    }
    count
}

#[test]
fn ids_are_used_up(rt: HostRuntime) -> Result<(), Fail> {
    let mut desk = open_desk(rt.alloc(), plain(65_535, 200_000))?;
    assert_eq!(rt; use_up(&rt, &mut desk, 65_535), 65_535);
    assert_eq!(rt; desk.attach(&rt, 1), Some(Err(AttachError::NoIds)));
    assert!(rt; desk.finish(&rt, Finish::Drain));
    let closed = desk.close(&rt);
    assert!(rt; closed);
    if closed {
        let (log, rows, history) = close_desk(rt.alloc(), desk)?.ok_or("logs")?;
        assert_eq!(rt; log.len(), 3 * 65_535 + 2);
        assert_eq!(rt; rows.len(), 65_535);
        assert_eq!(rt; history.len(), 3 * 65_535);
    }
    Ok(())
}

#[test]
fn frames_are_used_up(rt: HostRuntime) -> Result<(), Fail> {
    let mut desk = open_desk(rt.alloc(), plain(1, 4))?;
    assert_eq!(rt; desk.attach(&rt, 4000), Some(Ok(1)));
    assert_eq!(rt; desk.attach(&rt, 200), Some(Err(AttachError::NoFrames)));
    assert_eq!(rt; desk.attach(&rt, 1), Some(Ok(2)));
    assert_eq!(rt; desk.room(), 1);
    Ok(())
}
