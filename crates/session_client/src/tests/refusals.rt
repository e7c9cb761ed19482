//! What is refused, and what that leaves.
use super::{flush, plain};
use crate::{Sizes, close_desk, open_desk};
use host_model::Event;
use host_record::Finish;
use host_session::{AttachError, SendError};
use std::test::*;

#[test]
fn after_a_drain_all_is_closed(rt: HostRuntime) -> Result<(), Fail> {
    let mut desk = open_desk(rt.alloc(), plain(1, 4))?;
    assert!(rt; desk.finish(&rt, Finish::Drain));
    assert_eq!(rt; desk.attach(&rt, 1), Some(Err(AttachError::Closed)));
    assert_eq!(rt; desk.send(&rt, &flush(1)), Some(Err(SendError::Closed)));
    assert_eq!(rt; desk.room(), 4);
    let closed = desk.close(&rt);
    assert!(rt; closed);
    if closed {
        let (log, rows, history) = close_desk(rt.alloc(), desk)?.ok_or("logs")?;
        assert!(rt; matches!(log.as_slice(), [Event::Drained]));
        assert!(rt; rows.is_empty() && history.is_empty());
    }
    Ok(())
}

#[test]
fn a_full_ring_leaves_all(rt: HostRuntime) -> Result<(), Fail> {
    let sizes = Sizes {
        depth: 1,
        ..plain(2, 2)
    };
    let mut desk = open_desk(rt.alloc(), sizes)?;
    assert!(rt; desk.receive(&rt).is_none());
    assert_eq!(rt; desk.send(&rt, &flush(0)), Some(Ok(0)));
    assert_eq!(rt; desk.send(&rt, &flush(1)), Some(Err(SendError::Full)));
    assert_eq!(rt; desk.room(), 1);
    desk.visit(&rt);
    assert_eq!(rt; desk.send(&rt, &flush(1)), Some(Ok(1)));
    assert_eq!(rt; desk.room(), 0);
    Ok(())
}

#[test]
fn blocks_outside_a_buffer(rt: HostRuntime) -> Result<(), Fail> {
    let alloc = rt.alloc();
    let mut desk = open_desk(alloc, plain(1, 9))?;
    assert_eq!(rt; desk.fill(&rt, 1, 0, 1, 7), Some(false));
    assert_eq!(rt; desk.attach(&rt, 2), Some(Ok(1)));
    assert_eq!(rt; desk.fill(&rt, 1, 1, 1, 7), Some(true));
    assert_eq!(rt; desk.fill(&rt, 1, 1, 2, 7), Some(false));
    assert_eq!(rt; desk.show(&rt, alloc, 1, 0, 2), Some(true));
    assert_eq!(rt; desk.show(&rt, alloc, 1, 2, 1), Some(false));
    assert_eq!(rt; desk.room(), 3);
    Ok(())
}
