//! Rings of one element, by hand.
use super::{answer, flush, plain};
use crate::{Desk, Sizes, Visit, open_desk};
use host_session::SendError;
use std::sync::Wait;
use std::test::*;

#[test]
fn an_answer_is_kept_and_handed_on(rt: HostRuntime) -> Result<(), Fail> {
    let sizes = Sizes {
        depth: 1,
        ..plain(2, 9)
    };
    let mut desk = open_desk(rt.alloc(), sizes)?;
    assert_eq!(rt; desk.send(&rt, &flush(10)), Some(Ok(0)));
    assert_eq!(rt; desk.visit(&rt), Visit::Did);
    assert_eq!(rt; desk.send(&rt, &flush(11)), Some(Ok(1)));
    assert_eq!(rt; desk.visit(&rt), Visit::Did);
    assert_eq!(rt; desk.visit(&rt), Visit::Idle);
    assert_eq!(rt; answer(&rt, &mut desk), Some((0, 10)));
    assert_eq!(rt; answer(&rt, &mut desk), None);
    assert_eq!(rt; desk.visit(&rt), Visit::Did);
    assert_eq!(rt; answer(&rt, &mut desk), Some((0, 11)));
    Ok(())
}

// Sends so many flushes through a ring of one element, and tells how many were answered in order.
fn send_all<R: Wait>(rt: &R, desk: &mut Desk, count: u32) -> u32 {
    let mut answered = 0u32;
    for n in 0..count {
        if desk.send(rt, &flush(n)) == Some(Err(SendError::Full)) {
            desk.visit(rt);
            if answer(rt, desk) == Some((0, answered)) {
                answered = answered.saturating_add(1);
            }
            if desk.send(rt, &flush(n)) != Some(Ok(n)) {
                return answered;
            }
        }
    }
    answered
}

#[test]
fn a_hundred_through_one(rt: HostRuntime) -> Result<(), Fail> {
    let sizes = Sizes {
        depth: 1,
        ..plain(100, 300)
    };
    let mut desk = open_desk(rt.alloc(), sizes)?;
    assert_eq!(rt; send_all(&rt, &mut desk, 100), 99);
    desk.visit(&rt);
    assert_eq!(rt; answer(&rt, &mut desk), Some((0, 99)));
    Ok(())
}
