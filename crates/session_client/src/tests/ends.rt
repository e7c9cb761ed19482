//! What keeps a session open.
use super::{answer, flush, plain, read};
use crate::{Visit, open_desk};
use host_record::Finish;
use std::test::*;

#[test]
fn a_drain_waits_for_answers(rt: HostRuntime) -> Result<(), Fail> {
    let mut desk = open_desk(rt.alloc(), plain(1, 9))?;
    assert!(rt; !desk.close(&rt));
    assert_eq!(rt; desk.send(&rt, &flush(1)), Some(Ok(0)));
    assert!(rt; desk.finish(&rt, Finish::Drain));
    assert!(rt; !desk.close(&rt));
    assert_eq!(rt; desk.visit(&rt), Visit::Did);
    assert!(rt; !desk.close(&rt));
    assert_eq!(rt; answer(&rt, &mut desk), Some((0, 1)));
    assert!(rt; desk.close(&rt));
    assert!(rt; desk.close(&rt));
    assert_eq!(rt; desk.visit(&rt), Visit::Over);
    Ok(())
}

// The hands here never let go of a buffer.
#[test]
fn a_pin_keeps_it_open(rt: HostRuntime) -> Result<(), Fail> {
    let mut desk = open_desk(rt.alloc(), plain(1, 9))?;
    assert_eq!(rt; desk.attach(&rt, 1), Some(Ok(1)));
    assert_eq!(rt; desk.send(&rt, &read(1, 1)), Some(Ok(0)));
    assert_eq!(rt; desk.visit(&rt), Visit::Did);
    assert!(rt; desk.finish(&rt, Finish::Abort));
    assert!(rt; !desk.close(&rt));
    Ok(())
}
