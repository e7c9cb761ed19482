//! An abort with a record in flight and one held.
use super::{last, plain};
use crate::{Taken, close_desk, open_desk};
use host_model::Event;
use host_record::Finish;
use host_session::SendError;
use std::test::*;

#[test]
fn a_held_record_is_dropped(rt: HostRuntime) -> Result<(), Fail> {
    let mut desk = open_desk(rt.alloc(), plain(3, 9))?;
    assert_eq!(rt; desk.send(&rt, &last(1)), Some(Ok(0)));
    assert_eq!(rt; desk.send(&rt, &last(2)), Some(Ok(1)));
    let Taken::ToDo(task) = desk.take(&rt) else {
        return Err(Fail::new("not taken"));
    };
    let held = matches!(desk.take(&rt), Taken::Stalled);
    let finished = desk.finish(&rt, Finish::Abort);
    let open = !desk.close(&rt);
    let refused = desk.send(&rt, &last(3)) == Some(Err(SendError::Closed));
    desk.land(&rt, task);
    assert!(rt; held && finished && open && refused);
    assert!(rt; desk.receive(&rt).is_none());
    assert!(rt; matches!(desk.take(&rt), Taken::Over));
    let closed = desk.close(&rt);
    assert!(rt; closed);
    if closed {
        let (log, rows, _history) = close_desk(rt.alloc(), desk)?.ok_or("logs")?;
        assert!(rt;
            matches!(
                log.as_slice(),
                [Event::Sent { .. }, Event::Sent { .. }, Event::Aborted]
            )
        );
        assert_eq!(rt; rows.len(), 1);
    }
    Ok(())
}
