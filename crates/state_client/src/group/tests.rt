mod cells;

use crate::group::{Outcomes, Round, run_rounds};
use host_group::GroupEnd;
use host_record::Status;
use std::test::*;

#[test]
fn eight_hands_settle_one_instance(rt: HostRuntime) -> Result<(), Fail> {
    let round = Round {
        members: 64,
        hands: 8,
        outcomes: Outcomes::TwoFail,
    };
    let done = run_rounds(&rt, rt.alloc(), 1, round)?;
    assert_eq!(rt; done.told, 1);
    assert_eq!(rt; done.agreed, 1);
    assert!(rt;
        done.last
            == Some(GroupEnd {
                status: Status::Io,
                count: 64,
                reqid: 163,
                index: 63,
                device_front: 1063,
                memory_front: 563,
            })
    );
    Ok(())
}

#[test]
fn a_number_is_used_10_000_times_by_four_threads(rt: HostRuntime) -> Result<(), Fail> {
    let round = Round {
        members: 8,
        hands: 4,
        outcomes: Outcomes::SomeFail,
    };
    let done = run_rounds(&rt, rt.alloc(), 10_000, round)?;
    assert_eq!(rt; done.told, 10_000);
    assert_eq!(rt; done.agreed, 10_000);
    Ok(())
}
