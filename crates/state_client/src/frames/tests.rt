mod pool;

use crate::frames::{Done, Job, work_together};
use host_block::BlockSize;
use std::test::*;

#[test]
fn four_threads_share_a_pool(rt: HostRuntime) -> Result<(), Fail> {
    let size = BlockSize::new(512).ok_or("size")?;
    let job = Job {
        frames: 12,
        size,
        pages: 4,
        rounds: 100_000,
    };
    let done = work_together(&rt, rt.alloc(), job);
    assert!(rt;
        done == Ok(Done {
            well: true,
            home: 12
        })
    );
    Ok(())
}
