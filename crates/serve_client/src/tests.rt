//! Loads that are served on a disk in memory.

use crate::serve_in_memory;
use std::test::*;

#[test]
fn an_unkept_load_is_served(rt: HostRuntime) -> Result<(), Fail> {
    let done = serve_in_memory(&rt, rt.alloc(), 100_000, false).ok_or("server")?;
    assert_eq!(rt; done.sent, 100_000);
    assert!(rt; done.report.is_none());
    Ok(())
}

#[test]
fn a_kept_load_is_reported(rt: HostRuntime) -> Result<(), Fail> {
    let done = serve_in_memory(&rt, rt.alloc(), 1_000, true).ok_or("server")?;
    let (report, _) = done.report.ok_or("report")?;
    assert_eq!(rt; report.steps.len(), 1_000);
    Ok(())
}
