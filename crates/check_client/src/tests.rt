mod build;
mod cases;
mod edit;
mod groups;
mod lists;
mod plans;
mod transfers;

use build::report;
use cases::{BASE, CASES, Part};
use host_check::{RunParts, SessionParts, blocks_of, is_lawful_image, run_parts, session_parts};
use host_gpt::{Which, sample};
use plans::plans;
use played_check::{Ask, is_played};
use std::test::Fail;

// The parts of a session, where only this one is broken.
fn parts_without(broken: Option<Part>) -> SessionParts {
    SessionParts {
        taken: true,
        carried: broken != Some(Part::Carried),
        answered: broken != Some(Part::Answered),
        buffers: broken != Some(Part::Buffers),
        ordered: broken != Some(Part::Ordered),
    }
}

// The parts of a run, where only this one is broken, or that of a session.
fn run_without(broken: Option<Part>) -> RunParts {
    RunParts {
        numbers: true,
        sessions: parts_without(broken).are_whole(),
        closing: broken != Some(Part::Closing),
        legal: broken != Some(Part::Legal),
        frames: true,
        home: broken != Some(Part::Home),
    }
}

#[test]
fn each_change_breaks_its_part(rt: HostRuntime) -> Result<(), Fail> {
    let alloc = rt.alloc();
    let bytes = sample::base_image(alloc)?;
    for case in &CASES {
        let report = report(alloc, case)?;
        let image = blocks_of(alloc, bytes.as_slice(), report.size)?;
        assert_eq!(rt;
            run_parts(alloc, &image, &report)?,
            run_without(case.broken),
            "{}",
            case.what
        );
        for session in report.sessions.as_slice() {
            let broken = if session.number == case.session {
                case.broken
            } else {
                None
            };
            let parts = session_parts(alloc, &report, session)?;
            assert_eq!(rt;
                parts,
                parts_without(broken),
                "{} in {}",
                case.what,
                session.number
            );
        }
    }
    Ok(())
}

#[test]
fn the_base_report_is_of_the_base_image(rt: HostRuntime) -> Result<(), Fail> {
    let alloc = rt.alloc();
    let bytes = sample::base_image(alloc)?;
    let mut report = report(alloc, &BASE)?;
    assert!(rt; is_lawful_image(alloc, bytes.as_slice(), &report)?);
    assert!(rt; !is_lawful_image(alloc, &[], &report)?);
    report.which = Which::Backup;
    assert!(rt; !is_lawful_image(alloc, bytes.as_slice(), &report)?);
    Ok(())
}

#[test]
fn the_base_report_played_what_it_tells(rt: HostRuntime) -> Result<(), Fail> {
    let alloc = rt.alloc();
    let report = report(alloc, &BASE)?;
    let early = Ask::WaitFor { total: 1 };
    let unplayed = Ask::Attach { pages: 8 };
    assert!(rt; is_played(alloc, &plans(alloc, None)?, &report)?);
    assert!(rt; is_played(alloc, &plans(alloc, Some(Ask::WaitAll))?, &report)?);
    assert!(rt; !is_played(alloc, &plans(alloc, Some(early))?, &report)?);
    assert!(rt; !is_played(alloc, &plans(alloc, Some(unplayed))?, &report)?);
    Ok(())
}
