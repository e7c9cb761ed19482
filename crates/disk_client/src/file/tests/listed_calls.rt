use crate::file::{Answers, Call, ListedFile, call_round};
use host_block::BlockSize;
use host_file::{FileDisk, OpenError};
use std::test::Fail;

// The answers of a round, in the order of its calls.
fn answered(good: [bool; 5]) -> Answers {
    let [attach, write, read, sync, sync_again] = good;
    Answers {
        attach,
        write,
        read,
        sync,
        sync_again,
    }
}

const ALL: [bool; 5] = [true; 5];

const NONE: [bool; 5] = [false; 5];

// The calls that fail, and what two rounds answer.
const CASES: [(&[Call], [bool; 5], [bool; 5]); 8] = [
    (&[], ALL, ALL),
    (&[Call::Open(1)], NONE, ALL),
    (&[Call::Open(2)], ALL, NONE),
    (&[Call::Write(1)], [true, false, true, true, true], ALL),
    (&[Call::Read(1)], [true, true, false, true, true], ALL),
    (&[Call::Sync(1)], [true, true, true, false, false], ALL),
    (&[Call::Sync(2)], [true, true, true, true, false], ALL),
    (
        &[Call::Sync(1), Call::Open(2)],
        [true, true, true, false, false],
        NONE,
    ),
];

#[test]
fn calls_that_fail(rt: HostRuntime) -> Result<(), Fail> {
    let size = BlockSize::new(512).ok_or("size")?;
    assert_eq!(rt; size.bytes(), 512);
    for (fails, first, second) in CASES {
        let raw = ListedFile::new(fails, OpenError::Failed, 1024, Some(1024));
        let mut disk = FileDisk::new(raw);
        assert_eq!(rt; call_round(&mut disk, "image", size, true), answered(first));
        assert_eq!(rt;
            call_round(&mut disk, "image", size, true),
            answered(second)
        );
    }
    Ok(())
}

#[test]
fn a_file_that_cannot_be_written(rt: HostRuntime) -> Result<(), Fail> {
    let size = BlockSize::new(512).ok_or("size")?;
    assert_eq!(rt; size.bytes(), 512);
    let read = answered([true, false, true, false, false]);
    let mut disk = FileDisk::new(ListedFile::new(&[], OpenError::Failed, 1024, Some(1024)));
    assert_eq!(rt; call_round(&mut disk, "image", size, false), read);
    // It has become shorter, or tells no length any more.
    let unwritten = answered([true, false, true, true, true]);
    for present in [Some(1023), Some(0), None] {
        let mut disk = FileDisk::new(ListedFile::new(&[], OpenError::Failed, 1024, present));
        assert_eq!(rt; call_round(&mut disk, "image", size, true), unwritten);
    }
    Ok(())
}

#[test]
fn an_image_that_is_held(rt: HostRuntime) -> Result<(), Fail> {
    let size = BlockSize::new(512).ok_or("size")?;
    assert_eq!(rt; size.bytes(), 512);
    for (refusal, held) in [(OpenError::Held, true), (OpenError::Failed, false)] {
        let raw = ListedFile::new(&[Call::Open(1)], refusal, 1024, Some(1024));
        let mut disk = FileDisk::new(raw);
        assert_eq!(rt; call_round(&mut disk, "image", size, true), answered(NONE));
        assert_eq!(rt; disk.is_held(), held);
        assert_eq!(rt; call_round(&mut disk, "image", size, true), answered(ALL));
        assert!(rt; !disk.is_held());
    }
    Ok(())
}
