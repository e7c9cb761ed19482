use super::reader::{Answer, answer_of};
use host_gpt::sample::base_image;
use host_gpt::{TableError, Which};
use host_io::{CallKind, FailAt};
use std::test::Fail;

const HEADER: usize = 512;

const ARRAY: usize = 1_024;

const BACKUP_ARRAY: usize = 95 * 512;

const BACKUP_HEADER: usize = 127 * 512;

// The base image with one bit flipped in each of these bytes.
#[test]
fn flipped_bits(rt: HostRuntime) -> Result<(), Fail> {
    let alloc = rt.alloc();
    let image = base_image(alloc).ok().ok_or("memory")?;
    let backup = Answer::Table(Which::Backup);
    let absent = Answer::Error(TableError::NoTable);
    for (first, second, answer) in [
        (HEADER + 16, 0, backup),
        (HEADER + 40, 0, backup),
        (ARRAY + 16_383, 0, backup),
        (
            HEADER + 93,
            BACKUP_HEADER + 40,
            Answer::Table(Which::Primary),
        ),
        (HEADER + 40, BACKUP_HEADER + 91, absent),
        (ARRAY + 5, BACKUP_ARRAY + 5, absent),
        (ARRAY + 5, BACKUP_HEADER, absent),
    ] {
        let mut bytes = image.as_slice().to_vec(alloc)?;
        for at in [first, second] {
            if let Some(byte) = bytes.get_mut(at) {
                *byte ^= 1;
            }
        }
        assert_eq!(rt;
            answer_of(alloc, bytes, 512, Vec::new(alloc)),
            answer,
            "at {first}"
        );
    }
    Ok(())
}

// A disk that fails is told as such, whatever its image has.
#[test]
fn failing_reads(rt: HostRuntime) -> Result<(), Fail> {
    let alloc = rt.alloc();
    let image = base_image(alloc).ok().ok_or("memory")?;
    for (nr, answer) in [
        (1, Answer::Error(TableError::Disk)),
        (33, Answer::Error(TableError::Disk)),
        (34, Answer::Table(Which::Primary)),
    ] {
        let fail = FailAt {
            kind: CallKind::Read,
            nr,
            part: 0,
        };
        let fails = vec![in alloc; fail]?;
        let bytes = image.as_slice().to_vec(alloc)?;
        assert_eq!(rt; answer_of(alloc, bytes, 512, fails), answer, "at {nr}");
    }
    Ok(())
}
