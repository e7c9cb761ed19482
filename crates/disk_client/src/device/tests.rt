ghost use Rattle.std.specs.Prelude.{◌≡◌, ◌<◌};
ghost use Rattle.host_device.specs.Seen.{shape_of};

mod crash_judge;
mod crashes;
mod hand;
mod open;
mod pair;
mod random_steps;
mod under_turn;

use host_block::{BlockSize, Op};
use host_device::{Device, Step, StepError};
use host_io::{CallKind, Counts, Disk, FailAt, MemDisk};
use open::{make_step, open_device};
use pair::run_pair;
use std::alloc::Global;
use std::test::Fail;

// Writes a block that is made of one byte.
fn write_fill<D: Disk>(
    alloc: Global,
    device: &mut Device<D>,
    b: u64,
    byte: u8,
) -> Result<(), StepError>
    requires block { b < (shape_of device.old).blocks }
    requires size { (shape_of device.old).size ≡ 512 }
    ensures { shape_of device.new ≡ shape_of device.old }
{
    let mut from = [byte; 512];
    make_step(alloc, device, 0, Op::Write, b, &mut from)
}

// The first byte of a block.
fn first_of<D: Disk>(alloc: Global, device: &mut Device<D>, b: u64) -> Option<u8>
    requires block { b < (shape_of device.old).blocks }
    requires size { (shape_of device.old).size ≡ 512 }
    ensures { shape_of device.new ≡ shape_of device.old }
{
    let mut into = [0u8; 512];
    match make_step(alloc, device, 0, Op::Read, b, &mut into) {
        Ok(()) => Some(into[0]),
        Err(_) => None,
    }
}

fn flush<D: Disk>(alloc: Global, device: &mut Device<D>) -> Result<(), StepError>
    ensures { shape_of device.new ≡ shape_of device.old }
{
    let mut none = [0u8; 0];
    make_step(alloc, device, 0, Op::Flush, 0, &mut none)
}

// The first byte of a block on the disk itself.
fn first_on<D: Disk>(disk: &mut D, b: u64) -> Option<u8>
    requires block { b < (D.shape disk.old).blocks }
    requires size { (D.shape disk.old).size ≡ 512 }
    ensures { D.shape disk.new ≡ D.shape disk.old }
{
    let mut into = [0u8; 512];
    match disk.read_block(b, &mut into) {
        Ok(()) => Some(into[0]),
        Err(_) => None,
    }
}

#[test]
fn a_crash_keeps_the_flushed_write(rt: HostRuntime) -> Result<(), Fail> {
    let alloc = rt.alloc();
    let size = BlockSize::new(512).ok_or("size")?;
    assert_eq!(rt; size.bytes(), 512);
    let disk = MemDisk::new(alloc, vec![in alloc; 99u8; 32768]?, Vec::new(alloc));
    let (mut device, blocks) = open_device(alloc, disk, size, 1).ok_or("device")?;
    assert_eq!(rt; blocks, 64);
    assert_eq!(rt; device.spare(), 1);
    assert!(rt; write_fill(alloc, &mut device, 34, 0xb1).is_ok());
    assert!(rt; flush(alloc, &mut device).is_ok());
    assert!(rt; write_fill(alloc, &mut device, 34, 0xb2).is_ok());
    let (steps, cache) = device.into_parts();
    let steps = steps.into_list().ok_or("steps")?;
    assert_eq!(rt; steps.len(), 3);
    assert!(rt; steps.as_slice().iter().all(|step| !step.faulted));
    let mut left = cache.into_disk().crash(&[])?;
    let Ok(64) = left.attach_image("any", size, true) else {
        return Err(Fail::from("attach"));
    };
    assert_eq!(rt; first_on(&mut left, 34), Some(0xb1));
    Ok(())
}

#[test]
fn a_write_fails_inside_a_flush(rt: HostRuntime) -> Result<(), Fail> {
    let alloc = rt.alloc();
    let size = BlockSize::new(512).ok_or("size")?;
    assert_eq!(rt; size.bytes(), 512);
    let fails = vec![in alloc;
        FailAt {
            kind: CallKind::Write,
            nr: 3,
            part: 0
        },
    ]?;
    let disk = MemDisk::new(alloc, vec![in alloc; 99u8; 32768]?, fails);
    let (mut device, blocks) = open_device(alloc, disk, size, 0).ok_or("device")?;
    assert_eq!(rt; blocks, 64);
    assert!(rt; write_fill(alloc, &mut device, 34, 0xc1).is_ok());
    assert!(rt; write_fill(alloc, &mut device, 35, 0xc1).is_ok());
    assert!(rt; write_fill(alloc, &mut device, 36, 0xc1).is_ok());
    assert!(rt; write_fill(alloc, &mut device, 37, 0xc1).is_ok());
    assert_eq!(rt; flush(alloc, &mut device), Err(StepError::Fault));
    assert_eq!(rt; first_of(alloc, &mut device, 34), Some(0xc1));
    assert_eq!(rt; first_of(alloc, &mut device, 35), Some(0xc1));
    assert_eq!(rt; first_of(alloc, &mut device, 36), Some(0xc1));
    assert_eq!(rt; first_of(alloc, &mut device, 37), Some(0xc1));
    assert!(rt; flush(alloc, &mut device).is_ok());
    let (steps, cache) = device.into_parts();
    let steps = steps.into_list().ok_or("steps")?;
    assert_eq!(rt; steps.len(), 10);
    assert_eq!(rt;
        cache.into_disk().counts(),
        Counts {
            faults: 1,
            reads: 0,
            writes: 5,
            syncs: 1
        }
    );
    Ok(())
}

// Whether each read gave the first byte that the last write before it put there.
fn reads_are_last(steps: &[Step]) -> bool {
    let mut last = [99u8; 64];
    for step in steps {
        let Some(byte) = last.get_mut((step.block % 64) as usize) else {
            return false;
        };
        let Some(first) = step.bytes.as_slice().first() else {
            return false;
        };
        match step.op {
            Op::Write => *byte = *first,
            _ => {
                if *first != *byte {
                    return false;
                }
            }
        }
    }
    true
}

#[test]
fn a_device_behind_a_lock(rt: HostRuntime) -> Result<(), Fail> {
    let alloc = rt.alloc();
    let size = BlockSize::new(512).ok_or("size")?;
    assert_eq!(rt; size.bytes(), 512);
    let disk = MemDisk::new(alloc, vec![in alloc; 99u8; 32768]?, Vec::new(alloc));
    let (device, blocks) = open_device(alloc, disk, size, 800).ok_or("device")?;
    assert_eq!(rt; blocks, 64);
    let device = run_pair(&rt, alloc, device, 25)?;
    let (steps, _cache) = device.into_parts();
    let steps = steps.into_list().ok_or("steps")?;
    assert_eq!(rt; steps.len(), 800);
    assert_eq!(rt;
        steps
            .as_slice()
            .iter()
            .filter(|step| step.hand == 1)
            .count(),
        400
    );
    assert!(rt; reads_are_last(steps.as_slice()));
    Ok(())
}

#[test]
fn errors_are_printed(rt: HostRuntime) -> Result<(), Fail> {
    let text = format!(in rt.alloc(); "{}; {}", StepError::Fault, StepError::Oom)?;
    assert_eq!(rt; text.as_str(), "the disk failed; out of memory");
    Ok(())
}
