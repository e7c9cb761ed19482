use crate::file::{Answers, call_round};
use host_block::BlockSize;
use host_file::{FileDisk, RealFile};
use host_io::{Disk, DiskError};
use std::test::Fail;
use std::{fs, process};

#[test]
fn a_real_file(rt: HostRuntime) -> Result<(), Fail> {
    let alloc = rt.alloc();
    let id = process::id(rt.process());
    let name = format!(in alloc; "/tmp/blockhost-{id}.img")?;
    let size = BlockSize::new(512).ok_or("size")?;
    assert_eq!(rt; size.bytes(), 512);
    let mut disk = FileDisk::new(RealFile::new(rt.clone()?));
    for bytes in [0, 511] {
        fs::write(&rt, &name, vec![in alloc; 7u8; bytes]?.as_slice())?;
        assert!(rt; disk.attach_image(&name, size, true) == Ok(0));
    }
    fs::write(&rt, &name, vec![in alloc; 7u8; 1030]?.as_slice())?;
    for writes in [true, false] {
        let answers = Answers {
            attach: true,
            write: writes,
            read: true,
            sync: writes,
            sync_again: writes,
        };
        assert_eq!(rt; call_round(&mut disk, &name, size, writes), answers);
    }
    let mut image = vec![in alloc; 7u8; 1030]?;
    image[512..1024].fill(1);
    assert!(rt; fs::read(&rt, &name)?.as_slice() == image.as_slice());
    fs::remove_file(&rt, &name)?;
    Ok(())
}

#[test]
fn one_writer_at_a_time(rt: HostRuntime) -> Result<(), Fail> {
    let alloc = rt.alloc();
    let id = process::id(rt.process());
    let name = format!(in alloc; "/tmp/blockhost-{id}-held.img")?;
    let size = BlockSize::new(512).ok_or("size")?;
    fs::write(&rt, &name, vec![in alloc; 7u8; 1024]?.as_slice())?;
    let mut first = FileDisk::new(RealFile::new(rt.clone()?));
    let mut second = FileDisk::new(RealFile::new(rt.clone()?));
    for (one, other) in [(true, true), (true, false), (false, true), (false, false)] {
        let shared = !one && !other;
        assert!(rt; first.attach_image(&name, size, one) == Ok(2));
        let answer = if shared {
            Ok(2)
        } else {
            Err(DiskError::Failed)
        };
        assert!(rt; second.attach_image(&name, size, other) == answer);
        assert_eq!(rt; second.is_held(), !shared);
    }
    fs::remove_file(&rt, &name)?;
    Ok(())
}

#[test]
fn no_file(rt: HostRuntime) -> Result<(), Fail> {
    let size = BlockSize::new(512).ok_or("size")?;
    let mut disk = FileDisk::new(RealFile::new(rt.clone()?));
    for name in ["/", "/no/such/image", ""] {
        assert!(rt; disk.attach_image(name, size, false) == Err(DiskError::Failed));
        assert!(rt; !disk.is_held());
    }
    Ok(())
}
