//! A round of calls of a disk of two blocks.
ghost use Rattle.std.specs.Prelude.{◌≡◌, ◌<◌};

use host_block::BlockSize;
use host_io::Disk;

/// Which of the calls of a round were answered well. Without an image nothing is written and read.
#[derive(Clone, Copy, Debug, PartialEq, Eq)]
pub struct Answers {
    pub attach: bool,
    pub write: bool,
    pub read: bool,
    pub sync: bool,
    pub sync_again: bool,
}

/// Attaches an image of two blocks, writes block 1, reads it again, and syncs twice.
pub fn call_round<D: Disk>(disk: &mut D, name: &str, size: BlockSize, writes: bool) -> Answers
    requires size { size ≡ 512 }
{
    let (attach, write, read) = match disk.attach_image(name, size, writes) {
        Ok(2) => {
            let write = disk.write_block(1, &[1; 512]).is_ok();
            (true, write, reads(disk, 2))
        }
        _ => (false, false, false),
    };
    Answers {
        attach,
        write,
        read,
        sync: disk.sync().is_ok(),
        sync_again: disk.sync().is_ok(),
    }
}

// Reads block 1.
fn reads<D: Disk>(disk: &mut D, blocks: u64) -> bool
    requires blocks { blocks ≡ (D.shape disk.old).blocks }
    requires two { 1 < blocks }
    requires size { (D.shape disk.old).size ≡ 512 }
{
    disk.read_block(1, &mut [0; 512]).is_ok()
}
