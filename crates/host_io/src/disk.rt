// A disk of blocks.
ghost use Rattle.std.specs.Prelude.{◌≡◌, ◌<◌, ℕ, Bool, List, length, IsTrue, IsErrOf};
ghost use Rattle.host_block.specs.Disk.{DiskState, read, write, sync, Leads, IsOfSize};
ghost use Rattle.host_io.specs.Disks.{Shape, Calls, read_counted, write_counted, sync_counted};
ghost use Rattle.host_io.specs.Disks.{call_outcome, Attaches, Reads};
ghost use Rattle.host_io.specs.declared.counts.Counts.{Counts};
ghost use Rattle.host_io.specs.declared.disk.DiskError.TheVariants.{Oom};

use host_block::BlockSize;
use thiserror::Error;

#[derive(Clone, Copy, Debug, PartialEq, Eq, Error)]
pub enum DiskError {
    /// The disk failed, and its count of faults rose.
    #[error("the disk failed")]
    Failed,
    /// Memory was refused.
    #[error("out of memory")]
    Oom,
}

pub trait Disk {
    /// Whether it tells its content, whether an image is attached and may be written, how many
    /// blocks it has, and of what size.
    ghost shape: { Self → Shape };

    /// How often it has failed, and how many reads, writes and syncs were called.
    ghost counts: { Self → Counts };

    /// Its durable blocks and pending writes, where it tells.
    ghost state: { Self → DiskState };

    /// The bytes that it was made with. A disk that tells none has the empty list.
    ghost opening: { Self → List ℕ };

    /// The blocks that an attach under this name and at this size gives, where it tells. No read
    /// changes them, and no call that was refused memory.
    ghost image_named: { Self → List ℕ → ℕ → List (List ℕ) };

    /// Whether no call of it ever fails.
    ghost never_fails: { Self → Bool };

    /// Attaches the image of this name, to be written or to be read alone, and gives its number of
    /// blocks. After an error it has to be attached again before any other call.
    fn attach_image(&mut self, name: &str, size: BlockSize, writes: bool) -> Result<u64, DiskError>
        ensures attaches { Attaches size writes (image_named self.old name.now size)
            (shape self.old) (shape self.new) (state self.new) result }
        ensures opening { opening self.new ≡ opening self.old }
        ensures named { IsErrOf result Oom → image_named self.new ≡ image_named self.old }
        ensures calls { Calls (counts self.old) (counts self.old) (counts self.new)
            (never_fails self.old) (never_fails self.new) result };

    /// Reads block `b`. Where it fails, `into` may hold anything.
    fn read_block(&mut self, b: u64, into: &mut [u8]) -> Result<(), DiskError>
        requires block { b < (shape self.old).blocks }
        requires piece { length into.old ≡ (shape self.old).size }
        ensures shape { shape self.new ≡ shape self.old }
        ensures state { state self.new ≡ state self.old }
        ensures opening { opening self.new ≡ opening self.old }
        ensures bytes { Reads (shape self.old).tells (state self.old) b into.new result }
        ensures named { image_named self.new ≡ image_named self.old }
        ensures calls { Calls (counts self.old) (read_counted (counts self.old)) (counts self.new)
            (never_fails self.old) (never_fails self.new) result };

    /// Writes block `b`, which a sync makes durable.
    fn write_block(&mut self, b: u64, from: &[u8]) -> Result<(), DiskError>
        requires block { b < (shape self.old).blocks }
        requires piece { length from.now ≡ (shape self.old).size }
        ensures shape { shape self.new ≡ shape self.old }
        ensures state { IsTrue (shape self.old).tells
            → Leads (write b from.now (call_outcome result)) (state self.old) (state self.new) }
        ensures opening { opening self.new ≡ opening self.old }
        ensures named { IsErrOf result Oom → image_named self.new ≡ image_named self.old }
        ensures calls { Calls (counts self.old) (write_counted (counts self.old)) (counts self.new)
            (never_fails self.old) (never_fails self.new) result };

    /// Makes the pending writes durable.
    fn sync(&mut self) -> Result<(), DiskError>
        ensures shape { shape self.new ≡ shape self.old }
        ensures state { IsTrue (shape self.old).tells
            → Leads (sync (call_outcome result)) (state self.old) (state self.new) }
        ensures opening { opening self.new ≡ opening self.old }
        ensures named { IsErrOf result Oom → image_named self.new ≡ image_named self.old }
        ensures calls { Calls (counts self.old) (sync_counted (counts self.old)) (counts self.new)
            (never_fails self.old) (never_fails self.new) result };

    /// The state of a disk that tells has its number and size of blocks.
    ghost of_size: { (d : Self) → IsTrue (shape d).tells
        → IsOfSize (shape d).blocks (shape d).size (state d) };
}
