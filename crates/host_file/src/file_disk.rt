//! A file as a disk.

ghost use Rattle.std.specs.Prelude.{◌≡◌, ◌*◌, ◌^◌, ◌<◌};

use crate::{OpenError, RawFile};
use host_block::BlockSize;
use host_io::{Counts, Disk, DiskError};

/// A disk whose images are files, which takes a name as a path and tells nothing of their content.
/// After a sync that failed, what was written before may be lost though a later sync of the system
/// is answered well; so each sync fails then, until an image is attached.
#[derive(Drop)]
pub struct FileDisk<F> {
    raw: F,
    attached: bool,
    writes: bool,
    held: bool,
    lost: bool,
    bytes: u64,
    blocks: u64,
    size: u32,
    counts: Counts,
    ghost within: { blocks * size < 2 ^ 64 },
}

impl<F: RawFile> FileDisk<F> {
    ghost use Rattle.host_file.specs.FileDisks.{IsFileDiskMadeOf, is_held};

    /// A disk to which no image is attached.
    pub fn new(raw: F) -> FileDisk<F>
        ensures { IsFileDiskMadeOf raw result }
    {
        FileDisk {
            raw,
            attached: false,
            writes: false,
            held: false,
            lost: false,
            bytes: 0,
            blocks: 0,
            size: 0,
            counts: Counts {
                faults: 0,
                reads: 0,
                writes: 0,
                syncs: 0,
            },
        }
    }

    /// Whether the last attach failed because another program has the image.
    pub fn is_held(&self) -> bool
        ensures { result ≡ is_held self.now }
    {
        self.held
    }
}

impl<F: RawFile> FileDisk<F> {
    ghost use Rattle.std.specs.Prelude.{◌+◌, ◌≤◌, length};
    ghost use Rattle.std.specs.Bool.{OnTrue, OnFalse};
    ghost use Rattle.host_file.specs.FileDisks.{HasBytesFor, HasNoRoom};

    // Whether the file still has the bytes of a block at this place, so that a write of it doesn't
    // make it grow.
    fn has_room(&self, place: u64) -> bool
        ensures yes { OnTrue result (HasBytesFor F.measures self.now place) }
        ensures no { OnFalse result (HasNoRoom F.measures self.now place) }
    {
        match self.raw.length() {
            None => false,
            Some(bytes) => place <= bytes && u64::from(self.size) <= bytes - place,
        }
    }
}

impl<F: RawFile> Disk for FileDisk<F> {
    ghost use Rattle.std.specs.Prelude.{◌≡◌, ◌*◌, ◌<◌, false, [], length};
    ghost use Rattle.host_io.specs.Causes.{faults_after};
    ghost use Rattle.host_io.specs.Disks.{Calls, read_counted, write_counted, sync_counted};
    ghost use Rattle.host_io.specs.Disks.{Attaches};
    ghost use Rattle.host_file.specs.FileDisks.{file_shape, file_counts, file_state, OpensFile};
    ghost use Rattle.host_file.specs.FileDisks.{TakesFileBlock, PutsFileBlock, SyncsFile};
    ghost use Rattle.host_file.specs.FileDisks.{IsLatchKept};
    ghost use Rattle.host_file.specs.Untold.{untold};

    ghost shape = { λ d. file_shape d };

    ghost counts = { λ d. file_counts d };

    ghost state = { λ d. file_state d };

    ghost opening = { λ d. [] };

    ghost image_named = { λ d name size. [] };

    ghost never_fails = { λ d. false };

    ghost of_size = { λ d told. untold told };

    fn attach_image(&mut self, name: &str, size: BlockSize, writes: bool) -> Result<u64, DiskError>
        ensures attaches { Attaches size writes [] (file_shape self.old) (file_shape self.new)
            (file_state self.new) result }
        ensures calls { Calls (file_counts self.old) (file_counts self.old) (file_counts self.new)
            false false result }
        // What no disk owes but this one.
        ensures faults { (file_counts self.new).faults
            ≡ faults_after result (file_counts self.old).faults }
        ensures opens { OpensFile F.opens self.old self.new name.now size writes result }
    {
        self.attached = false;
        self.writes = false;
        self.held = false;
        match self.raw.open(name, writes) {
            Ok(bytes) => self.bytes = bytes,
            Err(error) => {
                self.held = error == OpenError::Held;
                return Err(failed(&mut self.counts));
            }
        }
        self.attached = true;
        self.writes = writes;
        self.lost = false;
        self.size = size.bytes();
        self.blocks = self.bytes / u64::from(self.size);
        Ok(self.blocks)
    }

    fn read_block(&mut self, b: u64, into: &mut [u8]) -> Result<(), DiskError>
        requires block { b < (file_shape self.old).blocks }
        requires piece { length into.old ≡ (file_shape self.old).size }
        ensures shape { file_shape self.new ≡ file_shape self.old }
        ensures calls { Calls (file_counts self.old) (read_counted (file_counts self.old))
            (file_counts self.new) false false result }
        // What no disk owes but this one.
        ensures faults { (file_counts self.new).faults
            ≡ faults_after result (file_counts self.old).faults }
        ensures latch { IsLatchKept self.old self.new }
        ensures takes { TakesFileBlock F.reads self.old self.new b into.new result }
    {
        self.counts.reads = self.counts.reads.saturating_add(1);
        let place = b * u64::from(self.size);
        if self.attached && self.raw.read_at(place, into).is_ok() {
            return Ok(());
        }
        Err(failed(&mut self.counts))
    }

    fn write_block(&mut self, b: u64, from: &[u8]) -> Result<(), DiskError>
        requires block { b < (file_shape self.old).blocks }
        requires piece { length from.now ≡ (file_shape self.old).size }
        ensures shape { file_shape self.new ≡ file_shape self.old }
        ensures calls { Calls (file_counts self.old) (write_counted (file_counts self.old))
            (file_counts self.new) false false result }
        // What no disk owes but this one.
        ensures faults { (file_counts self.new).faults
            ≡ faults_after result (file_counts self.old).faults }
        ensures latch { IsLatchKept self.old self.new }
        ensures puts { PutsFileBlock F.measures F.puts self.old self.new b from.now result }
    {
        self.counts.writes = self.counts.writes.saturating_add(1);
        let place = b * u64::from(self.size);
        if self.writes && self.has_room(place) && self.raw.write_at(place, from).is_ok() {
            return Ok(());
        }
        Err(failed(&mut self.counts))
    }

    fn sync(&mut self) -> Result<(), DiskError>
        ensures shape { file_shape self.new ≡ file_shape self.old }
        ensures calls { Calls (file_counts self.old) (sync_counted (file_counts self.old))
            (file_counts self.new) false false result }
        // What no disk owes but this one.
        ensures faults { (file_counts self.new).faults
            ≡ faults_after result (file_counts self.old).faults }
        ensures syncs { SyncsFile F.syncs self.old self.new result }
    {
        self.counts.syncs = self.counts.syncs.saturating_add(1);
        if self.writes && !self.lost && self.raw.sync().is_ok() {
            return Ok(());
        }
        self.lost = true;
        Err(failed(&mut self.counts))
    }
}

ghost use Rattle.host_io.specs.Causes.{next_count};
ghost use Rattle.host_io.specs.declared.disk.DiskError.TheVariants.{Failed};

// Counts a failure.
fn failed(counts: &mut Counts) -> DiskError
    ensures error { result ≡ Failed }
    ensures counted { counts.new ≡ record counts.old { faults = next_count counts.old.faults } }
{
    counts.faults = counts.faults.saturating_add(1);
    DiskError::Failed
}
