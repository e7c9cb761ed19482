// A disk in memory, which tells its content, and fails where it is told to.
ghost use Rattle.std.specs.Prelude.{◌≡◌, ◌≤◌, ◌*◌, ◌/◌, length, All, IsTrue};
ghost use Rattle.host_io.specs.Waiting.{IsFitting};

use crate::fails::failing_part;
use crate::flat::{Waiting, latest, pick_at, put_pick, settle, wait};
use crate::{CallKind, Counts, Disk, DiskError, FailAt};
use host_block::{BlockSize, Oom};
use std::alloc::Global;
use std::snapshot::Snapshot;

#[derive(Drop)]
pub struct MemDisk {
    alloc: Global,
    opening: Snapshot<Vec<u8>>,
    bytes: Vec<u8>,
    attached: bool,
    writable: bool,
    blocks: u64,
    size: usize,
    waiting: Vec<Waiting>,
    fails: Vec<FailAt>,
    attaches: u64,
    counts: Counts,
    ghost whole: { blocks * size ≤ length bytes.items },
    ghost fitting: { All (IsFitting blocks size) waiting.items },
    ghost counted: { IsTrue attached → blocks ≡ length bytes.items / size },
}

impl MemDisk {
    ghost use Rattle.std.specs.Prelude.{◌≡◌, ◌*◌, IsTrue, IfOk, [], drop};
    ghost use Rattle.host_block.specs.Disk.{IsPicked};
    ghost use Rattle.host_io.specs.Flat.{image_of};
    ghost use Rattle.host_io.specs.MemDisk.{opening_of, counts_of, shape_of, state_of, rest_of};
    ghost use Rattle.host_io.specs.MemDisk.{IsDiskMadeOf};

    /// A disk that holds these bytes under any name, and fails at the listed calls.
    pub fn new(alloc: Global, bytes: Vec<u8>, fails: Vec<FailAt>) -> MemDisk
        ensures { IsDiskMadeOf bytes.items fails.items result }
    {
        MemDisk {
            alloc,
            opening: Snapshot::of(&bytes),
            bytes,
            attached: false,
            writable: false,
            blocks: 0,
            size: 0,
            waiting: Vec::new(alloc),
            fails,
            attaches: 0,
            counts: Counts {
                faults: 0,
                reads: 0,
                writes: 0,
                syncs: 0,
            },
        }
    }

    pub fn counts(&self) -> Counts
        ensures { result ≡ counts_of self.now }
    {
        self.counts
    }

    /// A disk as a crash may leave it, which never fails. Block b gets its durable bytes where
    /// `picks[b]` is 0 or absent, else the bytes of that pending write to it, counted from 1, or of
    /// the last where they are fewer.
    pub fn crash(&self, picks: &[u32]) -> Result<MemDisk, Oom>
        ensures made { IfOk result (λ d. IsDiskMadeOf (opening_of d) [] d) }
        ensures rest { IfOk result (λ d.
            drop ((shape_of self.now).blocks * (shape_of self.now).size) (opening_of d)
            ≡ rest_of self.now) }
        ensures left { IsTrue (shape_of self.now).attached
            → IfOk result (λ d.
            IsPicked (state_of self.now) picks.now
            (image_of (shape_of self.now).size (opening_of d))) }
    {
        let mut bytes = match self.bytes.to_vec(self.alloc) {
            Ok(bytes) => bytes,
            Err(_) => return Err(Oom),
        };
        for b in 0..self.blocks {
            put_pick(
                &mut bytes,
                self.blocks,
                self.size,
                &self.bytes,
                &self.waiting,
                b,
                pick_at(picks, b),
            );
        }
        Ok(MemDisk::new(self.alloc, bytes, Vec::new(self.alloc)))
    }
}

impl Disk for MemDisk {
    ghost use Rattle.std.specs.Prelude.{◌≡◌, ◌<◌, true, length, OnErr, IsErrOf};
    ghost use Rattle.host_block.specs.Disk.{Leads, write, sync};
    ghost use Rattle.host_io.specs.Causes.{next_count};
    ghost use Rattle.host_io.specs.Disks.{Calls, read_counted, write_counted, sync_counted};
    ghost use Rattle.host_io.specs.Disks.{call_outcome, Attaches, Reads};
    ghost use Rattle.host_io.specs.Fails.{part_listed};
    ghost use Rattle.host_io.specs.FlatShape.{cut_of_size};
    ghost use Rattle.host_io.specs.MemDisk.{opening_of, counts_of, shape_of, state_of, image_held};
    ghost use Rattle.host_io.specs.MemDisk.{held_by, rest_of, never_fails_of, fails_of};
    ghost use Rattle.host_io.specs.MemDisk.{attaches_of, faults_counted, FailsAsListed};
    ghost use Rattle.host_io.specs.MemDisk.{WritesAsListed, SyncsAsListed};
    ghost use Rattle.host_io.specs.declared.disk.DiskError.TheVariants as error;
    ghost use Rattle.host_io.specs.declared.fails.CallKind.TheVariants as kind;

    ghost shape = { shape_of };

    ghost counts = { counts_of };

    ghost state = { state_of };

    ghost opening = { opening_of };

    ghost image_named = { image_held };

    ghost never_fails = { never_fails_of };

    ghost of_size = { λ d told.
        cut_of_size d.blocks d.size d.bytes.items d.waiting.items d.whole d.fitting };

    fn attach_image(&mut self, _name: &str, size: BlockSize, writes: bool) -> Result<u64, DiskError>
        ensures attaches { Attaches size writes (image_held self.old _name.now size)
            (shape_of self.old) (shape_of self.new) (state_of self.new) result }
        ensures opening { opening_of self.new ≡ opening_of self.old }
        ensures named { IsErrOf result error.Oom → image_held self.new ≡ image_held self.old }
        ensures calls { Calls (counts_of self.old) (counts_of self.old) (counts_of self.new)
            (never_fails_of self.old) (never_fails_of self.new) result }
        // What no disk owes but this one.
        ensures fails { FailsAsListed
            (part_listed (fails_of self.old) kind.Attach (next_count (attaches_of self.old)))
            result }
        ensures faults { (counts_of self.new).faults
            ≡ faults_counted result (counts_of self.old).faults }
        ensures listed { fails_of self.new ≡ fails_of self.old }
        ensures attempts { attaches_of self.new ≡ next_count (attaches_of self.old) }
        ensures held { held_by self.new ≡ held_by self.old }
        ensures same { OnErr result (shape_of self.new ≡ shape_of self.old) }
        ensures left { OnErr result (state_of self.new ≡ state_of self.old) }
    {
        self.attaches = self.attaches.saturating_add(1);
        if failing_part(&self.fails, CallKind::Attach, self.attaches).is_some() {
            self.counts.faults = self.counts.faults.saturating_add(1);
            return Err(DiskError::Failed);
        }
        settle(&mut self.bytes, self.blocks, self.size, &self.waiting);
        self.waiting.clear();
        self.size = size.bytes() as usize;
        self.blocks = (self.bytes.len() / self.size) as u64;
        self.attached = true;
        self.writable = writes;
        Ok(self.blocks)
    }

    fn read_block(&mut self, b: u64, into: &mut [u8]) -> Result<(), DiskError>
        requires block { b < (shape_of self.old).blocks }
        requires piece { length into.old ≡ (shape_of self.old).size }
        ensures shape { shape_of self.new ≡ shape_of self.old }
        ensures state { state_of self.new ≡ state_of self.old }
        ensures opening { opening_of self.new ≡ opening_of self.old }
        ensures bytes { Reads true (state_of self.old) b into.new result }
        ensures named { image_held self.new ≡ image_held self.old }
        ensures calls { Calls (counts_of self.old) (read_counted (counts_of self.old))
            (counts_of self.new) (never_fails_of self.old) (never_fails_of self.new) result }
        // What no disk owes but this one.
        ensures fails { FailsAsListed
            (part_listed (fails_of self.old) kind.Read (next_count (counts_of self.old).reads))
            result }
        ensures faults { (counts_of self.new).faults
            ≡ faults_counted result (counts_of self.old).faults }
        ensures listed { fails_of self.new ≡ fails_of self.old }
        ensures attempts { attaches_of self.new ≡ attaches_of self.old }
        ensures rest { rest_of self.new ≡ rest_of self.old }
    {
        self.counts.reads = self.counts.reads.saturating_add(1);
        if failing_part(&self.fails, CallKind::Read, self.counts.reads).is_some() {
            self.counts.faults = self.counts.faults.saturating_add(1);
            return Err(DiskError::Failed);
        }
        let start = b as usize * self.size;
        into.copy_from_slice(latest(&self.bytes[start..start + self.size], &self.waiting, b));
        Ok(())
    }

    fn write_block(&mut self, b: u64, from: &[u8]) -> Result<(), DiskError>
        requires block { b < (shape_of self.old).blocks }
        requires piece { length from.now ≡ (shape_of self.old).size }
        ensures shape { shape_of self.new ≡ shape_of self.old }
        ensures state { Leads (write b from.now (call_outcome result)) (state_of self.old)
            (state_of self.new) }
        ensures opening { opening_of self.new ≡ opening_of self.old }
        ensures named { IsErrOf result error.Oom → image_held self.new ≡ image_held self.old }
        ensures calls { Calls (counts_of self.old) (write_counted (counts_of self.old))
            (counts_of self.new) (never_fails_of self.old) (never_fails_of self.new) result }
        // What no disk owes but this one.
        ensures fails { WritesAsListed (part_listed (fails_of self.old) kind.Write
            (next_count (counts_of self.old).writes)) (state_of self.old) (state_of self.new) b
            from.now result }
        ensures faults { (counts_of self.new).faults
            ≡ faults_counted result (counts_of self.old).faults }
        ensures listed { fails_of self.new ≡ fails_of self.old }
        ensures attempts { attaches_of self.new ≡ attaches_of self.old }
        ensures rest { rest_of self.new ≡ rest_of self.old }
    {
        self.counts.writes = self.counts.writes.saturating_add(1);
        let fails = failing_part(&self.fails, CallKind::Write, self.counts.writes);
        if fails != Some(0) && !wait(self.alloc, &mut self.waiting, b, from) {
            return Err(DiskError::Oom);
        }
        if fails.is_some() {
            self.counts.faults = self.counts.faults.saturating_add(1);
            return Err(DiskError::Failed);
        }
        Ok(())
    }

    fn sync(&mut self) -> Result<(), DiskError>
        ensures shape { shape_of self.new ≡ shape_of self.old }
        ensures state { Leads (sync (call_outcome result)) (state_of self.old) (state_of self.new) }
        ensures opening { opening_of self.new ≡ opening_of self.old }
        ensures named { IsErrOf result error.Oom → image_held self.new ≡ image_held self.old }
        ensures calls { Calls (counts_of self.old) (sync_counted (counts_of self.old))
            (counts_of self.new) (never_fails_of self.old) (never_fails_of self.new) result }
        // What no disk owes but this one.
        ensures fails { SyncsAsListed
            (part_listed (fails_of self.old) kind.Sync (next_count (counts_of self.old).syncs))
            (state_of self.old) (state_of self.new) result }
        ensures faults { (counts_of self.new).faults
            ≡ faults_counted result (counts_of self.old).faults }
        ensures listed { fails_of self.new ≡ fails_of self.old }
        ensures attempts { attaches_of self.new ≡ attaches_of self.old }
        ensures rest { rest_of self.new ≡ rest_of self.old }
    {
        self.counts.syncs = self.counts.syncs.saturating_add(1);
        match failing_part(&self.fails, CallKind::Sync, self.counts.syncs) {
            None => {
                settle(&mut self.bytes, self.blocks, self.size, &self.waiting);
                self.waiting.clear();
                Ok(())
            }
            Some(part) => {
                let done = (part as usize).min(self.waiting.len());
                settle(
                    &mut self.bytes,
                    self.blocks,
                    self.size,
                    &self.waiting[..done],
                );
                let left = self.waiting.len() - done;
                self.waiting.rotate_left(done);
                self.waiting.truncate(left);
                self.counts.faults = self.counts.faults.saturating_add(1);
                Err(DiskError::Failed)
            }
        }
    }
}
