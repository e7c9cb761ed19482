//! The device.
ghost use Rattle.std.specs.Prelude.{◌≡◌, IsTrue};
ghost use Rattle.host_block.specs.Changes.{IsLegal};
ghost use Rattle.host_block.specs.Crash.{Keeps, IsCurrent};
ghost use Rattle.host_cache.specs.Seen.{disk_of as disk_under, content_of};
ghost use Rattle.host_device.specs.Faults.{RoseBy, faulted_count};
ghost use Rattle.host_model.specs.Changes.{changes_of};

use crate::error::StepError;
use crate::steps::{Owner, make_read, make_step};
use host_block::{Oom, Op};
use host_cache::Cache;
use host_io::Disk;
use host_log::SwitchLog;
use host_model::{SharedBytes, Step};
use std::alloc::Global;
use std::snapshot::Snapshot;

/// Want of memory. It hands the cache back.
#[derive(Drop)]
pub struct NoDevice<D: Disk> {
    pub cache: Cache<D>,
}

/// A cache over a disk, with the history of what was done to it since the device was made.
#[derive(Drop)]
pub struct Device<D: Disk> {
    pub(crate) alloc: Global,
    pub(crate) cache: Cache<D>,
    pub(crate) steps: SwitchLog<Step>,
    // The disk as `new` found it.
    pub(crate) opening: Snapshot<D>,
    ghost same_shape: { D.shape (disk_under cache) ≡ D.shape opening.value },
    ghost same_opening: { D.opening (disk_under cache) ≡ D.opening opening.value },
    ghost legal: { IsTrue (D.shape (disk_under cache)).tells
        → IsLegal (D.state opening.value).durable (changes_of steps.items) },
    ghost current: { IsTrue (D.shape (disk_under cache)).tells
        → IsCurrent (D.state opening.value).durable (changes_of steps.items) (content_of cache) },
    ghost kept: { IsTrue (D.shape (disk_under cache)).tells
        → ∥ Keeps (D.state opening.value).durable (changes_of steps.items)
        (D.state (disk_under cache)) ∥₁ },
    ghost faults: { RoseBy (faulted_count steps.items) (D.counts opening.value).faults
        (D.counts (disk_under cache)).faults },
    ghost unfailing: { IsTrue (D.never_fails opening.value)
        → IsTrue (D.never_fails (disk_under cache))
        × ((D.counts (disk_under cache)).faults ≡ (D.counts opening.value).faults) },
}

impl<D: Disk> Device<D> {
    ghost use Rattle.std.specs.Prelude.{[], ◌++◌, ◌<◌, ◌≤◌, false, length, None, OnOk, OnErr, IfOk};
    ghost use Rattle.std.specs.Prelude.{IfErr, IsErrOf};
    ghost use Rattle.host_block.specs.declared.op.Op.TheVariants.{Flush, Read};
    ghost use Rattle.host_block.specs.Changes.{is_read};
    ghost use Rattle.host_log.specs.Switch.{spare_in_log};
    ghost use Rattle.host_cache.specs.Seen.{held_of};
    ghost use Rattle.host_io.specs.Causes.{Rose};
    ghost use Rattle.host_log.specs.History.{Adds};
    ghost use Rattle.host_device.specs.Entries.{IsOnDisk, IsPiece, answer_alone, step_made};
    ghost use Rattle.host_device.specs.Entries.{entries_added};
    ghost use Rattle.host_device.specs.Seen.{cache_of, disk_of, shape_of, opening_of, fixed_of};
    ghost use Rattle.host_device.specs.Seen.{steps_of, KeepsHistory, IsStep, LosesNothing};

    /// A device over an empty cache whose disk has nothing pending, with room for so many entries.
    pub fn new(
        alloc: Global,
        cache: Cache<D>,
        room: u64,
        keeps: bool,
    ) -> Result<Device<D>, NoDevice<D>>
        requires empty { held_of cache ≡ record { lines = []; victim = None } }
        requires settled { IsTrue (D.shape (disk_under cache)).tells
            → (D.state (disk_under cache)).pending ≡ [] }
        ensures cache { IfOk result (λ device. cache_of device ≡ cache) }
        ensures opening { IfOk result (λ device. opening_of device ≡ disk_under cache) }
        ensures steps { IfOk result
            (λ device. steps_of device ≡ record { items = []; room = room; kept = keeps }) }
        ensures refused { IfErr result (λ refused. refused.cache ≡ cache) }
    {
        let opening = Snapshot::of(cache.disk());
        match SwitchLog::with_room(alloc, room, keeps) {
            Ok(steps) => Ok(Device {
                alloc,
                cache,
                steps,
                opening,
            }),
            Err(Oom) => Err(NoDevice { cache }),
        }
    }

    /// What every device keeps. It does nothing.
    pub fn keeps_history(&self)
        ensures told { IsTrue (shape_of self.now).tells → KeepsHistory self.now }
        ensures shape { shape_of self.now ≡ D.shape (opening_of self.now) }
        ensures opening { D.opening (disk_of self.now) ≡ D.opening (opening_of self.now) }
        ensures faults { RoseBy (faulted_count (steps_of self.now).items)
            (D.counts (opening_of self.now)).faults (D.counts (disk_of self.now)).faults }
        ensures unfailing { IsTrue (D.never_fails (opening_of self.now))
            → IsTrue (D.never_fails (disk_of self.now))
            × ((D.counts (disk_of self.now)).faults ≡ (D.counts (opening_of self.now)).faults) }
    {}

    /// How many entries still fit.
    pub fn spare(&self) -> u64
        ensures { result ≡ spare_in_log (steps_of self.now) }
    {
        self.steps.spare()
    }

    /// Whether the history is kept in memory.
    pub fn is_kept(&self) -> bool
        ensures { result ≡ (steps_of self.now).kept }
    {
        self.steps.is_kept()
    }

    /// Makes room for one entry. Where one fits already it takes no memory.
    pub fn make_room(&mut self) -> Result<(), Oom>
        ensures room { OnOk result (1 ≤ spare_in_log (steps_of self.new)) }
        ensures full { OnErr result (spare_in_log (steps_of self.old) ≡ 0) }
        ensures more { spare_in_log (steps_of self.old) ≤ spare_in_log (steps_of self.new) }
        ensures entries { (steps_of self.new).items ≡ (steps_of self.old).items }
        ensures cache { cache_of self.new ≡ cache_of self.old }
        ensures fixed { fixed_of self.new ≡ fixed_of self.old }
    {
        if self.steps.spare() > 0 {
            return Ok(());
        }
        self.steps.reserve(1)
    }

    /// Reads block `b` of the image into `into`, as step `k` of record `index` of a session, and
    /// enters that. It hands out the entry's bytes. After an error nothing is known of `into`.
    pub fn read(
        &mut self,
        hand: u32,
        session: u32,
        index: u32,
        k: u32,
        b: u64,
        into: &mut [u8],
    ) -> Result<SharedBytes, StepError>
        requires room { 1 ≤ spare_in_log (steps_of self.old) }
        requires block { b < (shape_of self.old).blocks }
        requires piece { length into.old ≡ (shape_of self.old).size }
        ensures bytes { IfOk result (λ bytes. bytes ≡ into.new) }
        ensures entry { steps_of self.new
            ≡ record (steps_of self.old) {
              items = (steps_of self.old).items
                  ++ entries_added (answer_alone result)
                  (step_made hand session index k Read b into.new);
            } }
        ensures adds { Adds (λ step. step.hand) hand (steps_of self.old).items
            (steps_of self.new).items }
        ensures calls { IsStep Read b into.new self.old (answer_alone result) self.new }
        ensures fault { IsErrOf result StepError.Fault
            → Rose (D.counts (disk_of self.old)).faults (D.counts (disk_of self.new)).faults }
        ensures shape { shape_of self.new ≡ shape_of self.old }
        ensures fixed { fixed_of self.new ≡ fixed_of self.old }
    {
        let owner = Owner {
            hand,
            session,
            index,
            k,
        };
        make_read(self.alloc, &mut self.cache, &mut self.steps, owner, b, into)
    }

    /// Makes step `k` of record `index` of a session, no read, and enters it. `b` is a block of the
    /// image, and 0 for a flush. The bytes of a write become the entry's.
    pub fn step(
        &mut self,
        hand: u32,
        session: u32,
        index: u32,
        k: u32,
        op: Op,
        b: u64,
        bytes: SharedBytes,
    ) -> Result<(), StepError>
        requires room { 1 ≤ spare_in_log (steps_of self.old) }
        requires kind { is_read op ≡ false }
        requires block { IsOnDisk op b (shape_of self.old).blocks }
        requires piece { IsPiece op (length bytes) (shape_of self.old).size }
        ensures entry { steps_of self.new
            ≡ record (steps_of self.old) {
              items = (steps_of self.old).items
                  ++ entries_added result (step_made hand session index k op b bytes);
            } }
        ensures adds { Adds (λ step. step.hand) hand (steps_of self.old).items
            (steps_of self.new).items }
        ensures calls { IsStep op b bytes self.old result self.new }
        ensures flushed { OnOk result (op ≡ Flush → LosesNothing self.new) }
        ensures fault { IsErrOf result StepError.Fault
            → Rose (D.counts (disk_of self.old)).faults (D.counts (disk_of self.new)).faults }
        ensures shape { shape_of self.new ≡ shape_of self.old }
        ensures fixed { fixed_of self.new ≡ fixed_of self.old }
    {
        let owner = Owner {
            hand,
            session,
            index,
            k,
        };
        make_step(&mut self.cache, &mut self.steps, owner, op, b, bytes)
    }

    /// The history, and the cache over the disk as it is.
    pub fn into_parts(self) -> (SwitchLog<Step>, Cache<D>)
        ensures steps { result.0 ≡ steps_of self }
        ensures cache { result.1 ≡ cache_of self }
    {
        let Device {
            alloc: _,
            cache,
            steps,
            opening: _,
        } = self;
        (steps, cache)
    }
}
