// The cache.
ghost use Rattle.std.specs.Prelude.{◌≡◌, ◌<◌, ◌^◌, length, IsTrue, IfErr, IfOk};
ghost use Rattle.std.proofs.Props.{props};
ghost use Rattle.host_cache.specs.Kept.{IsCacheKept, AreClean, apart_is_one};
ghost use Rattle.host_cache.specs.declared.line.TheConstants.{ENTRIES as the_entries};

use crate::CacheError;
use crate::line::{ENTRIES, Line, Victim};
use host_block::{BlockSize, Bytes};
use host_io::Disk;
use lru::LruCache;
use std::alloc::Global;
use std::num::NonZeroUsize;

/// Want of memory. It hands the disk back.
#[derive(Drop)]
pub struct NoCache<D> {
    pub disk: D,
}

/// A write-back cache over an attached disk.
#[derive(Drop)]
pub struct Cache<D: Disk> {
    pub(crate) alloc: Global,
    pub(crate) disk: D,
    // The most recently used first.
    pub(crate) lines: LruCache<u64, Line>,
    pub(crate) victim: Option<Victim>,
    pub(crate) blocks: u64,
    pub(crate) size: u32,
    ghost cap: { lines.cap ≡ the_entries },
    ghost in_word: { blocks < 2 ^ 64 },
    ghost same_blocks: { blocks ≡ (D.shape disk).blocks },
    ghost same_size: { size ≡ (D.shape disk).size },
    ghost kept: { IsCacheKept (D.shape disk).blocks (D.shape disk).size
        (record { lines = lines.entries; victim = victim }) } by { Prim.hlevel (apart_is_one, props) },
    ghost clean: { IsTrue (D.shape disk).tells → AreClean (D.state disk) lines.entries },
}

impl<D: Disk> Cache<D> {
    ghost use Rattle.std.specs.Prelude.{[], None, OnOk, OnErr, IsErrOf, replicate};
    ghost use Rattle.host_cache.specs.Calls.{IsRead, IsWrite, IsTrim, IsFlush};
    ghost use Rattle.host_cache.specs.Outcomes.{cache_outcome};
    ghost use Rattle.host_cache.specs.Seen.{disk_of, shape_of, held_of, content_of, HasSameContent};
    ghost use Rattle.host_cache.specs.Seen.{HasWritten, HasFaulted, Runs};

    /// An empty cache over this disk, which has so many blocks of this size.
    pub fn new(alloc: Global, disk: D, blocks: u64, size: BlockSize) -> Result<Cache<D>, NoCache<D>>
        requires attached { IsTrue (D.shape disk).attached }
        requires blocks { blocks ≡ (D.shape disk).blocks }
        requires size { size ≡ (D.shape disk).size }
        ensures disk { IfOk result (λ cache. disk_of cache ≡ disk) }
        ensures empty { IfOk result
            (λ cache. held_of cache ≡ record { lines = []; victim = None }) }
        ensures refused { IfErr result (λ refused. refused.disk ≡ disk) }
    {
        let Some(entries) = NonZeroUsize::new(ENTRIES) else {
            return Err(NoCache { disk });
        };
        match LruCache::new(alloc, entries) {
            Ok(lines) => Ok(Cache {
                alloc,
                disk,
                lines,
                victim: None,
                blocks,
                size: size.bytes(),
            }),
            Err(_) => Err(NoCache { disk }),
        }
    }

    /// Reads block `b`. Where it fails, `into` may hold anything.
    pub fn read(&mut self, b: u64, into: &mut [u8]) -> Result<(), CacheError>
        requires block { b < (shape_of self.old).blocks }
        requires piece { length into.old ≡ (shape_of self.old).size }
        ensures calls { Runs (IsRead b into.new) self.old (cache_outcome result) self.new }
        ensures bytes { IsTrue (shape_of self.old).tells
            → OnOk result (into.new ≡ content_of self.old b) }
        ensures content { HasSameContent self.old self.new }
        ensures shape { shape_of self.new ≡ shape_of self.old }
        ensures fault { IsErrOf result CacheError.Disk → HasFaulted self.old self.new }
    {
        match self.write_victim() {
            Ok(()) => {}
            Err(error) => return Err(error),
        }
        self.give(b, into)
    }

    /// Writes block `b`.
    pub fn write(&mut self, b: u64, from: &[u8]) -> Result<(), CacheError>
        requires block { b < (shape_of self.old).blocks }
        requires piece { length from.now ≡ (shape_of self.old).size }
        ensures calls { Runs (IsWrite b from.now) self.old (cache_outcome result) self.new }
        ensures written { OnOk result (HasWritten b from.now self.old self.new) }
        ensures content { OnErr result (HasSameContent self.old self.new) }
        ensures shape { shape_of self.new ≡ shape_of self.old }
        ensures fault { IsErrOf result CacheError.Disk → HasFaulted self.old self.new }
    {
        match self.prepare(b) {
            Ok(()) => {}
            Err(error) => return Err(error),
        }
        match Bytes::copied(self.alloc, from) {
            Ok(bytes) => self.put(b, Line { bytes, dirty: true }),
            Err(_) => Err(CacheError::Oom),
        }
    }

    /// Makes block `b` read as zero.
    pub fn trim(&mut self, b: u64) -> Result<(), CacheError>
        requires block { b < (shape_of self.old).blocks }
        ensures calls { Runs (IsTrim (shape_of self.old).size b) self.old (cache_outcome result)
            self.new }
        ensures trimmed { OnOk result
            (HasWritten b (replicate (shape_of self.old).size 0) self.old self.new) }
        ensures content { OnErr result (HasSameContent self.old self.new) }
        ensures shape { shape_of self.new ≡ shape_of self.old }
        ensures fault { IsErrOf result CacheError.Disk → HasFaulted self.old self.new }
    {
        match self.prepare(b) {
            Ok(()) => {}
            Err(error) => return Err(error),
        }
        match Bytes::zeroed(self.alloc, self.size) {
            Ok(bytes) => self.put(b, Line { bytes, dirty: true }),
            Err(_) => Err(CacheError::Oom),
        }
    }

    /// Writes what is dirty to the disk by rising block number, and syncs it.
    pub fn flush(&mut self) -> Result<(), CacheError>
        ensures calls { Runs (IsFlush (shape_of self.old).blocks) self.old (cache_outcome result)
            self.new }
        ensures content { HasSameContent self.old self.new }
        ensures shape { shape_of self.new ≡ shape_of self.old }
        ensures fault { IsErrOf result CacheError.Disk → HasFaulted self.old self.new }
    {
        match self.write_victim() {
            Ok(()) => {}
            Err(error) => return Err(error),
        }
        match self.write_dirty() {
            Ok(()) => {}
            Err(error) => return Err(error),
        }
        self.sync()
    }

    /// The disk under the cache, which may lack blocks that the cache has.
    pub fn disk(&self) -> &D
        ensures { result.now ≡ disk_of self.now }
    {
        &self.disk
    }

    /// The disk. Blocks that it doesn't have yet are dropped.
    pub fn into_disk(self) -> D
        ensures { result ≡ disk_of self }
    {
        let Cache {
            alloc: _,
            disk,
            lines: _,
            victim: _,
            blocks: _,
            size: _,
        } = self;
        disk
    }
}
