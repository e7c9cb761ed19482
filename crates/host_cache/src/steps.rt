// The steps of which the calls of a cache are made.
ghost use Rattle.std.specs.Prelude.{◌≡◌, ◌<◌, length, IsTrue};

use crate::CacheError;
use crate::cache::Cache;
use crate::disk_calls::{read_disk, sync_disk, write_disk};
use crate::line::{ENTRIES, Line};
use crate::list::{clean_entry, copy_entry, first_dirty, put_entry, take_last};
use host_block::Bytes;
use host_io::Disk;

impl<D: Disk> Cache<D> {
    ghost use Rattle.std.specs.Prelude.{◌≢◌, ◌⊎◌, true, false, None, [], OnOk, OnErr, IsErrOf};
    ghost use Rattle.std.specs.Prelude.{MatchOption};
    ghost use Rattle.host_block.specs.Disk.{read_of, done};
    ghost use Rattle.host_cache.specs.Calls.{Then, WritesVictim, with_room, Loads, Gives};
    ghost use Rattle.host_cache.specs.Calls.{MakesRoom, PutsInFront, clean_line, Finds, ReadsDisk};
    ghost use Rattle.host_cache.specs.Calls.{Prepares, is_dirty, Cleans, WritesDirty, Syncs};
    ghost use Rattle.host_cache.specs.Held.{line_at};
    ghost use Rattle.host_cache.specs.Outcomes.{cache_outcome};
    ghost use Rattle.host_cache.specs.Seen.{disk_of, shape_of, held_of, content_of, HasSameContent};
    ghost use Rattle.host_cache.specs.Seen.{HasWritten, HasFaulted, Runs};

    // Writes the victim, where one is there.
    pub(crate) fn write_victim(&mut self) -> Result<(), CacheError>
        ensures calls { Runs WritesVictim self.old (cache_outcome result) self.new }
        ensures fault { IsErrOf result CacheError.Disk → HasFaulted self.old self.new }
        ensures shape { shape_of self.new ≡ shape_of self.old }
        ensures content { HasSameContent self.old self.new }
        ensures empty { OnOk result ((held_of self.new).victim ≡ None) }
    {
        let Some(victim) = &self.victim else {
            return Ok(());
        };
        match write_disk(&mut self.disk, victim.block, victim.bytes.as_slice()) {
            Ok(()) => {
                self.victim = None;
                Ok(())
            }
            Err(error) => Err(error),
        }
    }

    // Takes the last entry out of a full list. A dirty one becomes the victim.
    fn evict(&mut self)
        requires { (held_of self.old).victim ≡ None }
        ensures held { held_of self.new ≡ with_room (held_of self.old) }
        ensures disk { disk_of self.new ≡ disk_of self.old }
        ensures content { HasSameContent self.old self.new }
        ensures room { length (held_of self.new).lines < ENTRIES }
    {
        if self.lines.len() < ENTRIES {
            return;
        }
        self.victim = take_last(&mut self.lines);
    }

    // Makes room for one more entry.
    fn make_room(&mut self) -> Result<(), CacheError>
        requires { (held_of self.old).victim ≡ None }
        ensures calls { Runs MakesRoom self.old (cache_outcome result) self.new }
        ensures fault { IsErrOf result CacheError.Disk → HasFaulted self.old self.new }
        ensures shape { shape_of self.new ≡ shape_of self.old }
        ensures content { HasSameContent self.old self.new }
        ensures empty { OnOk result ((held_of self.new).victim ≡ None) }
        ensures room { length (held_of self.new).lines < ENTRIES }
    {
        self.evict();
        self.write_victim()
    }

    // Writes the victim, and makes room for block `b` where it isn't in the list.
    pub(crate) fn prepare(&mut self, b: u64) -> Result<(), CacheError>
        ensures calls { Runs (Prepares b) self.old (cache_outcome result) self.new }
        ensures fault { IsErrOf result CacheError.Disk → HasFaulted self.old self.new }
        ensures shape { shape_of self.new ≡ shape_of self.old }
        ensures content { HasSameContent self.old self.new }
        ensures empty { OnOk result ((held_of self.new).victim ≡ None) }
        ensures room { OnOk result ((line_at (held_of self.new).lines b ≢ None)
            ⊎ (length (held_of self.new).lines < ENTRIES)) }
    {
        match self.write_victim() {
            Ok(()) => {}
            Err(error) => return Err(error),
        }
        if self.lines.contains(&b) {
            return Ok(());
        }
        self.make_room()
    }

    // Gives the bytes of block `b`, where it is in the list, and moves it to the front.
    fn recall(&mut self, b: u64, into: &mut [u8]) -> bool
        requires piece { length into.old ≡ (shape_of self.old).size }
        requires victim { (held_of self.old).victim ≡ None }
        ensures found { MatchOption (line_at (held_of self.old).lines b)
            ((result ≡ false) × (held_of self.new ≡ held_of self.old)) (λ line.
            (result ≡ true) × Finds b into.new line (held_of self.old) [] done (held_of self.new)) }
        ensures disk { disk_of self.new ≡ disk_of self.old }
        ensures content { HasSameContent self.old self.new }
    {
        copy_entry(&mut self.lines, b, into)
    }

    // Puts an entry in front.
    pub(crate) fn put(&mut self, b: u64, line: Line) -> Result<(), CacheError>
        requires block { b < (shape_of self.old).blocks }
        requires piece { length line.bytes ≡ (shape_of self.old).size }
        requires victim { (held_of self.old).victim ≡ None }
        requires room { (line_at (held_of self.old).lines b ≢ None)
            ⊎ (length (held_of self.old).lines < ENTRIES) }
        requires clean { IsTrue (shape_of self.old).tells → line.dirty ≡ false
            → line.bytes ≡ read_of (D.state (disk_of self.old)) b }
        ensures calls { Runs (PutsInFront b line) self.old (cache_outcome result) self.new }
        ensures fault { IsErrOf result CacheError.Disk → HasFaulted self.old self.new }
        ensures shape { shape_of self.new ≡ shape_of self.old }
        ensures written { OnOk result (HasWritten b line.bytes self.old self.new) }
        ensures content { OnErr result (HasSameContent self.old self.new) }
    {
        put_entry(&mut self.lines, b, line)
    }

    // Reads block `b` from the disk.
    fn read_through(&mut self, b: u64, into: &mut [u8]) -> Result<(), CacheError>
        requires block { b < (shape_of self.old).blocks }
        requires piece { length into.old ≡ (shape_of self.old).size }
        ensures calls { Runs (ReadsDisk b) self.old (cache_outcome result) self.new }
        ensures fault { IsErrOf result CacheError.Disk → HasFaulted self.old self.new }
        ensures shape { shape_of self.new ≡ shape_of self.old }
        ensures held { held_of self.new ≡ held_of self.old }
        ensures state { IsTrue (shape_of self.old).tells
            → D.state (disk_of self.new) ≡ D.state (disk_of self.old) }
        ensures bytes { IsTrue (shape_of self.old).tells
            → OnOk result (into.new ≡ read_of (D.state (disk_of self.old)) b) }
    {
        read_disk(&mut self.disk, b, into)
    }

    // Reads block `b` from the disk, and puts it in front.
    fn fetch(&mut self, b: u64, into: &mut [u8]) -> Result<(), CacheError>
        requires block { b < (shape_of self.old).blocks }
        requires piece { length into.old ≡ (shape_of self.old).size }
        requires victim { (held_of self.old).victim ≡ None }
        requires absent { line_at (held_of self.old).lines b ≡ None }
        requires room { length (held_of self.old).lines < ENTRIES }
        ensures calls { Runs (Then (ReadsDisk b) (PutsInFront b (clean_line into.new))) self.old
            (cache_outcome result) self.new }
        ensures fault { IsErrOf result CacheError.Disk → HasFaulted self.old self.new }
        ensures shape { shape_of self.new ≡ shape_of self.old }
        ensures bytes { IsTrue (shape_of self.old).tells
            → OnOk result (into.new ≡ content_of self.old b) }
        ensures content { HasSameContent self.old self.new }
    {
        match self.read_through(b, into) {
            Ok(()) => {}
            Err(error) => return Err(error),
        }
        match Bytes::copied(self.alloc, into) {
            Ok(bytes) => self.put(
                b,
                Line {
                    bytes,
                    dirty: false,
                },
            ),
            Err(_) => Err(CacheError::Oom),
        }
    }

    // Makes room, and reads block `b`, which isn't in the list, into it.
    fn load(&mut self, b: u64, into: &mut [u8]) -> Result<(), CacheError>
        requires block { b < (shape_of self.old).blocks }
        requires piece { length into.old ≡ (shape_of self.old).size }
        requires victim { (held_of self.old).victim ≡ None }
        requires absent { line_at (held_of self.old).lines b ≡ None }
        ensures calls { Runs (Loads b into.new) self.old (cache_outcome result) self.new }
        ensures fault { IsErrOf result CacheError.Disk → HasFaulted self.old self.new }
        ensures shape { shape_of self.new ≡ shape_of self.old }
        ensures bytes { IsTrue (shape_of self.old).tells
            → OnOk result (into.new ≡ content_of self.old b) }
        ensures content { HasSameContent self.old self.new }
    {
        match self.make_room() {
            Ok(()) => {}
            Err(error) => return Err(error),
        }
        self.fetch(b, into)
    }

    // Gives the bytes of block `b`, from the list or from the disk.
    pub(crate) fn give(&mut self, b: u64, into: &mut [u8]) -> Result<(), CacheError>
        requires block { b < (shape_of self.old).blocks }
        requires piece { length into.old ≡ (shape_of self.old).size }
        requires victim { (held_of self.old).victim ≡ None }
        ensures calls { Runs (Gives b into.new) self.old (cache_outcome result) self.new }
        ensures fault { IsErrOf result CacheError.Disk → HasFaulted self.old self.new }
        ensures shape { shape_of self.new ≡ shape_of self.old }
        ensures bytes { IsTrue (shape_of self.old).tells
            → OnOk result (into.new ≡ content_of self.old b) }
        ensures content { HasSameContent self.old self.new }
    {
        if self.recall(b, into) {
            return Ok(());
        }
        self.load(b, into)
    }

    // Writes the dirty entry of block `b`, which is clean then.
    fn clean(&mut self, b: u64) -> Result<(), CacheError>
        requires { is_dirty (line_at (held_of self.old).lines b) ≡ true }
        ensures calls { Runs (Cleans b) self.old (cache_outcome result) self.new }
        ensures fault { IsErrOf result CacheError.Disk → HasFaulted self.old self.new }
        ensures shape { shape_of self.new ≡ shape_of self.old }
        ensures content { HasSameContent self.old self.new }
    {
        clean_entry(&mut self.lines, &mut self.disk, b)
    }

    // Writes the dirty entries by rising block number.
    pub(crate) fn write_dirty(&mut self) -> Result<(), CacheError>
        ensures calls { Runs (WritesDirty (shape_of self.old).blocks) self.old
            (cache_outcome result) self.new }
        ensures fault { IsErrOf result CacheError.Disk → HasFaulted self.old self.new }
        ensures shape { shape_of self.new ≡ shape_of self.old }
        ensures content { HasSameContent self.old self.new }
    {
        let mut from = 0;
        while let Some(b) = first_dirty(&self.lines, from) {
            match self.clean(b) {
                Ok(()) => {}
                Err(error) => return Err(error),
            }
            from = b + 1;
        }
        Ok(())
    }

    // Syncs the disk.
    pub(crate) fn sync(&mut self) -> Result<(), CacheError>
        ensures calls { Runs Syncs self.old (cache_outcome result) self.new }
        ensures fault { IsErrOf result CacheError.Disk → HasFaulted self.old self.new }
        ensures shape { shape_of self.new ≡ shape_of self.old }
        ensures content { HasSameContent self.old self.new }
    {
        sync_disk(&mut self.disk)
    }
}
