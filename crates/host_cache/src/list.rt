// The list of a cache.
ghost use Rattle.std.specs.Prelude.{◌≡◌, ◌≢◌, ◌⊎◌, ◌<◌, ◌-◌, true, false, None, Some, length, take};
ghost use Rattle.std.specs.Prelude.{slice_get, nat_eq, IsErrOf, MatchOption};
ghost use Rattle.lru.specs.LruCache.{lru_cache, promoted};
ghost use Rattle.host_cache.specs.Calls.{victim_from, put_lines, clean_lines, write_calls};
ghost use Rattle.host_cache.specs.Calls.{dirty_at, is_dirty, cleaned_at};
ghost use Rattle.host_cache.specs.Held.{line_at};
ghost use Rattle.host_cache.specs.Kept.{AreApart};
ghost use Rattle.host_cache.specs.Made.{Made};
ghost use Rattle.host_cache.specs.Outcomes.{cache_outcome};
ghost use Rattle.host_cache.specs.Scan.{nearer_of, first_dirty as the_first_dirty};
ghost use Rattle.host_cache.specs.declared.line.Line.{Line as Entry};
ghost use Rattle.host_io.specs.Causes.{Rose};

use crate::CacheError;
use crate::disk_calls::write_disk;
use crate::line::{ENTRIES, Line, Victim};
use host_io::Disk;
use lru::LruCache;

// What a dirty entry that leaves the list becomes.
fn victim_of(block: u64, line: Line) -> Option<Victim>
    ensures { result ≡ victim_from (Some (block, line)) }
{
    let Line { bytes, dirty } = line;
    if dirty {
        Some(Victim { block, bytes })
    } else {
        None
    }
}

/// Takes the last entry out of the list. It is the victim where it is dirty.
pub fn take_last(lines: &mut LruCache<u64, Line>) -> Option<Victim>
    ensures victim { result
        ≡ victim_from (slice_get lines.old.entries (length lines.old.entries - 1)) }
    ensures lines { lines.new
        ≡ lru_cache (take (length lines.old.entries - 1) lines.old.entries) lines.old.cap }
{
    match lines.pop_lru() {
        Some((block, line)) => victim_of(block, line),
        None => None,
    }
}

/// Copies the bytes of block `b`, where the list has it, and moves it to the front.
pub fn copy_entry(lines: &mut LruCache<u64, Line>, b: u64, into: &mut [u8]) -> bool
    requires { (line : Entry) → line_at lines.old.entries b ≡ Some line
        → length line.bytes ≡ length into.old }
    ensures found { MatchOption (line_at lines.old.entries b) (result ≡ false)
        (λ line. (result ≡ true) × (into.new ≡ line.bytes)) }
    ensures lines { lines.new ≡ lru_cache (promoted (nat_eq b) lines.old.entries) lines.old.cap }
{
    match lines.get(&b) {
        Some(line) => {
            into.copy_from_slice(line.bytes.as_slice());
            true
        }
        None => false,
    }
}

/// Puts an entry in front of the list.
pub fn put_entry(lines: &mut LruCache<u64, Line>, b: u64, line: Line) -> Result<(), CacheError>
    requires cap { lines.old.cap ≡ ENTRIES }
    requires room { (line_at lines.old.entries b ≢ None) ⊎ (length lines.old.entries < ENTRIES) }
    ensures lines { lines.new
        ≡ lru_cache (put_lines (cache_outcome result) b line lines.old.entries) lines.old.cap }
    ensures memory { result ≢ Err CacheError.Disk }
{
    match lines.put(b, line) {
        Ok(_) => Ok(()),
        Err(_) => Err(CacheError::Oom),
    }
}

// The lesser of the block found so far and this one, where it is dirty and not below `from`.
fn nearer(from: u64, least: Option<u64>, block: u64, dirty: bool) -> Option<u64>
    ensures { result ≡ nearer_of from least block dirty }
{
    if !dirty || block < from {
        return least;
    }
    match least {
        Some(other) => Some(other.min(block)),
        None => Some(block),
    }
}

/// The first dirty block that isn't below `from`.
pub fn first_dirty(lines: &LruCache<u64, Line>, from: u64) -> Option<u64>
    ensures { result ≡ the_first_dirty from lines.now.entries }
{
    lines.iter().fold(None, |least, (block, line)| {
        nearer(from, least, *block, line.dirty)
    })
}

// The entry of block `b`, where there is one, is clean from now on.
fn mark_clean(lines: &mut LruCache<u64, Line>, b: u64)
    requires { AreApart lines.old.entries }
    ensures { lines.new ≡ lru_cache (cleaned_at b lines.old.entries) lines.old.cap }
{
    if let Some(line) = lines.peek_mut(&b) {
        line.dirty = false;
    }
}

/// Writes the dirty entry of block `b`, which is clean once the write succeeded.
pub fn clean_entry<D: Disk>(
    lines: &mut LruCache<u64, Line>,
    disk: &mut D,
    b: u64,
) -> Result<(), CacheError>
    requires apart { AreApart lines.old.entries }
    requires dirty { is_dirty (line_at lines.old.entries b) ≡ true }
    requires fits { (line : Entry) → line_at lines.old.entries b ≡ Some line
        → (b < (D.shape disk.old).blocks) × (length line.bytes ≡ (D.shape disk.old).size) }
    ensures lines { lines.new
        ≡ lru_cache (clean_lines (cache_outcome result) b lines.old.entries) lines.old.cap }
    ensures made { Made D.Disk
        (write_calls (cache_outcome result) (dirty_at b (line_at lines.old.entries b))) disk.old
        disk.new }
    ensures fault { IsErrOf result CacheError.Disk
        → Rose (D.counts disk.old).faults (D.counts disk.new).faults }
{
    let Some(line) = lines.peek(&b) else {
        return Ok(());
    };
    match write_disk(disk, b, line.bytes.as_slice()) {
        Ok(()) => {
            mark_clean(lines, b);
            Ok(())
        }
        Err(error) => Err(error),
    }
}
