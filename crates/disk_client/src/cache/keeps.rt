// How a layer above carries a history over a cache: a flush that succeeds is kept, and so is what
// was kept before it, at each moment of the call.
ghost use Rattle.std.specs.Prelude.{◌≡◌, ℕ, IsTrue, List, [], ◌∷◌, ◌++◌, length, OnOk};
ghost use Rattle.host_block.specs.Changes.{Change, is_barrier};
ghost use Rattle.host_block.specs.Crash.{Keeps};
ghost use Rattle.host_block.specs.Disk.{DiskCall};
ghost use Rattle.host_block.specs.Laws.{LeadThrough};
ghost use Rattle.host_cache.specs.Laws.{IsHeldOver};
ghost use Rattle.host_cache.specs.Seen.{disk_of, shape_of, held_of};

use host_cache::{Cache, CacheError};
use host_io::Disk;

/// Flushes a cache over a disk that keeps a history.
pub fn flush_kept<D: Disk>(cache: &mut Cache<D>) -> Result<(), CacheError>
    ghost seen: { List (List ℕ) × List Change }
    requires blocks { length seen.0 ≡ (shape_of cache.old).blocks }
    requires over { IsTrue (shape_of cache.old).tells
        → IsHeldOver seen.0 seen.1 (shape_of cache.old).size (held_of cache.old)
        (D.state (disk_of cache.old)) }
    ensures along { IsTrue (shape_of cache.old).tells
        → ((calls : List DiskCall)
        × LeadThrough (Keeps seen.0 seen.1) calls (D.state (disk_of cache.old))
        (D.state (disk_of cache.new))) }
    ensures kept { OnOk result (IsTrue (shape_of cache.old).tells → (flush : Change)
        → IsTrue (is_barrier flush)
        → Keeps seen.0 (seen.1 ++ flush ∷ []) (D.state (disk_of cache.new))) }
{
    cache.flush()
}
