// The calls of the disk, each by the list of calls that it makes.
ghost use Rattle.std.specs.Prelude.{◌≡◌, ◌<◌, [], ◌∷◌, length, IsErrOf, IsTrue, OnOk};
ghost use Rattle.host_block.specs.Disk.{read, write, sync, read_of};
ghost use Rattle.host_io.specs.Causes.{Rose};
ghost use Rattle.host_cache.specs.Made.{Made};
ghost use Rattle.host_cache.specs.Outcomes.{cache_outcome};

use crate::CacheError;
use host_io::Disk;

pub fn read_disk<D: Disk>(disk: &mut D, b: u64, into: &mut [u8]) -> Result<(), CacheError>
    requires block { b < (D.shape disk.old).blocks }
    requires piece { length into.old ≡ (D.shape disk.old).size }
    ensures made { Made D.Disk (read b (cache_outcome result) ∷ []) disk.old disk.new }
    ensures bytes { IsTrue (D.shape disk.old).tells
        → OnOk result (into.new ≡ read_of (D.state disk.old) b) }
    ensures fault { IsErrOf result CacheError.Disk
        → Rose (D.counts disk.old).faults (D.counts disk.new).faults }
{
    disk.read_block(b, into)?;
    Ok(())
}

pub fn write_disk<D: Disk>(disk: &mut D, b: u64, from: &[u8]) -> Result<(), CacheError>
    requires block { b < (D.shape disk.old).blocks }
    requires piece { length from.now ≡ (D.shape disk.old).size }
    ensures made { Made D.Disk (write b from.now (cache_outcome result) ∷ []) disk.old disk.new }
    ensures fault { IsErrOf result CacheError.Disk
        → Rose (D.counts disk.old).faults (D.counts disk.new).faults }
{
    disk.write_block(b, from)?;
    Ok(())
}

pub fn sync_disk<D: Disk>(disk: &mut D) -> Result<(), CacheError>
    ensures made { Made D.Disk (sync (cache_outcome result) ∷ []) disk.old disk.new }
    ensures fault { IsErrOf result CacheError.Disk
        → Rose (D.counts disk.old).faults (D.counts disk.new).faults }
{
    disk.sync()?;
    Ok(())
}
