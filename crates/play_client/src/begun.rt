// What stands before a script is played: the script itself, the partitions of its sessions, and the
// disk.
ghost use Rattle.std.specs.Prelude.{◌≡◌, IfOk, IfSome, length, map};
ghost use Rattle.host_io.specs.MemDisk.{shape_of, state_of};
ghost use Rattle.host_play.specs.Stages.{IsGround};
ghost use Rattle.host_start.specs.Reading.{IsFit};
ghost use Rattle.script_model.specs.Plans.{plans_of};

use host_block::{BlockSize, Range};
use host_io::{Disk, FailAt, MemDisk};
use host_play::Ground;
use host_script::{Script, parse};
use host_start::{Place, Start, start_on_copy};
use std::alloc::{AllocError, Global};

/// The script that a text means, where it passes no limit with blocks of this size. Its text may be
/// longer than a program takes.
pub fn read_text(alloc: Global, text: &[u8], size: BlockSize) -> Option<Script>
    ensures { IfSome result (λ script. IsFit size (plans_of script)) }
{
    let Ok(script) = parse(alloc, text) else {
        return None;
    };
    match script.limit(size) {
        Some(_) => None,
        None => Some(script),
    }
}

/// The script, and where the partitions of its sessions lie on this image.
pub fn begin(alloc: Global, image: &[u8], text: &[u8], size: BlockSize) -> Option<Start>
    ensures size { IfSome result (λ start. start.size ≡ size) }
    ensures places { IfSome result
        (λ start. length start.places.items ≡ length (plans_of start.script)) }
{
    let script = read_text(alloc, text, size)?;
    let mut disk = MemDisk::new(alloc, image.to_vec(alloc).ok()?, Vec::new(alloc));
    match start_on_copy(alloc, script, &mut disk, "image", size) {
        Ok(ready) => Some(ready.start),
        Err(_) => None,
    }
}

fn range(place: &Place) -> Range
    ensures { result ≡ place.now.range }
{
    place.range
}

/// The blocks of these partitions.
pub fn ranges_of(alloc: Global, places: &[Place]) -> Result<Vec<Range>, AllocError>
    ensures { IfOk result (λ ranges. ranges.items ≡ map (λ place. place.range) places.now) }
{
    places.iter().map(range).collect(alloc)
}

/// A disk that holds this image, attached, where these calls fail.
pub fn ground_of(
    alloc: Global,
    image: &[u8],
    fails: Vec<FailAt>,
    start: &Start,
) -> Option<Ground<MemDisk>>
    ensures ground { IfSome result (λ ground.
        IsGround (shape_of ground.disk) (state_of ground.disk) ground.blocks ground.size) }
    ensures size { IfSome result (λ ground. ground.size ≡ start.now.size) }
    ensures count { IfSome result (λ ground. ground.blocks ≡ start.now.blocks) }
{
    let mut disk = MemDisk::new(alloc, image.to_vec(alloc).ok()?, fails);
    let blocks = disk.attach_image("image", start.size, true).ok()?;
    if blocks != start.blocks {
        return None;
    }
    Some(Ground {
        disk,
        blocks,
        size: start.size,
        which: start.which,
    })
}
