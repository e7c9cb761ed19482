//! Bytes and lists, where memory is left.
ghost use Rattle.std.specs.Prelude.{◌≡◌, ◌<◌, length, slice_set};

use host_block::{Bytes, ReservedList};
use std::test::Fail;

fn set_first(bytes: &mut Bytes)
    requires { 0 < length bytes.old }
    ensures { bytes.new ≡ slice_set bytes.old 0 7 }
{
    bytes.as_mut_slice()[0] = 7;
}

#[test]
fn bytes_and_lists_are_made(rt: HostRuntime) -> Result<(), Fail> {
    let mut bytes = Bytes::copied(rt.alloc(), &[1, 2, 3])?;
    set_first(&mut bytes);
    assert_eq!(rt; bytes.as_slice(), [7u8, 2, 3].as_slice());
    let zeroes = Bytes::zeroed(rt.alloc(), 2)?;
    assert_eq!(rt; zeroes.as_slice(), [0u8, 0].as_slice());
    let mut list = ReservedList::with_room(rt.alloc(), 1)?;
    list.push(5u8);
    assert_eq!(rt; list.spare(), 0);
    list.reserve(1)?;
    list.push(6);
    assert_eq!(rt; list.as_slice(), [5u8, 6].as_slice());
    Ok(())
}
