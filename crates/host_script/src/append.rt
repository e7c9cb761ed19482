// Adding to a list that takes its memory ahead, where how many elements there will be isn't known.
ghost use Rattle.std.specs.Prelude.{◌≡◌, ◌++◌, ◌∷◌, [], OnErr, OnOk};

use host_block::{Oom, ReservedList};

/// Adds an element at the end. Where no room is left it makes as much again as there is.
pub fn append<T: Drop>(list: &mut ReservedList<T>, element: T) -> Result<(), Oom>
    ensures ok { OnOk result (list.new.items ≡ list.old.items ++ element ∷ []) }
    ensures err { OnErr result (list.new ≡ list.old) }
{
    if list.spare() == 0 {
        list.reserve(list.len().max(4))?;
    }
    list.push(element);
    Ok(())
}
