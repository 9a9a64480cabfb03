//! The room that a list of names gets with its first name.
ghost use Rattle.std.specs.Prelude.{◌≡◌};

use ms_bits::NoMemory;

/// How many items an empty list gets room for.
const ROOM: usize = 32;

/// Makes room in a list that has no item. Most lists of names get as many at most, and a list that grows to them step by step
/// is moved each time.
pub fn make_room<T>(list: &mut Vec<T>) -> Result<(), NoMemory>
    ensures { list.new.items ≡ list.old.items }
{
    if list.is_empty() {
        list.reserve(ROOM)
    } else {
        Ok(())
    }
}
