ghost use Rattle.joined_cells.specs.Flood.{IsNumbered, no_label};
ghost use Rattle.joined_cells.specs.Joining.{Joining};
ghost use Rattle.std.specs.Prelude.{◌≡◌, ◌+◌, ◌/◌, ◌%◌, ◌<◌, IsTrue, length};

/// Numbers the open pixel at a place, which has a parent still. If that is an earlier pixel, it gets the parent's number; a
/// root gets the new number `count`. The result is how many numbers are given then.
pub fn number_place(labels: &mut [u32], place: usize, count: u32) -> u32
    requires within { place < length labels.old }
    requires room { count < no_label }
    ensures { (joining : Joining) → IsNumbered joining place count labels.old → IsTrue (joining.mask (place % joining.width) (place / joining.width)) → IsNumbered joining (place + 1) result labels.new }
{
    let parent = labels[place] as usize;
    if parent < place {
        labels[place] = labels[parent];
        return count;
    }
    labels[place] = count;
    count + 1
}
