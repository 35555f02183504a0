// One place of a list.

ghost use Rattle.std.specs.Prelude.{◌≡◌, slice_set};

/// Writes a value to a place, where there is one.
pub fn set_at<T: Copy>(list: &mut [T], place: usize, value: T)
    ensures { list.new ≡ slice_set list.old place value }
{
    if place < list.len() {
        list[place] = value;
    }
}
