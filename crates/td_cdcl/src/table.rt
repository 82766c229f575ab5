//! Reading and writing a place of a slice that may not be there.

ghost use Rattle.std.specs.Prelude.{◌≡◌, get_or, set};

/// The number, where it is below 2 ^ 32, else the greatest that is.
#[inline(always)]
pub fn small(number: usize) -> u32 {
    match u32::try_from(number) {
        Ok(small) => small,
        Err(_) => u32::MAX,
    }
}

/// What stands at the place, or the default where there is no such place.
#[inline(always)]
pub fn read<T: Copy>(items: &[T], place: usize, default: T) -> T
    ensures { result ≡ get_or items.now place default }
{
    match items.get(place) {
        Some(item) => *item,
        None => default,
    }
}

/// Writes at the place, where there is one.
#[inline(always)]
pub fn write_at<T: Copy>(items: &mut [T], place: usize, item: T)
    ensures { items.new ≡ set items.old place item }
{
    if place < items.len() {
        items[place] = item;
    }
}
