ghost use Rattle.std.specs.Prelude.{◌≡◌, ◌⊎◌, All, None, Some, slice_set};

use ga_base::NoMemory;

/// Makes this many places with nothing in them, where there are none.
pub(crate) fn make_places<T: Drop>(
    places: &mut Vec<Option<T>>,
    count: usize,
) -> Result<(), NoMemory>
    ensures { (places.new.items ≡ places.old.items) ⊎ All (λ place. place ≡ None) places.new.items }
{
    if places.is_empty() {
        for _ in 0..count {
            places.push(None)?;
        }
    }
    Ok(())
}

/// Puts an item at a place, in the stead of what was there. Where there is no such place, the item is dropped.
pub(crate) fn put_at<T: Drop>(places: &mut Vec<Option<T>>, place: usize, item: T)
    ensures { places.new.items ≡ slice_set places.old.items place (Some item) }
{
    if place < places.len() {
        places[place] = Some(item);
    }
}
