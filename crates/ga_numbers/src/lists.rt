ghost use Rattle.std.specs.Prelude.{◌≡◌, [], map, slice_index_or};

/// The number at this place, or 0 where there is none.
pub(crate) fn number_at(numbers: &[u32], at: u32) -> u32
    ensures { result ≡ slice_index_or numbers.now at 0 }
{
    match numbers.get(at as usize) {
        Some(number) => *number,
        None => 0,
    }
}

/// The numbers at this place, or none.
pub(crate) fn list_at(lists: &[Vec<u32>], at: usize) -> &[u32]
    ensures { result.now ≡ slice_index_or (map (λ l. l.items) lists.now) at [] }
{
    match lists.get(at) {
        Some(numbers) => numbers,
        None => &[],
    }
}
