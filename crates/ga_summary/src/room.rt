ghost use Rattle.std.specs.Prelude.{◌≡◌, ◌+◌, ◌≤◌, false, OnOk, OnErr, IfOk, [], max, length, vec_len, vec_capacity};
ghost use Rattle.ga_base.specs.declared.key.Key.{Key as TheKey};
ghost use Rattle.ga_base.specs.Orders.{is_same_key, key_cmp};
ghost use Rattle.ga_summary.specs.Steps.Entries.{AllClosed, rows_of};
ghost use Rattle.ga_summary.specs.Steps.Room.{HasRoom, AllHaveRoom, OpenAmong, entry_at};
ghost use Rattle.ga_summary.specs.Steps.Places.{Rises};

use crate::entries::find;
use crate::entry::Entry;
use ga_base::NoMemory;

/// This many entries are put in their places one by one; more come in by one pass over all.
const FEW_ENTRIES: usize = 32;

/// Reserves room for an entry's names at the entry of its key, if it is there.
fn reserve_names(entries: &mut Vec<Box<Entry>>, more: &Entry) -> Result<(), NoMemory>
    requires { Rises key_cmp (λ row. row.key) (rows_of entries.old.items) }
    ensures rows { rows_of entries.new.items ≡ rows_of entries.old.items }
    ensures ok { OnOk result (HasRoom entries.new.items more.now) }
    ensures kept { OnOk result ((other : _) → HasRoom entries.old.items other → HasRoom entries.new.items other) }
    ensures others { (key : TheKey) → is_same_key key more.now.key ≡ false → entry_at entries.new.items key ≡ entry_at entries.old.items key }
    ensures len { vec_len entries.new ≡ vec_len entries.old }
    ensures capacity { vec_capacity entries.new ≡ vec_capacity entries.old }
{
    match find(entries, &more.key) {
        Ok(at) => {
            let entry: &mut Entry = &mut entries[at];
            entry.reserve(more)
        }
        Err(_) => Ok(()),
    }
}

/// Reserves places for entries: where the others are, or for many entries in a list of its own, for one pass over all.
fn reserve_places(
    entries: &mut Vec<Box<Entry>>,
    more: &[Box<Entry>],
) -> Result<Vec<Box<Entry>>, NoMemory>
    ensures items { entries.new.items ≡ entries.old.items }
    ensures len { vec_len entries.new ≡ vec_len entries.old }
    ensures none { IfOk result (λ room. room.items ≡ []) }
    ensures room { IfOk result (λ room. vec_len entries.new + length more.now ≤ max (vec_capacity entries.new) (vec_capacity room)) }
{
    let alloc = *entries.allocator();
    if more.len() <= FEW_ENTRIES {
        entries.reserve(more.len())?;
        return Ok(Vec::new(alloc));
    }
    Ok(Vec::with_capacity(alloc, entries.len() + more.len())?)
}

/// Reserves room for the names of entries at the entries of their keys. Of these some may be open then.
fn reserve_all_names(entries: &mut Vec<Box<Entry>>, more: &[Box<Entry>]) -> Result<(), NoMemory>
    requires rising { Rises key_cmp (λ row. row.key) (rows_of entries.old.items) }
    requires closed { AllClosed entries.old.items }
    ensures rows { rows_of entries.new.items ≡ rows_of entries.old.items }
    ensures names { OnOk result (AllHaveRoom entries.new.items more.now) }
    ensures opened { OnOk result (OpenAmong entries.new.items more.now) }
    ensures len { vec_len entries.new ≡ vec_len entries.old }
    ensures capacity { vec_capacity entries.new ≡ vec_capacity entries.old }
{
    for entry in more {
        reserve_names(entries, entry)?;
    }
    Ok(())
}

/// Closes all entries.
fn close_all(entries: &mut [Box<Entry>])
    ensures rows { rows_of entries.new ≡ rows_of entries.old }
    ensures closed { AllClosed entries.new }
{
    for boxed in entries.iter_mut() {
        let entry: &mut Entry = boxed;
        entry.close();
    }
}

/// Reserves all that entries need to be put among those that are there. The list that it gives is the room for one pass.
///
/// Entries that get more may be open then. After an `Err` all are closed.
pub(crate) fn reserve(
    entries: &mut Vec<Box<Entry>>,
    more: &[Box<Entry>],
) -> Result<Vec<Box<Entry>>, NoMemory>
    requires rising { Rises key_cmp (λ row. row.key) (rows_of entries.old.items) }
    requires closed { AllClosed entries.old.items }
    ensures rows { rows_of entries.new.items ≡ rows_of entries.old.items }
    ensures closed { OnErr result (AllClosed entries.new.items) }
    ensures opened { OnOk result (OpenAmong entries.new.items more.now) }
    ensures none { IfOk result (λ room. room.items ≡ []) }
    ensures room { IfOk result (λ room. vec_len entries.new + length more.now ≤ max (vec_capacity entries.new) (vec_capacity room)) }
    ensures names { OnOk result (AllHaveRoom entries.new.items more.now) }
{
    let room = reserve_places(entries, more)?;
    match reserve_all_names(entries, more) {
        Ok(()) => Ok(room),
        Err(err) => {
            close_all(entries);
            Err(err)
        }
    }
}
