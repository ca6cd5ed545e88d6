ghost use Rattle.std.specs.Prelude.{◌≡◌, ◌+◌, ◌≤◌, OnOk, IfOk, length, vec_capacity};
ghost use Rattle.std.specs.List.Sorted.{IsStrictlySortedBy};
ghost use Rattle.ga_base.specs.Orders.{name_cmp};
ghost use Rattle.ga_summary.specs.SummaryRows.{amounts_of, sums_plus};
ghost use Rattle.ga_summary.specs.Steps.Entries.{IsClosed, entry_names, names_beside, row_of};
ghost use Rattle.ga_summary.specs.Steps.Joined.{joined, put_names};
ghost use Rattle.ga_summary.specs.Steps.Room.{CanGrow, CanTake, HasNameRoom, SumsFit};

use crate::names::unite;
use crate::one_pass::merge_names;
use ga_base::{Amounts, Key, Name, Names, NoMemory, Sums};
use std::alloc::{AllocError, Global};
use std::mem::replace;

/// What is counted under a key: its sums, and the names of its visitors, which rise.
#[derive(Debug, Drop)]
pub(crate) struct Entry {
    pub(crate) key: Key,
    pub(crate) sums: Sums,
    pub(crate) names: Names,
    /// Room that was reserved for more names. It holds none, but while the entry is open it holds all names, and `names` none.
    pub(crate) work: Vec<Name>,
}

/// This many names are put in their places one by one; more come in by one pass over all.
const FEW_NAMES: usize = 8;

impl Entry {
    /// A closed entry.
    pub(crate) fn of(alloc: Global, key: Key, sums: Sums, names: Names) -> Entry
        ensures row { row_of result ≡ record { key = key; sums = sums; names = names } }
        ensures closed { IsClosed result }
    {
        Entry {
            key,
            sums,
            names,
            work: Vec::new(alloc),
        }
    }

    /// The names of the key's visitors.
    pub(crate) fn names(&self) -> &[Name]
        ensures { result.now ≡ entry_names self.now }
    {
        if self.work.is_empty() {
            self.names.items()
        } else {
            &self.work
        }
    }

    /// What is told of the key.
    pub(crate) fn amounts(&self) -> Amounts
        ensures { result ≡ amounts_of (row_of self.now) }
    {
        Amounts {
            hits: self.sums.hits,
            bytes: self.sums.bytes,
            micros: self.sums.micros,
            max_micros: self.sums.max_micros,
            visitors: self.names().len() as u64,
        }
    }

    /// A closed entry with the row of this one, which is closed.
    pub(crate) fn copy(&self) -> Result<Entry, AllocError>
        requires { IsClosed self.now }
        ensures row { IfOk result (λ e. row_of e ≡ row_of self.now) }
        ensures closed { IfOk result (λ e. IsClosed e) }
    {
        let names = self.names.clone()?;
        Ok(Entry::of(*self.work.allocator(), self.key.clone()?, self.sums, names))
    }

    /// Moves the names to where room for more can be reserved.
    fn open_names(&mut self)
        ensures row { row_of self.new ≡ row_of self.old }
        ensures names { entry_names self.new ≡ self.new.work.items }
    {
        if self.work.is_empty() {
            let names = replace(&mut self.names, Names::new(*self.work.allocator()));
            self.work = names.into_vec();
        }
    }

    /// Moves the names back.
    pub(crate) fn close(&mut self)
        ensures row { row_of self.new ≡ row_of self.old }
        ensures closed { IsClosed self.new }
    {
        if !self.work.is_empty() {
            let alloc = *self.work.allocator();
            self.names = Names::from(replace(&mut self.work, Vec::new(alloc)));
        }
    }

    /// Reserves room for the names of another entry: where they are, or for many names in a list of its own, for one pass
    /// over all.
    pub(crate) fn reserve(&mut self, more: &Entry) -> Result<(), NoMemory>
        ensures row { row_of self.new ≡ row_of self.old }
        ensures ok { OnOk result (HasNameRoom self.new more.now) }
        ensures capacity { OnOk result (vec_capacity self.old.work ≤ vec_capacity self.new.work) }
    {
        let count = more.names.items().len();
        let all = self.names().len() + count;
        if all <= self.work.capacity() {
            return Ok(());
        }
        if count > FEW_NAMES && self.work.is_empty() {
            self.work = Vec::with_capacity(*self.work.allocator(), all)?;
            return Ok(());
        }
        self.open_names();
        self.work.reserve(count)?;
        Ok(())
    }

    /// Takes what another entry of the key has, and closes.
    pub(crate) fn take(&mut self, more: Entry)
        requires { CanTake self.old more }
        ensures row { row_of self.new ≡ joined (row_of self.old) (row_of more) }
        ensures closed { IsClosed self.new }
    {
        self.sums = add_sums(self.sums, more.sums);
        let alloc = *self.work.allocator();
        let names = replace(&mut self.names, Names::new(alloc));
        let work = replace(&mut self.work, Vec::new(alloc));
        self.names = Names::from(joined_names(names, more.names, work));
    }

    /// A closed entry with what this one and another of its key have, whose list of names is made for both.
    pub(crate) fn join(self, more: Entry) -> Result<Entry, NoMemory>
        requires grows { CanGrow self }
        requires grows_more { CanGrow more }
        ensures row { IfOk result (λ e. row_of e ≡ joined (row_of self) (row_of more)) }
        ensures closed { IfOk result (λ e. IsClosed e) }
    {
        let alloc = *self.work.allocator();
        let names = self.names.into_vec();
        let others = more.names.into_vec();
        let room = Vec::with_capacity(alloc, names.len() + others.len())?;
        let names = Names::from(merge_names(names, others, room));
        Ok(Entry::of(alloc, self.key, add_sums(self.sums, more.sums), names))
    }
}

/// Names with others: the first are in `work`, or `work` holds none and has room for all.
fn joined_names(names: Names, more: Names, mut work: Vec<Name>) -> Vec<Name>
    requires rising { IsStrictlySortedBy name_cmp (names_beside names work.items) }
    requires rising_more { IsStrictlySortedBy name_cmp more }
    requires room { length (names_beside names work.items) + length more ≤ vec_capacity work }
    ensures { result.items ≡ put_names more (names_beside names work.items) }
{
    let more = more.into_vec();
    if work.is_empty() {
        return merge_names(names.into_vec(), more, work);
    }
    unite(&mut work, more);
    work
}

fn add_sums(a: Sums, b: Sums) -> Sums
    requires { SumsFit a b }
    ensures { result ≡ sums_plus a b }
{
    Sums {
        hits: a.hits + b.hits,
        bytes: a.bytes + b.bytes,
        micros: a.micros + b.micros,
        max_micros: a.max_micros.max(b.max_micros),
    }
}
