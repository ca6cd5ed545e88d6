ghost use Rattle.std.specs.Prelude.{◌≡◌, ◌==◌, if◌then◌else◌};
ghost use Rattle.ga_summary.specs.LastDays.{last_rows};
ghost use Rattle.ga_summary.specs.Sound.{RowsAreSound};
ghost use Rattle.ga_summary.specs.Steps.Entries.{AllClosed, rows_of};
ghost use Rattle.ga_summary.specs.Steps.LastDays.{IsBar, IsDayAt, count_days as many_days};
ghost use Rattle.ga_summary.specs.SummaryRows.{IsInOrder};

use crate::entry::Entry;
use crate::order::same_panel;
use ga_base::Panel;

/// Keeps the entries of the last days alone, this many of those that they have, or all where this is 0.
pub(crate) fn keep_last(entries: &mut Vec<Box<Entry>>, keep: u32)
    requires ordered { IsInOrder (rows_of entries.old.items) }
    requires sound { RowsAreSound (rows_of entries.old.items) }
    ensures rows { rows_of entries.new.items ≡ (if keep == 0 then rows_of entries.old.items else last_rows keep (rows_of entries.old.items)) }
    ensures closed { AllClosed entries.old.items → AllClosed entries.new.items }
{
    let bar = first_kept(entries, keep);
    if bar > 0 {
        entries.retain(|entry| entry.key.date >= bar);
    }
}

/// The first of the last days, this many of those that the entries have; 0 where all are kept.
fn first_kept(entries: &[Box<Entry>], keep: u32) -> u32
    requires ordered { IsInOrder (rows_of entries.now) }
    requires sound { RowsAreSound (rows_of entries.now) }
    ensures { IsBar keep (rows_of entries.now) result }
{
    let days = count_days(entries);
    let keep = keep as usize;
    if keep == 0 || days <= keep {
        return 0;
    }
    day_at(entries, days - keep)
}

/// How many days the entries have. They stand in front.
fn count_days(entries: &[Box<Entry>]) -> usize
    requires { IsInOrder (rows_of entries.now) }
    ensures { result ≡ many_days (rows_of entries.now) }
{
    let mut days = 0;
    for entry in entries {
        if !same_panel(entry.key.panel, Panel::Visitors) {
            return days;
        }
        if entry.key.is_day() {
            days += 1;
        }
    }
    days
}

/// The day at a place among the days of the entries, from 0; 0 where there are no more than this many.
fn day_at(entries: &[Box<Entry>], place: usize) -> u32
    ensures { IsDayAt (rows_of entries.now) place result }
{
    let mut left = place;
    for entry in entries {
        if entry.key.is_day() {
            if left == 0 {
                return entry.key.date;
            }
            left -= 1;
        }
    }
    0
}
