ghost use Rattle.std.specs.Prelude.{◌≡◌, ◌≤◌, IfOk, filter, nat_le};
ghost use Rattle.ga_report.specs.LastDays.{last_rows, trimmed_source};
ghost use Rattle.ga_report.specs.Steps.LastDays.{IsBar, days_of};
ghost use Rattle.ga_report.specs.Steps.RowPlaces.{AreAt};

use crate::panel_places::shown_places;
use crate::{RowRef, RowSource};
use ga_base::{DateSpec, NoMemory, Panel, Totals};
use std::alloc::Global;
use std::marker::Model;

/// The rows of the last days of another source, with its totals: those at a list of places.
#[derive(Drop)]
pub struct LastDays<'a, T: RowSource> {
    source: &'a T,
    /// How many days are kept.
    keep: u32,
    /// Where the rows of these days stand in the source, in its order.
    places: Vec<u64>,
}

impl<'a, T: RowSource> Model for LastDays<'a, T> {
    ghost use Rattle.std.specs.Prelude.{◌≡◌};
    ghost use Rattle.ga_report.specs.LastDays.{last_rows};
    ghost use Rattle.ga_report.specs.Source.{SourceValue};
    ghost use Rattle.ga_report.specs.Steps.RowPlaces.{AreAt};

    ghost Value = { SourceValue };

    ghost view = { λ d. record { totals = (T.view d.source.now).totals; rows = last_rows d.keep (T.view d.source.now).rows } };

    ghost invariant = { λ d. AreAt (T.view d.source.now).rows d.places.items (last_rows d.keep (T.view d.source.now).rows) };
}

/// The last days of a source, this many of those that it has. It takes the time of one look at each row, and the memory of a
/// number for each row of these days and of one for each day.
pub fn last_days<'a, T: RowSource>(
    alloc: Global,
    source: &'a T,
    keep: u32,
) -> Result<LastDays<'a, T>, NoMemory>
    requires { 1 ≤ keep }
    ensures { IfOk result (λ days. days ≡ trimmed_source keep (T.view source.now)) }
{
    let bar = first_kept(alloc, source, keep)?;
    let places = places_from(alloc, source, bar)?;
    Ok(LastDays {
        source,
        keep,
        places,
    })
}

/// The first of the last days, this many of those that the rows have; 0 where there are no more.
fn first_kept<T: RowSource>(alloc: Global, source: &T, keep: u32) -> Result<u32, NoMemory>
    requires { 1 ≤ keep }
    ensures { IfOk result (IsBar keep (T.view source.now).rows) }
{
    // What is known of the totals is that each row's day has a row.
    let _totals = source.totals();
    let mut dates = day_dates(alloc, source)?;
    let keep = keep as usize;
    if dates.len() <= keep {
        return Ok(0);
    }
    dates.sort_unstable();
    Ok(dates[dates.len() - keep])
}

/// The dates of the days.
fn day_dates<T: RowSource>(alloc: Global, source: &T) -> Result<Vec<u32>, NoMemory>
    ensures { IfOk result (λ dates. dates.items ≡ days_of (T.view source.now).rows) }
{
    let days = shown_places(alloc, source, Panel::Visitors, DateSpec::Date)?;
    let mut dates = Vec::new(alloc);
    for day in &days {
        dates.push(source.row(*day).date())?;
    }
    Ok(dates)
}

/// The places of the rows from a date on, in their order.
fn places_from<T: RowSource>(alloc: Global, source: &T, bar: u32) -> Result<Vec<u64>, NoMemory>
    ensures { IfOk result (λ places. AreAt (T.view source.now).rows places.items
        (filter (λ row. nat_le bar row.key.date) (T.view source.now).rows)) }
{
    let mut places = Vec::new(alloc);
    for at in 0..source.len() {
        if source.row(at).date() >= bar {
            places.push(at)?;
        }
    }
    Ok(places)
}

impl<'a, T: RowSource> RowSource for LastDays<'a, T> {
    ghost view = { λ source. source };

    fn totals(&self) -> Totals {
        self.source.totals()
    }

    fn len(&self) -> u64 {
        self.places.len() as u64
    }

    fn at_most(&self, panel: Panel) -> u64 {
        self.source.at_most(panel)
    }

    fn panel(&self, at: u64) -> Panel {
        prove!(at < self.places.len() as u64);
        self.source.panel(self.places[at as usize])
    }

    fn row(&self, at: u64) -> RowRef<'_> {
        prove!(at < self.places.len() as u64);
        self.source.row(self.places[at as usize])
    }
}
