ghost use Rattle.std.specs.Prelude.{◌<◌, ◌≤◌, ◌+◌, ◌^◌, length};

use crate::VisitorRow;
use crate::remapped_tally::RemappedTally;
use ga_base::NoMemory;

/// This many of the first rows are weighed, and about as many of those after them, as far from one another as they can be.
const WEIGHED: usize = 2_048;

/// A key, by its number here, and what those weigh for which it stands.
#[derive(Clone, Copy, Debug, PartialEq, Eq, PartialOrd, Ord)]
pub(crate) struct Weight {
    /// The key's number.
    number: u32,
    /// A row weighs what it has visitors, and one more.
    weight: usize,
}

/// What keys of another weigh, by their numbers here, which rise.
pub(crate) fn weights_of(remapped: &RemappedTally) -> Result<Vec<Weight>, NoMemory> {
    let keys = remapped.keys.len();
    let front = keys.min(WEIGHED);
    let step = (keys - front) / WEIGHED + 1;
    let mut weights = Vec::new(*remapped.keys.allocator());
    weigh(&mut weights, remapped, 0, front, 1)?;
    weigh(&mut weights, remapped, front, keys, step)?;
    weights.sort_unstable();
    Ok(weights)
}

/// Weighs the keys of another from one place to a second, each that stands a step after the last for as many.
fn weigh(
    weights: &mut Vec<Weight>,
    remapped: &RemappedTally,
    from: usize,
    to: usize,
    step: usize,
) -> Result<(), NoMemory>
    requires { 0 < step }
{
    for place in (from..to).step_by(step) {
        if let (Some(number), Some(row)) = (
            remapped.keys.get(place),
            remapped.counts.visits.get(place),
        ) {
            let weight = with_row(0, row).saturating_mul(step);
            weights.push(Weight {
                number: *number,
                weight,
            })?;
        }
    }
    Ok(())
}

/// This many parts are made of keys.
const PARTS: usize = 4;

/// How many of this many keys are in each of the parts, which weigh about as much as one another. Nothing but the time that the
/// parts take depends on it.
pub(crate) fn parts_by(weights: &[Weight], many: usize) -> [usize; PARTS] {
    let mut lengths = [0; PARTS];
    let mut first = 0;
    for part in 0..PARTS {
        let length = part_by(weights, first, many - first, PARTS - part);
        lengths[part] = length;
        first += length;
    }
    lengths
}

/// How many of this many keys, from the one with the number `first` on, are in the first of this many parts.
fn part_by(weights: &[Weight], first: usize, many: usize, parts: usize) -> usize
    requires numbers { first + many < 2 ^ 64 }
    requires some { 0 < parts }
    ensures { result ≤ many }
{
    let part = weight_within(weights, first, first + many) / parts;
    let mut before = 0usize;
    for own in weights {
        let number = own.number as usize;
        if number >= first {
            if before >= part {
                return (number - first).min(many);
            }
            before = before.saturating_add(own.weight);
        }
    }
    many
}

/// What keys weigh together whose numbers are from the first to the second of these.
fn weight_within(weights: &[Weight], first: usize, stop: usize) -> usize {
    let mut weight = 0usize;
    for own in weights {
        let number = own.number as usize;
        if number >= first && number < stop {
            weight = weight.saturating_add(own.weight);
        }
    }
    weight
}

/// How many of these rows are in the first of this many parts, which weighs about as much as each of the others. A row weighs what
/// it has visitors, and one more: keys that came first have far more visitors than others. Nothing but the time that the parts take
/// depends on it.
pub fn part_of(rows: &[VisitorRow], parts: usize) -> usize
    requires { 0 < parts }
    ensures { result ≤ length rows.now }
{
    let (front, back) = rows.split_at(rows.len().min(WEIGHED));
    let step = back.len() / WEIGHED + 1;
    let first = weight_of(front, 1);
    let all = first.saturating_add(weight_of(back, step).saturating_mul(step));
    let part = all / parts;
    if part <= first {
        return reach_of(front, 1, part);
    }
    front.len() + reach_of(back, step, (part - first) / step)
}

/// What the first row and each that stands a step after another weigh together.
fn weight_of(rows: &[VisitorRow], step: usize) -> usize
    requires { 0 < step }
{
    let mut weight = 0;
    for place in (0..rows.len()).step_by(step) {
        weight = with_row(weight, &rows[place]);
    }
    weight
}

/// Up to where these rows weigh so much together.
fn reach_of(rows: &[VisitorRow], step: usize, weight: usize) -> usize
    requires { 0 < step }
    ensures { result ≤ length rows.now }
{
    let mut before = 0;
    for place in (0..rows.len()).step_by(step) {
        if before >= weight {
            return place;
        }
        before = with_row(before, &rows[place]);
    }
    rows.len()
}

/// A weight and that of a row.
fn with_row(weight: usize, row: &VisitorRow) -> usize {
    weight.saturating_add(row.len()).saturating_add(1)
}
