ghost use Rattle.std.specs.Prelude.{◌≡◌, ◌*◌, ◌<◌, ◌^◌, ℕ, Vec, IfOk, length, slice_index_or, vec_len};
ghost use Rattle.std.specs.List.Sorted.{IsPermutation, IsSorted};
ghost use Rattle.ga_base.specs.Orders.{key_cmp, name_cmp};
ghost use Rattle.ga_base.specs.declared.name.Name.{Name as TheName};
ghost use Rattle.ga_pool.specs.Steps.CountedRows.{IsRowOf, names_under};
ghost use Rattle.ga_summary.specs.SummaryParts.{row_of_part};

use crate::Counted;
use ga_base::laws::{key_order, name_order};
use ga_base::{Key, Name, Names, NoMemory, Sums};
use ga_summary::PartRow;
use std::alloc::Global;
use std::cmp::Ordering;

/// The row of each key's number, with these names.
pub(crate) fn rows_of(
    alloc: Global,
    counted: &Counted,
    names: Vec<Vec<Name>>,
) -> Result<Vec<PartRow>, NoMemory>
    requires len { vec_len names ≡ length counted.now.keys.items }
    requires fits { 3 * length counted.now.keys.items < 2 ^ 32 }
    requires words { length counted.now.counts.sums ≡ 3 * length counted.now.keys.items }
    requires maxima { length counted.now.counts.maxima ≡ length counted.now.keys.items }
    requires each { (k : ℕ) (d : Vec TheName Global) → k < vec_len names → (slice_index_or names.items k d).items ≡ names_under counted.now.visitors.items k counted.now.pairs }
    ensures len { IfOk result (λ rows. vec_len rows ≡ length counted.now.keys.items) }
    ensures each { IfOk result (λ rows. (k : ℕ) (d : PartRow) → k < vec_len rows → IsRowOf counted.now k (row_of_part (slice_index_or rows.items k d))) }
{
    let mut rows = Vec::with_capacity(alloc, names.len())?;
    let mut number = 0;
    for its_names in names {
        rows.push(row_of(counted, number, its_names)?)?;
        number += 1;
    }
    Ok(rows)
}

/// The row of a key's number.
fn row_of(counted: &Counted, number: u32, names: Vec<Name>) -> Result<PartRow, NoMemory>
    requires number { number < length counted.now.keys.items }
    requires fits { 3 * length counted.now.keys.items < 2 ^ 32 }
    requires words { length counted.now.counts.sums ≡ 3 * length counted.now.keys.items }
    requires maxima { length counted.now.counts.maxima ≡ length counted.now.keys.items }
    requires names { names.items ≡ names_under counted.now.visitors.items number counted.now.pairs }
    ensures { IfOk result (λ row. IsRowOf counted.now number (row_of_part row)) }
{
    let key = counted.keys.item(number).clone()?;
    let word = 3 * number;
    Ok(PartRow {
        key,
        sums: Sums {
            hits: counted.counts.sum(word),
            bytes: counted.counts.sum(word + 1),
            micros: counted.counts.sum(word + 2),
            max_micros: counted.counts.maximum(number),
        },
        names: Names::from(sorted_names(names)),
    })
}

/// Names in order.
fn sorted_names(names: Vec<Name>) -> Vec<Name>
    ensures same { IsPermutation names.items result.items }
    ensures sorted { IsSorted name_cmp result.items }
{
    let mut names = names;
    names.sort_unstable_by(|a, b| compare_names(a, b));
    names
}

/// How two names are ordered.
fn compare_names(a: &Name, b: &Name) -> Ordering
    ensures { result ≡ name_cmp a.now b.now }
{
    name_order();
    a.cmp(b)
}

/// Rows in the order of their keys.
pub(crate) fn sorted_rows(rows: Vec<PartRow>) -> Vec<PartRow>
    ensures same { IsPermutation rows.items result.items }
    ensures sorted { IsSorted (λ a b. key_cmp a.key b.key) result.items }
{
    let mut rows = rows;
    rows.sort_unstable_by(|a, b| compare_keys(&a.key, &b.key));
    rows
}

/// How two keys are ordered.
fn compare_keys(a: &Key, b: &Key) -> Ordering
    ensures { result ≡ key_cmp a.now b.now }
{
    key_order();
    a.cmp(b)
}
