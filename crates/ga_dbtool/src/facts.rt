ghost use Rattle.std.specs.Prelude.{◌≡◌, ◌++◌, length, IfOk, OnOk};
ghost use Rattle.ga_dbtool.specs.Texts.{facts_text, number_line};

use ga_base::{Bytes, Entries, NoMemory};
use ga_summary::Summary;
use itoa::Buffer;
use std::alloc::Global;

/// How much is in a database: a line for each number.
#[tactic(auto, unfolding(crate::specs::Texts::facts_text))]
pub(crate) fn facts_text(
    alloc: Global,
    generation: u64,
    records: u64,
    summary: &Summary,
    entries: &Entries,
) -> Result<Bytes, NoMemory>
    ensures { IfOk result (λ text. text ≡ facts_text generation records summary.now (length entries.now)) }
{
    let totals = summary.totals();
    let mut text = Vec::new(alloc);
    put_number(&mut text, b"generation ", generation)?;
    put_number(&mut text, b"records ", records)?;
    put_number(&mut text, b"lines ", totals.lines)?;
    put_number(&mut text, b"failed ", totals.failed)?;
    put_number(&mut text, b"excluded ", totals.excluded)?;
    put_number(&mut text, b"keys ", summary.len())?;
    put_number(&mut text, b"entries ", entries.items().len() as u64)?;
    Ok(Bytes::from(text))
}

/// Adds a line of a name and a number.
fn put_number(text: &mut Vec<u8>, name: &[u8], n: u64) -> Result<(), NoMemory>
    ensures { OnOk result (text.new.items ≡ text.old.items ++ number_line name.now n) }
{
    let mut digits = Buffer::new();
    text.extend_from_slice(name)?;
    text.extend_from_slice(digits.format(n).as_bytes())?;
    text.extend_from_slice(b"\n")?;
    Ok(())
}
