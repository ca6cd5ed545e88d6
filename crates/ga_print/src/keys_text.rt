ghost use Rattle.std.specs.Prelude.{◌≡◌, ◌++◌, IfOk, OnOk};
ghost use Rattle.ga_print.specs.Csv.{line};
ghost use Rattle.ga_print.specs.Keys.{fields_of, key_header, key_lines, keys_text};
ghost use Rattle.ga_print.specs.Steps.Writing.{HasWritten};

use crate::csv_text::{finish, new_writer, write_fields};
use crate::panel_name::panel_name;
use csv::Writer;
use ga_base::{Bytes, Key, NoMemory, Sums};
use ga_summary::Summary;
use itoa::Buffer;
use std::alloc::Global;

/// What is counted under each key of a summary as CSV (own profile), key by key in their order.
#[tactic(auto, unfolding(crate::specs::Keys::keys_text))]
pub fn keys_csv(alloc: Global, summary: &Summary) -> Result<Bytes, NoMemory>
    ensures { IfOk result (λ text. text ≡ keys_text summary.now) }
{
    let mut writer = new_writer(alloc);
    write_key_header(&mut writer)?;
    write_keys(&mut writer, summary)?;
    Ok(Bytes::from(finish(writer)?))
}

fn write_key_header(writer: &mut Writer<Vec<u8>>) -> Result<(), NoMemory>
    ensures { OnOk result ((text : _) → HasWritten text writer.old → HasWritten (text ++ line key_header) writer.new) }
{
    write_fields(
        writer,
        &[
            b"panel",
            b"date",
            b"parent",
            b"data",
            b"method",
            b"protocol",
            b"hits",
            b"bytes",
            b"micros",
            b"max_micros",
            b"visitors",
        ],
    )
}

/// Writes the rows of all keys.
fn write_keys(writer: &mut Writer<Vec<u8>>, summary: &Summary) -> Result<(), NoMemory>
    ensures { OnOk result ((text : _) → HasWritten text writer.old → HasWritten (text ++ key_lines summary.now.rows) writer.new) }
{
    let mut at = 0;
    while at < summary.len() {
        let row = summary.row(at);
        let panel = panel_name(row.key.panel).as_bytes();
        write_key(writer, panel, row.key, row.sums, row.names.items().len())?;
        at += 1;
    }
    Ok(())
}

/// Writes the row of a key with these sums and this many visitors.
fn write_key<'a>(
    writer: &mut Writer<Vec<u8>>,
    panel: &'a [u8],
    key: &'a Key,
    sums: Sums,
    visitors: usize,
) -> Result<(), NoMemory>
    ensures { OnOk result ((text : _) → HasWritten text writer.old → HasWritten (text ++ line (fields_of panel.now key.now sums visitors)) writer.new) }
{
    let mut date_digits = Buffer::new();
    let mut hits_digits = Buffer::new();
    let mut bytes_digits = Buffer::new();
    let mut sum_digits = Buffer::new();
    let mut greatest_digits = Buffer::new();
    let mut visitors_digits = Buffer::new();
    let date = date_digits.format(key.date).as_bytes();
    let parent = key.parent.bytes();
    let label = key.label.bytes();
    let method = key.method.bytes();
    let protocol = key.protocol.bytes();
    let hits = hits_digits.format(sums.hits).as_bytes();
    let bytes = bytes_digits.format(sums.bytes).as_bytes();
    let sum = sum_digits.format(sums.micros).as_bytes();
    let greatest = greatest_digits.format(sums.max_micros).as_bytes();
    let visitors = visitors_digits.format(visitors).as_bytes();
    write_fields(
        writer,
        &[
            panel, date, parent, label, method, protocol, hits, bytes, sum, greatest, visitors,
        ],
    )
}
