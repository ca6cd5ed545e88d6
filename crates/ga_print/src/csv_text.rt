ghost use Rattle.std.specs.Prelude.{◌≡◌, ◌++◌, ◌+◌, ◌*◌, ◌^◌, ◌<◌, ◌≤◌, [], All, IfOk, OnOk, codes, decimal, length, map, suc};
ghost use Rattle.csv.specs.Writing.{row_text, default_writer};
ghost use Rattle.ga_report.specs.Printable.{HasHits, IsPrintable};
ghost use Rattle.ga_print.specs.Csv.{child_lines, csv_text, general_fields, general_lines, header_fields, item_fields, line, panel_lines, row_lines};
ghost use Rattle.ga_print.specs.Steps.Shares.{AreShares};
ghost use Rattle.ga_print.specs.Steps.Writing.{HasWritten};

use crate::panel_name::panel_name;
use crate::percent::percent_text;
use csv::{Writer, WriterBuilder};
use ga_base::{Bytes, NoMemory};
use ga_report::{General, Item, PanelList, Report, Row};
use itoa::Buffer;
use std::alloc::Global;

/// The report as CSV (own profile).
#[tactic(auto, unfolding(crate::specs::Csv::csv_text))]
pub fn csv(alloc: Global, report: &Report) -> Result<Bytes, NoMemory>
    requires { IsPrintable report.now }
    ensures { IfOk result (λ text. text ≡ csv_text report.now) }
{
    let mut writer = new_writer(alloc);
    write_header(&mut writer)?;
    write_general(&mut writer, &report.general)?;
    write_panels(&mut writer, alloc, report.panels.items())?;
    Ok(Bytes::from(finish(writer)?))
}

pub(crate) fn new_writer(alloc: Global) -> Writer<Vec<u8>>
    ensures { HasWritten [] result }
{
    WriterBuilder::new().from_writer(Vec::new(alloc))
}

/// The text that was written.
pub(crate) fn finish(writer: Writer<Vec<u8>>) -> Result<Vec<u8>, NoMemory>
    ensures { IfOk result (λ text. (written : _) → HasWritten written writer → text.items ≡ written) }
{
    match writer.into_inner() {
        Ok(text) => Ok(text),
        Err(_) => Err(NoMemory),
    }
}

fn write_header(writer: &mut Writer<Vec<u8>>) -> Result<(), NoMemory>
    ensures { OnOk result ((text : _) → HasWritten text writer.old → HasWritten (text ++ line header_fields) writer.new) }
{
    write_fields(
        writer,
        &[
            b"id",
            b"parent_id",
            b"panel",
            b"hits",
            b"hits%",
            b"visitors",
            b"visitors%",
            b"bytes",
            b"bytes%",
            b"avgts",
            b"cumts",
            b"maxts",
            b"method",
            b"protocol",
            b"data",
        ],
    )
}

/// Writes the general numbers, a row each.
fn write_general(writer: &mut Writer<Vec<u8>>, general: &General) -> Result<(), NoMemory>
    ensures { OnOk result ((text : _) → HasWritten text writer.old → HasWritten (text ++ general_lines general.now) writer.new) }
{
    write_number(writer, 0, general.total_requests, b"total_requests")?;
    write_number(writer, 1, general.valid_requests, b"valid_requests")?;
    write_number(writer, 2, general.failed_requests, b"failed_requests")?;
    write_number(writer, 3, general.excluded_hits, b"excluded_hits")?;
    write_number(writer, 4, general.unique_visitors, b"unique_visitors")?;
    write_number(writer, 5, general.bandwidth, b"bandwidth")?;
    Ok(())
}

/// Writes a general number.
fn write_number(writer: &mut Writer<Vec<u8>>, id: u64, n: u64, name: &[u8]) -> Result<(), NoMemory>
    ensures { OnOk result ((text : _) → HasWritten text writer.old → HasWritten (text ++ line (general_fields id n name.now)) writer.new) }
{
    let mut id_digits = Buffer::new();
    let mut digits = Buffer::new();
    let id = id_digits.format(id).as_bytes();
    let n = digits.format(n).as_bytes();
    write_fields(
        writer,
        &[
            id, b"", b"general", n, b"", b"", b"", b"", b"", b"", b"", b"", b"", b"", name,
        ],
    )
}

/// Writes the rows of the panels.
fn write_panels(
    writer: &mut Writer<Vec<u8>>,
    alloc: Global,
    lists: &[PanelList],
) -> Result<(), NoMemory>
    requires { All (λ list. All HasHits list.rows) lists.now }
    ensures { OnOk result ((text : _) → HasWritten text writer.old → HasWritten (text ++ panel_lines lists.now) writer.new) }
{
    for list in lists {
        write_rows(
            writer,
            alloc,
            panel_name(list.panel).as_bytes(),
            list.rows.items(),
        )?;
    }
    Ok(())
}

/// Writes the rows of a panel, with ids from 0 on.
fn write_rows(
    writer: &mut Writer<Vec<u8>>,
    alloc: Global,
    panel: &[u8],
    rows: &[Row],
) -> Result<(), NoMemory>
    requires { All HasHits rows.now }
    ensures { OnOk result ((text : _) → HasWritten text writer.old → HasWritten (text ++ row_lines panel.now 0 rows.now) writer.new) }
{
    // A list has fewer than 2^64 elements, so that no number of rows with their children is too great.
    let mut id: u128 = 0;
    for row in rows {
        write_item(writer, alloc, panel, id, b"", &row.item)?;
        write_children(writer, alloc, panel, id, row.children.items())?;
        id = id + 1 + row.children.items().len() as u128;
    }
    Ok(())
}

/// Writes the children of a row.
fn write_children(
    writer: &mut Writer<Vec<u8>>,
    alloc: Global,
    panel: &[u8],
    parent_id: u128,
    children: &[Item],
) -> Result<(), NoMemory>
    requires hits { All (λ item. 1 ≤ item.hits) children.now }
    requires room { parent_id + length children.now < 2 ^ 128 }
    ensures { OnOk result ((text : _) → HasWritten text writer.old
        → HasWritten (text ++ child_lines panel.now parent_id (suc parent_id) children.now) writer.new) }
{
    let mut digits = Buffer::new();
    let parent = digits.format(parent_id).as_bytes();
    let mut id = parent_id;
    for child in children {
        id += 1;
        write_item(writer, alloc, panel, id, parent, child)?;
    }
    Ok(())
}

/// Writes the row of an item.
fn write_item(
    writer: &mut Writer<Vec<u8>>,
    alloc: Global,
    panel: &[u8],
    id: u128,
    parent_id: &[u8],
    item: &Item,
) -> Result<(), NoMemory>
    requires { 1 ≤ item.now.hits }
    ensures { OnOk result ((text : _) → HasWritten text writer.old
        → HasWritten (text ++ line (item_fields panel.now id parent_id.now item.now)) writer.new) }
{
    let shares = shares_of(alloc, item)?;
    write_with_shares(writer, panel, id, parent_id, item, &shares)
}

/// An item's shares, as they are printed.
#[derive(Debug, Drop)]
struct Shares {
    hits: String,
    visitors: String,
    bytes: String,
}

fn shares_of(alloc: Global, item: &Item) -> Result<Shares, NoMemory>
    ensures { IfOk result (AreShares item.now) }
{
    Ok(Shares {
        hits: percent_text(alloc, item.hits_percent)?,
        visitors: percent_text(alloc, item.visitors_percent)?,
        bytes: percent_text(alloc, item.bytes_percent)?,
    })
}

/// Writes the row of an item with these shares.
fn write_with_shares<'a>(
    writer: &mut Writer<Vec<u8>>,
    panel: &'a [u8],
    id: u128,
    parent_id: &'a [u8],
    item: &'a Item,
    shares: &'a Shares,
) -> Result<(), NoMemory>
    requires hits { 1 ≤ item.now.hits }
    requires shares { AreShares item.now shares.now }
    ensures { OnOk result ((text : _) → HasWritten text writer.old
        → HasWritten (text ++ line (item_fields panel.now id parent_id.now item.now)) writer.new) }
{
    let mut id_digits = Buffer::new();
    let mut hits_digits = Buffer::new();
    let mut visitors_digits = Buffer::new();
    let mut bytes_digits = Buffer::new();
    let mut average_digits = Buffer::new();
    let mut sum_digits = Buffer::new();
    let mut greatest_digits = Buffer::new();
    let id = id_digits.format(id).as_bytes();
    let hits = hits_digits.format(item.hits).as_bytes();
    let hits_share = shares.hits.as_bytes();
    let visitors = visitors_digits.format(item.visitors).as_bytes();
    let visitors_share = shares.visitors.as_bytes();
    let bytes = bytes_digits.format(item.bytes).as_bytes();
    let bytes_share = shares.bytes.as_bytes();
    let average = average_digits.format(item.micros / item.hits).as_bytes();
    let sum = sum_digits.format(item.micros).as_bytes();
    let greatest = greatest_digits.format(item.max_micros).as_bytes();
    let method = item.method.bytes();
    let protocol = item.protocol.bytes();
    let label = item.label.bytes();
    write_fields(
        writer,
        &[
            id,
            parent_id,
            panel,
            hits,
            hits_share,
            visitors,
            visitors_share,
            bytes,
            bytes_share,
            average,
            sum,
            greatest,
            method,
            protocol,
            label,
        ],
    )
}

/// Writes a row of these fields.
pub(crate) fn write_fields(writer: &mut Writer<Vec<u8>>, fields: &[&[u8]]) -> Result<(), NoMemory>
    ensures { OnOk result ((text : _) → HasWritten text writer.old → HasWritten (text ++ row_text default_writer (map (λ field. field.now) fields.now)) writer.new) }
{
    match writer.write_fields(fields) {
        Ok(()) => Ok(()),
        Err(_) => Err(NoMemory),
    }
}
