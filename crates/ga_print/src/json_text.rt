ghost use Rattle.std.specs.Prelude.{◌≡◌, ◌++◌, ◌∷◌, [], All, IfOk, OnOk, false, map, string_bytes};
ghost use Rattle.serde_json.specs.Data.{string};
ghost use Rattle.serde_json.specs.View.{items_of, members_view};
ghost use Rattle.serde_json.specs.Written.{compact_text, items_text};
ghost use Rattle.ga_report.specs.Printable.{HasHits, IsPrintable};
ghost use Rattle.ga_print.specs.Json.{general_tree, json_text, panel_tree, put_all, row_tree};
ghost use Rattle.ga_print.specs.Steps.Texts.{object_text, panel_text, text_member, texts_text};

use crate::members::{Members, put};
use crate::panel_name::panel_name;
use crate::trees::{general_tree, row_tree};
use ga_base::{Bytes, NoMemory, Panel, map_pieces};
use ga_report::{General, PanelList, Report, Row};
use serde_json::Value;
use std::alloc::Global;
use std::marker::Sync;
use std::thread::Threads;

/// No more panels there are, so that each may be a piece by itself.
const PIECES: u32 = 32;

/// A panel's text.
#[derive(Drop)]
pub(crate) struct PanelText {
    pub(crate) panel: Panel,
    pub(crate) text: String,
}

/// The report as JSON, which ends with a line feed (own profile).
pub fn json(alloc: Global, report: &Report) -> Result<Bytes, NoMemory>
    requires { IsPrintable report.now }
    ensures { IfOk result (λ text. text ≡ json_text report.now) }
{
    let panels = panel_texts(alloc, report.panels.items())?;
    report_text(alloc, report, panels)
}

/// The report as JSON, as `json` writes it. With more jobs than one, the text of each panel is made in a thread of its own.
pub fn json_with<R: Threads + Sync>(
    rt: &R,
    alloc: Global,
    report: &Report,
    jobs: u32,
) -> Result<Bytes, NoMemory>
    requires { IsPrintable report.now }
    ensures { IfOk result (λ text. text ≡ json_text report.now) }
{
    let pieces = if jobs > 1 { PIECES } else { 1 };
    let piece = move |lists: &[PanelList]| -> Result<Vec<PanelText>, NoMemory>
        requires { All (λ list. All HasHits list.rows) lists.now }
        ensures { IfOk result (λ texts. map text_member texts.items ≡ map panel_text lists.now) }
    { panel_texts(alloc, lists) };
    let panels = map_pieces(rt, pieces, 2, report.panels.items(), &piece)?;
    report_text(alloc, report, panels)
}

/// The report as JSON, whose panels have these texts.
#[tactic(auto, unfolding(crate::specs::Json::json_text))]
fn report_text(alloc: Global, report: &Report, panels: Vec<PanelText>) -> Result<Bytes, NoMemory>
    requires { map text_member panels.items ≡ map panel_text report.now.panels }
    ensures { IfOk result (λ text. text ≡ json_text report.now) }
{
    let mut members = Members::new(alloc);
    let general = general_text(alloc, &report.general)?;
    put(&mut members, alloc, "general", Value::from(general))?;
    put_panels(&mut members, alloc, panels)?;
    let mut text = object_text(alloc, &members)?;
    text.push('\n')?;
    Ok(Bytes::from(text.into_bytes()))
}

/// The text of the general numbers.
fn general_text(alloc: Global, general: &General) -> Result<String, NoMemory>
    ensures { IfOk result (λ text. string_bytes text ≡ compact_text (general_tree general.now)) }
{
    Ok(general_tree(alloc, general)?.to_string(alloc)?)
}

/// The texts of panels.
fn panel_texts(alloc: Global, lists: &[PanelList]) -> Result<Vec<PanelText>, NoMemory>
    requires { All (λ list. All HasHits list.rows) lists.now }
    ensures { IfOk result (λ texts. map text_member texts.items ≡ map panel_text lists.now) }
{
    let mut texts = Vec::new(alloc);
    for list in lists {
        let text = text_of(alloc, list)?;
        texts.push(PanelText {
            panel: list.panel,
            text,
        })?;
    }
    Ok(texts)
}

/// The text of a panel. A row's tree is made, written and dropped before the next one's.
#[tactic(auto, unfolding(crate::specs::Json::panel_tree, crate::specs::Json::object_of))]
fn text_of(alloc: Global, list: &PanelList) -> Result<String, NoMemory>
    requires { All HasHits list.now.rows }
    ensures { IfOk result (λ text. string_bytes text ≡ compact_text (panel_tree list.now)) }
{
    let mut text = String::from_str(alloc, "{\"data\":[")?;
    write_rows(&mut text, alloc, list.panel.has_groups(), list.rows.items())?;
    text.push('}')?;
    Ok(text)
}

/// Writes the rows of a panel, and the bracket after them.
fn write_rows(text: &mut String, alloc: Global, groups: bool, rows: &[Row]) -> Result<(), NoMemory>
    requires { All HasHits rows.now }
    ensures { OnOk result (string_bytes text.new ≡ string_bytes text.old ++ items_text false (items_of (map (row_tree groups) rows.now))) }
{
    let mut later = false;
    for row in rows {
        if later {
            text.push(',')?;
        }
        text.push_str(row_text(alloc, groups, row)?.as_str())?;
        later = true;
    }
    text.push(']')?;
    Ok(())
}

/// The text of a row.
fn row_text(alloc: Global, groups: bool, row: &Row) -> Result<String, NoMemory>
    requires { HasHits row.now }
    ensures { IfOk result (λ text. string_bytes text ≡ compact_text (row_tree groups row.now)) }
{
    Ok(row_tree(alloc, groups, row)?.to_string(alloc)?)
}

/// Puts a member for each panel's text.
fn put_panels(members: &mut Members, alloc: Global, panels: Vec<PanelText>) -> Result<(), NoMemory>
    ensures { OnOk result (members_view members.new.entries ≡ put_all (members_view members.old.entries) (map text_member panels.items)) }
{
    for panel in panels {
        put(
            members,
            alloc,
            panel_name(panel.panel),
            Value::from(panel.text),
        )?;
    }
    Ok(())
}

/// The text of an object, each of whose members' values is a text that is written as it is.
fn object_text(alloc: Global, members: &Members) -> Result<String, NoMemory>
    ensures { IfOk result (λ text. string_bytes text ≡ object_text (members_view members.now.entries)) }
{
    let mut text = String::from_str(alloc, "{")?;
    let mut later = false;
    for (name, value) in members {
        if later {
            text.push(',')?;
        }
        text.push_str(quote(alloc, name.as_str())?.as_str())?;
        text.push(':')?;
        text.push_str(value.as_str().unwrap_or(""))?;
        later = true;
    }
    text.push('}')?;
    Ok(text)
}

/// A name as JSON has it.
fn quote(alloc: Global, name: &str) -> Result<String, NoMemory>
    ensures { IfOk result (λ text. string_bytes text ≡ compact_text (string name.now)) }
{
    Ok(Value::try_from_str(alloc, name)?.to_string(alloc)?)
}
