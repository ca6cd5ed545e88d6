ghost use Rattle.std.specs.Prelude.{◌≡◌, ◌≤◌, All, IfOk, OnOk, map};
ghost use Rattle.serde_json.specs.Data.{no_members};
ghost use Rattle.serde_json.specs.View.{members_view, view};
ghost use Rattle.ga_report.specs.Printable.{HasHits};
ghost use Rattle.ga_print.specs.Json.{children_of, general_tree, item_members, item_tree, put_all, row_tree};

use crate::members::{Members, put, put_count, put_present, put_share, put_text};
use ga_base::NoMemory;
use ga_report::{General, Item, Row};
use serde_json::Value;
use std::alloc::Global;

/// The tree of the general numbers.
#[tactic(auto, unfolding(crate::specs::Json::general_tree, crate::specs::Json::object_of))]
pub(crate) fn general_tree(alloc: Global, general: &General) -> Result<Value, NoMemory>
    ensures { IfOk result (λ tree. view tree ≡ general_tree general.now) }
{
    let mut members = Members::new(alloc);
    put_count(&mut members, alloc, "bandwidth", general.bandwidth)?;
    put_count(&mut members, alloc, "excluded_hits", general.excluded_hits)?;
    put_count(
        &mut members,
        alloc,
        "failed_requests",
        general.failed_requests,
    )?;
    put_count(
        &mut members,
        alloc,
        "total_requests",
        general.total_requests,
    )?;
    put_count(
        &mut members,
        alloc,
        "unique_visitors",
        general.unique_visitors,
    )?;
    put_count(
        &mut members,
        alloc,
        "valid_requests",
        general.valid_requests,
    )?;
    Ok(Value::from(members))
}

/// The tree of a row, with its children in a panel with groups.
pub(crate) fn row_tree(alloc: Global, groups: bool, row: &Row) -> Result<Value, NoMemory>
    requires { HasHits row.now }
    ensures { IfOk result (λ tree. view tree ≡ row_tree groups row.now) }
{
    let mut members = item_members(alloc, &row.item)?;
    put_children(&mut members, alloc, groups, row.children.items())?;
    Ok(Value::from(members))
}

/// Puts the children of a row of a panel with groups.
fn put_children(
    members: &mut Members,
    alloc: Global,
    groups: bool,
    children: &[Item],
) -> Result<(), NoMemory>
    requires { All (λ item. 1 ≤ item.hits) children.now }
    ensures { OnOk result (members_view members.new.entries ≡ put_all (members_view members.old.entries) (children_of groups children.now)) }
{
    if !groups {
        return Ok(());
    }
    let trees = item_trees(alloc, children)?;
    put(members, alloc, "items", Value::from(trees))
}

/// The trees of items.
fn item_trees(alloc: Global, items: &[Item]) -> Result<Vec<Value>, NoMemory>
    requires { All (λ item. 1 ≤ item.hits) items.now }
    ensures { IfOk result (λ trees. map view trees.items ≡ map item_tree items.now) }
{
    let mut trees = Vec::new(alloc);
    for item in items {
        trees.push(item_tree(alloc, item)?)?;
    }
    Ok(trees)
}

/// The tree of an item.
#[tactic(auto, unfolding(crate::specs::Json::item_tree, crate::specs::Json::object_of))]
fn item_tree(alloc: Global, item: &Item) -> Result<Value, NoMemory>
    requires { 1 ≤ item.now.hits }
    ensures { IfOk result (λ tree. view tree ≡ item_tree item.now) }
{
    Ok(Value::from(item_members(alloc, item)?))
}

/// The members of an item's tree.
fn item_members(alloc: Global, item: &Item) -> Result<Members, NoMemory>
    requires { 1 ≤ item.now.hits }
    ensures { IfOk result (λ members. members_view members.entries ≡ put_all no_members (item_members item.now)) }
{
    let mut members = Members::new(alloc);
    put_count(&mut members, alloc, "avgts", item.micros / item.hits)?;
    put_share(&mut members, alloc, "bytes", item.bytes, item.bytes_percent)?;
    put_count(&mut members, alloc, "cumts", item.micros)?;
    put_text(&mut members, alloc, "data", item.label.as_str())?;
    put_share(&mut members, alloc, "hits", item.hits, item.hits_percent)?;
    put_count(&mut members, alloc, "maxts", item.max_micros)?;
    put_share(
        &mut members,
        alloc,
        "visitors",
        item.visitors,
        item.visitors_percent,
    )?;
    put_present(&mut members, alloc, "method", &item.method)?;
    put_present(&mut members, alloc, "protocol", &item.protocol)?;
    Ok(members)
}
