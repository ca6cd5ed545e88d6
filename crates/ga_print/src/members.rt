ghost use Rattle.std.specs.Prelude.{◌≡◌, IfOk, OnOk};
ghost use Rattle.serde_json.specs.Data.{number, unsigned, string, put as with_member};
ghost use Rattle.serde_json.specs.View.{members_view, view};
ghost use Rattle.ga_print.specs.Json.{put_all, share_of, where_present};

use crate::percent::percent_text;
use ga_base::{NoMemory, Text};
use serde_json::{Map, Value};
use std::alloc::Global;

/// The members of an object.
pub(crate) type Members = Map<String, Value>;

/// Puts a member into an object.
pub(crate) fn put(
    members: &mut Members,
    alloc: Global,
    name: &str,
    value: Value,
) -> Result<(), NoMemory>
    ensures { OnOk result (members_view members.new.entries ≡ with_member name.now (view value) (members_view members.old.entries)) }
{
    serde_json::put(members, alloc, name, value)?;
    Ok(())
}

/// Puts a number.
pub(crate) fn put_count(
    members: &mut Members,
    alloc: Global,
    name: &str,
    n: u64,
) -> Result<(), NoMemory>
    ensures { OnOk result (members_view members.new.entries ≡ with_member name.now (number (unsigned n)) (members_view members.old.entries)) }
{
    put(members, alloc, name, Value::from(n))
}

/// Puts a text.
pub(crate) fn put_text(
    members: &mut Members,
    alloc: Global,
    name: &str,
    text: &str,
) -> Result<(), NoMemory>
    ensures { OnOk result (members_view members.new.entries ≡ with_member name.now (string text.now) (members_view members.old.entries)) }
{
    put(members, alloc, name, Value::try_from_str(alloc, text)?)
}

/// Puts a text that isn't empty.
pub(crate) fn put_present(
    members: &mut Members,
    alloc: Global,
    name: &str,
    text: &Text,
) -> Result<(), NoMemory>
    ensures { OnOk result (members_view members.new.entries ≡ put_all (members_view members.old.entries) (where_present name.now text.now)) }
{
    if text.bytes().is_empty() {
        Ok(())
    } else {
        put_text(members, alloc, name, text.as_str())
    }
}

/// Puts a number with its share of the whole.
pub(crate) fn put_share(
    members: &mut Members,
    alloc: Global,
    name: &str,
    n: u64,
    hundredths: u64,
) -> Result<(), NoMemory>
    ensures { OnOk result (members_view members.new.entries ≡ with_member name.now (share_of n hundredths) (members_view members.old.entries)) }
{
    put(members, alloc, name, share(alloc, n, hundredths)?)
}

/// A number with its share of the whole.
#[tactic(auto, unfolding(crate::specs::Json::object_of))]
fn share(alloc: Global, n: u64, hundredths: u64) -> Result<Value, NoMemory>
    ensures { IfOk result (λ value. view value ≡ share_of n hundredths) }
{
    let mut members = Members::new(alloc);
    put_count(&mut members, alloc, "count", n)?;
    let percent = percent_text(alloc, hundredths)?;
    put(&mut members, alloc, "percent", Value::from(percent))?;
    Ok(Value::from(members))
}
