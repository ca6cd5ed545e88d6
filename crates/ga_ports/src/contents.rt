//! The files that forms in memory keep: their names and bytes.

ghost use Rattle.std.specs.Prelude.{◌≡◌, ℕ, ◌-◌, ◌<◌, [], Option, OnOk, OnErr, is_none, length, min};
ghost use Rattle.std.specs.Option.{ForSome, unwrap_or};
ghost use Rattle.ga_ports.specs.Places.{pairs, bytes_at, place_of};
ghost use Rattle.ga_ports.specs.Files.{AreBytesAt};
ghost use Rattle.ga_ports.specs.MemFiles.{bytes_of, grown, renamed};

use ga_base::{NoMemory, Text};
use std::alloc::Global;

/// One file in memory.
#[derive(Debug, Drop)]
pub struct Content {
    pub name: Text,
    pub bytes: Vec<u8>,
}

/// The place of the first file of this name.
pub fn find(contents: &[Content], name: &Text) -> Option<usize>
    ensures place { result ≡ place_of name.now contents.now }
    ensures absent { is_none result ≡ is_none (bytes_of name.now (pairs contents.now)) }
    ensures bytes { bytes_at result (pairs contents.now) ≡ bytes_of name.now (pairs contents.now) }
    ensures within { ForSome result (λ place. place < length contents.now) }
{
    first(contents, name)
}

fn first(contents: &[Content], name: &Text) -> Option<usize>
    ensures { result ≡ place_of name.now contents.now }
{
    contents.iter().position(|content| content.name == *name)
}

/// Appends to the file of this name, or adds it.
pub fn append(
    alloc: Global,
    contents: &mut Vec<Content>,
    name: &Text,
    bytes: &[u8],
) -> Result<(), NoMemory>
    ensures ok { OnOk result (pairs contents.new.items ≡ grown name.now bytes.now (pairs contents.old.items)) }
    ensures err { OnErr result (pairs contents.new.items ≡ pairs contents.old.items) }
{
    if let Some(place) = find(contents, name) {
        contents[place].bytes.extend_from_slice(bytes)?;
        return Ok(());
    }
    let name = name.clone()?;
    let bytes = Vec::from_slice(alloc, bytes)?;
    contents.push(Content { name, bytes })?;
    Ok(())
}

/// Changes the first name `from`, where there is one and no `to`. The bytes at each place stay.
pub fn change_name(contents: &mut Vec<Content>, from: &Text, to: Text)
    ensures names { pairs contents.new.items ≡ renamed from.now to (pairs contents.old.items) }
    ensures count { length contents.new.items ≡ length contents.old.items }
    ensures bytes { (place : Option ℕ)
        → bytes_at place (pairs contents.new.items) ≡ bytes_at place (pairs contents.old.items) }
{
    if find(contents, &to).is_some() {
        return;
    }
    if let Some(place) = find(contents, from) {
        contents[place].name = to;
    }
}

/// The bytes of the file at a place; none where there is none.
pub fn open_bytes(contents: &[Content], current: Option<usize>) -> &[u8]
    ensures { result.now ≡ unwrap_or (bytes_at current (pairs contents.now)) [] }
{
    match current {
        Some(place) if place < contents.len() => &contents[place].bytes,
        _ => &[],
    }
}

/// Copies as many bytes as fit from a place on, and answers how many.
pub fn copy_from(bytes: &[u8], at: u64, into: &mut [u8]) -> usize
    ensures bytes { AreBytesAt at result into.new bytes.now }
    ensures all { result ≡ min (length into.old) (length bytes.now - at) }
{
    let start = bytes.len().min(at as usize);
    let count = into.len().min(bytes.len() - start);
    into[..count].copy_from_slice(&bytes[start..start + count]);
    count
}
