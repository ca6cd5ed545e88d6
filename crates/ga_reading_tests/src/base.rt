use ga_base::{Key, NoMemory, Noted, Panel, Text, Visitor};
use std::alloc::Global;
use std::mem::size_of;
use std::test::Fail;

/// Texts on both sides of the most that has no memory of its own, 15 bytes.
const TEXTS: [&str; 5] = [
    "",
    "14 bytes: abcd",
    "15 bytes: abcde",
    "16 bytes: abcdef",
    "gr\u{fc}\u{df}e",
];

/// Whether a text, its copy and the text read from its bytes are one.
fn is_kept(alloc: Global, text: &str) -> Result<bool, NoMemory> {
    let own = Text::of(alloc, text)?;
    let read = Text::from_utf8_lossy(alloc, text.as_bytes())?;
    Ok(own.as_str() == text && own.clone()? == own && read == own)
}

#[test]
fn texts_are_kept_in_sixteen_bytes(rt: HostRuntime) -> Result<(), Fail> {
    assert_eq!(rt; size_of::<Text>(), 16);
    for text in TEXTS {
        assert!(rt; is_kept(rt.alloc(), text)?, "{text}");
    }
    Ok(())
}

/// Whether the copy of an item, as it is noted, is the item.
fn is_copied<T: Noted + Drop>(item: &T) -> Result<bool, NoMemory> {
    Ok(item.copy()? == *item)
}

/// A visitor, and a key of its host.
fn visitor_and_key(alloc: Global) -> Result<(Visitor, Key), NoMemory> {
    let host = Text::of(alloc, "2001:db8::192.0.2.1")?;
    let label = host.clone()?;
    let visitor = Visitor {
        host,
        date: 20_240_101,
        agent: Text::new(),
    };
    let key = Key {
        panel: Panel::Hosts,
        date: 20_240_101,
        parent: Text::new(),
        label,
        method: Text::new(),
        protocol: Text::new(),
    };
    Ok((visitor, key))
}

#[test]
fn what_is_noted_is_copied(rt: HostRuntime) -> Result<(), Fail> {
    let (visitor, key) = visitor_and_key(rt.alloc())?;
    assert!(rt; is_copied(&visitor)? && is_copied(&key)?);
    Ok(())
}
