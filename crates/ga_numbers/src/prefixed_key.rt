ghost use Rattle.std.specs.Prelude.{◌≡◌, IfOk};
ghost use Rattle.ga_numbers.specs.VisitorRefs.{key_prefixed};

use ga_base::{Key, NoMemory, Text};

/// A key as a prefix, which many keys share, with a day and a label of its own.
#[derive(Clone, Copy)]
pub struct PrefixedKey<'a> {
    /// A key with another day and label, and else the same.
    pub shared: &'a Key,
    /// The day, `10000 * year + 100 * month + day`.
    pub date: u32,
    /// The entry's data, as the host; empty for a group itself.
    pub label: &'a Text,
}

impl<'a> PrefixedKey<'a> {
    /// The same key in texts of its own.
    pub fn to_key(self) -> Result<Key, NoMemory>
        ensures { IfOk result (λ key. key ≡ key_prefixed self.entry) }
    {
        Ok(Key {
            panel: self.shared.panel,
            date: self.date,
            parent: self.shared.parent.clone()?,
            label: self.label.clone()?,
            method: self.shared.method.clone()?,
            protocol: self.shared.protocol.clone()?,
        })
    }
}
