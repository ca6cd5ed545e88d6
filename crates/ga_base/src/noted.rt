ghost use Rattle.std.specs.Prelude.{◌≡◌, IfOk};

use crate::{Key, NoMemory, Visitor};
use std::hash::Hash;
use std::marker::{Send, Sync};

/// What dictionaries number: values that are compared, hashed and copied, in any thread.
pub trait Noted: Eq + Hash + Send + Sync + Sized {
    /// An equal value.
    fn copy(&self) -> Result<Self, NoMemory>
        ensures { IfOk result (λ copy. copy ≡ self.now) };
}

impl Noted for Key {
    fn copy(&self) -> Result<Key, NoMemory> {
        Ok(self.clone()?)
    }
}

impl Noted for Visitor {
    fn copy(&self) -> Result<Visitor, NoMemory> {
        Ok(self.clone()?)
    }
}
