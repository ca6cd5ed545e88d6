ghost use Rattle.std.specs.Prelude.{◌≡◌, ◌++◌, ◌∷◌, [], OnOk, OnErr};

use crate::{NoMemory, Text};
use std::alloc::Global;
use std::marker::Model;

/// The one list type of values that own memory. Contracts see the list of its items.
#[derive(Debug, Drop, Clone)]
pub struct Listing<T> {
    inner: Vec<T>,
}

/// A list of texts, as the words of a command line.
pub type Texts = Listing<Text>;

impl<T> Model for Listing<T> {
    ghost use Rattle.std.specs.Prelude.{List};

    ghost Value = { List T };

    ghost view = { λ l. l.inner.items };
}

impl<T> Listing<T> {
    /// The empty list, which takes no memory.
    pub fn new(alloc: Global) -> Listing<T>
        ensures { result ≡ [] }
    {
        Listing {
            inner: Vec::new(alloc),
        }
    }

    /// Lends the items.
    pub fn items(&self) -> &[T]
        ensures { result.now ≡ self.now }
    {
        &self.inner
    }

    /// Gives the items back.
    pub fn into_vec(self) -> Vec<T>
        ensures { result.items ≡ self }
    {
        self.inner
    }
}

impl<T: Drop> Listing<T> {
    /// Adds an item at the end. After an `Err` the list is as it was and the item is dropped.
    pub fn push(&mut self, item: T) -> Result<(), NoMemory>
        ensures ok { OnOk result (self.new ≡ self.old ++ item ∷ []) }
        ensures err { OnErr result (self.new ≡ self.old) }
    {
        self.inner.push(item)?;
        Ok(())
    }
}

impl<T> From<Vec<T>> for Listing<T> {
    ghost from_gives = { λ v l. l ≡ v.items };

    fn from(inner: Vec<T>) -> Listing<T> {
        Listing { inner }
    }
}
