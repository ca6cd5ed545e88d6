ghost use Rattle.std.specs.Prelude.{◌≡◌, ◌++◌, ◌∷◌, [], ◌↔◌, OnOk, OnErr, IsTrue};
ghost use Rattle.ga_hosts.specs.Ranges.{HoldsHost};

use crate::{Range, address_of};
use ga_base::{Listing, NoMemory};
use std::alloc::{AllocError, Global};
use std::marker::Model;

/// Ranges of addresses, as the option `--exclude-ip` names them, repeated. Contracts see the list of them.
#[derive(Debug, Drop)]
pub struct Ranges {
    inner: Listing<Range>,
}

impl Model for Ranges {
    ghost use Rattle.std.specs.Prelude.{List};
    ghost use Rattle.ga_hosts.specs.declared.range.Range.{Range};

    ghost Value = { List Range };

    ghost view = { λ r. r.inner };
}

impl Clone for Ranges {
    ghost is_clone = { λ s t. t ≡ s };

    fn clone(&self) -> Result<Ranges, AllocError> {
        Ok(Ranges {
            inner: self.inner.clone()?,
        })
    }
}

impl Ranges {
    /// The empty list, which takes no memory.
    pub fn new(alloc: Global) -> Ranges
        ensures { result ≡ [] }
    {
        Ranges {
            inner: Listing::new(alloc),
        }
    }

    /// Adds a range at the end. After `NoMemory` the list is as it was.
    pub fn push(&mut self, range: Range) -> Result<(), NoMemory>
        ensures ok { OnOk result (self.new ≡ self.old ++ range ∷ []) }
        ensures err { OnErr result (self.new ≡ self.old) }
    {
        self.inner.push(range)
    }

    /// Lends the ranges.
    pub fn items(&self) -> &[Range]
        ensures { result.now ≡ self.now }
    {
        self.inner.items()
    }

    /// Whether the host is an address in one of the ranges: of its family, from its `low` to its `high`. An empty list
    /// holds no host, and reads none.
    pub fn holds(&self, host: &[u8]) -> bool
        ensures { IsTrue result ↔ HoldsHost self.now host.now }
    {
        let ranges = self.items();
        if ranges.is_empty() {
            return false;
        }
        match address_of(host) {
            Some(address) => ranges.iter().any(|range| range.has(address)),
            None => false,
        }
    }
}
