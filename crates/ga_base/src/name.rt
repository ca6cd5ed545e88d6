use crate::{Listing, Text};

/// A visitor of a key, whose day is the key's.
///
/// Names are ordered by host, then agent.
#[derive(Debug, PartialEq, Eq, PartialOrd, Ord, Hash, Clone, Drop)]
pub struct Name {
    /// The client's address.
    pub host: Text,
    /// The user agent.
    pub agent: Text,
}

/// A list of names.
pub type Names = Listing<Name>;
