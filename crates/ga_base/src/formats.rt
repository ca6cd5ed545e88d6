ghost use Rattle.std.specs.Prelude.{◌≡◌, Some};
ghost use Rattle.ga_base.specs.FormatFaults.{fault_leaf, fault_line, fault_place, fault_text, kind_text};
ghost use Rattle.ga_base.specs.declared.formats.FormatFault.TheVariants.{NoMemory as FormatNoMemory};

use crate::{Bytes, NoMemory};
use std::alloc::{AllocError, AllocFailed};
use std::error::Error;
use std::fmt;

/// One item of a log format.
#[derive(Debug, PartialEq, Eq, Clone, Drop)]
pub enum FormatItem {
    /// This byte has to come next.
    Literal(u8),
    /// `%~`: white space is passed over.
    Skip,
    /// `%` and this letter: a field up to the literal that follows.
    Field(u8),
    /// `~h{C}`: the host in an X-Forwarded-For field whose entries the bytes C separate.
    Forwarded(Bytes),
}

/// A part that every log format has to give.
#[derive(Clone, Copy, Debug, PartialEq, Eq)]
pub enum Needed {
    /// The client's address, by `%h` or `~h{C}`.
    Host,
    /// The day, by `%d` or `%x`.
    Date,
    /// What was asked for, by `%r` or `%U`.
    Request,
}

/// What is wrong with the text of a leaf of a JSON format.
#[derive(Clone, Copy, Debug, PartialEq, Eq)]
pub enum LeafFault {
    /// A `%` or `~h{` that begins no specifier.
    Unknown,
    /// A specifier that may stand once only stands again, or beside one that gives the same part, in this leaf or after an earlier one.
    Repeated,
    /// A field with no literal byte after it, though items follow.
    NoDelimiter,
}

impl LeafFault {
    /// What is wrong, without the place.
    pub fn text(&self) -> &'static str
        ensures { result.now ≡ kind_text self.now }
    {
        match self {
            LeafFault::Unknown => "unknown specifier",
            LeafFault::Repeated => "repeated",
            LeafFault::NoDelimiter => "no delimiter",
        }
    }
}

/// Why a text is no log, date or time format. Places are bytes of the text, from 0; in a leaf they are bytes of the leaf's
/// text. The leaves of a JSON format are numbered from 0.
#[derive(Clone, Copy, Debug, PartialEq, Eq)]
pub enum FormatFault {
    /// A `%` or `~h{` that begins no specifier.
    UnknownSpecifier { at: u64 },
    /// A specifier that may stand once only stands again, or beside one that gives the same part.
    Repeated { at: u64 },
    /// A field with no literal byte after it, though items follow.
    NoDelimiter { at: u64 },
    /// No item gives this part.
    Missing { field: Needed },
    /// In a date or time format: a directive that isn't named or repeats a part, or at the end a part that is missing.
    BadDirective { at: u64 },
    /// The text begins as a JSON format does, and is no JSON object.
    NotJson,
    /// In a JSON format: where this leaf would come stands neither a text, nor an object, nor a list of one element.
    BadShape { leaf: u64 },
    /// In a JSON format: what is wrong with the text of this leaf.
    Leaf { leaf: u64, kind: LeafFault, at: u64 },
    /// Out of memory.
    NoMemory,
}

impl FormatFault {
    /// The leaf of a JSON format, from 0, in which the fault stands, if it stands in one.
    pub fn leaf(&self) -> Option<u64>
        ensures { result ≡ fault_leaf self.now }
    {
        match self {
            FormatFault::BadShape { leaf } | FormatFault::Leaf { leaf, .. } => Some(*leaf),
            FormatFault::UnknownSpecifier { .. }
            | FormatFault::Repeated { .. }
            | FormatFault::NoDelimiter { .. }
            | FormatFault::Missing { .. }
            | FormatFault::BadDirective { .. }
            | FormatFault::NotJson
            | FormatFault::NoMemory => None,
        }
    }

    /// The byte of the format's text, or of the leaf's, from 0, at which the fault stands, if it has a place.
    pub fn place(&self) -> Option<u64>
        ensures { result ≡ fault_place self.now }
    {
        match self {
            FormatFault::UnknownSpecifier { at }
            | FormatFault::Repeated { at }
            | FormatFault::NoDelimiter { at }
            | FormatFault::BadDirective { at }
            | FormatFault::Leaf { at, .. } => Some(*at),
            FormatFault::Missing { .. }
            | FormatFault::NotJson
            | FormatFault::BadShape { .. }
            | FormatFault::NoMemory => None,
        }
    }

    /// What is wrong, without the place.
    pub fn text(&self) -> &'static str
        ensures { result.now ≡ fault_text self.now }
    {
        match self {
            FormatFault::UnknownSpecifier { .. } => "unknown specifier",
            FormatFault::Repeated { .. } => "repeated",
            FormatFault::NoDelimiter { .. } => "no delimiter",
            FormatFault::Missing {
                field: Needed::Host,
            } => "no host",
            FormatFault::Missing {
                field: Needed::Date,
            } => "no date",
            FormatFault::Missing {
                field: Needed::Request,
            } => "no request",
            FormatFault::BadDirective { .. } => "bad directive",
            FormatFault::NotJson => "not JSON",
            FormatFault::BadShape { .. } => "bad shape",
            FormatFault::Leaf { kind, .. } => kind.text(),
            FormatFault::NoMemory => "no memory",
        }
    }
}

impl fmt::Display for FormatFault {
    ghost output = { λ fault. Some (fault_line fault) };

    fn fmt<W: fmt::Write>(&self, f: &mut fmt::Formatter<W>) -> fmt::Result {
        match (self.leaf(), self.place()) {
            (None, None) => write!(f, "{}", self.text()),
            (None, Some(at)) => write!(f, "byte {}: {}", at, self.text()),
            (Some(leaf), None) => write!(f, "leaf {}: {}", leaf, self.text()),
            (Some(leaf), Some(at)) => write!(f, "leaf {}, byte {}: {}", leaf, at, self.text()),
        }
    }
}

impl Error for FormatFault {}

impl From<NoMemory> for FormatFault {
    ghost from_gives = { λ _ e. e ≡ FormatNoMemory };

    fn from(_: NoMemory) -> FormatFault {
        FormatFault::NoMemory
    }
}

impl From<AllocError> for FormatFault {
    ghost from_gives = { λ _ e. e ≡ FormatNoMemory };

    fn from(_: AllocError) -> FormatFault {
        FormatFault::NoMemory
    }
}

impl<T: Drop> From<AllocFailed<T>> for FormatFault {
    ghost from_gives = { λ _ e. e ≡ FormatNoMemory };

    fn from(_: AllocFailed<T>) -> FormatFault {
        FormatFault::NoMemory
    }
}
