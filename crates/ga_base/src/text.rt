ghost use Rattle.std.specs.Prelude.{◌≡◌, ◌==◌, [], IfOk, IfSome, string_bytes};
ghost use Rattle.std.specs.Cow.{cow_str_bytes};
ghost use Rattle.std.specs.Str.{IsUtf8};
ghost use Rattle.std.specs.Str.Lossy.{utf8_lossy};
ghost use Rattle.std.specs.Ordering.{nat_cmp, as_partial_cmp};
ghost use Rattle.std.specs.Cmp.Lexicographic.{slice_cmp};
ghost use Rattle.std.specs.Cmp.{partial_order_from_own_ties};
ghost use Rattle.std.specs.Cmp.Rules.{comparing, hashing};
ghost use Rattle.std.specs.Hash as fed;
ghost use Rattle.std.proofs.Common.{rules};
ghost use lib.Pointwise.{pointwise};
ghost use Rattle.ga_base.specs.Texts.{kept_bytes, FitsIn};

use crate::NoMemory;
use std::alloc::{AllocError, Global};
use std::borrow::CowStr;
use std::cmp::Ordering;
use std::hash::{Hash, Hasher};
use std::marker::Model;
use std::str::from_utf8_unchecked;
use std::sync::Arc;

/// How many bytes a text holds in place beside their number.
const ROOM: usize = 14;

/// Where the bytes of a text are kept. The value takes 16 bytes.
#[derive(Debug, Drop)]
enum Kept {
    /// At most 14 bytes, in place: the first `len` of these.
    Short { len: u8, bytes: [u8; 14] },
    /// Exactly 15 bytes, in place.
    Full { bytes: [u8; 15] },
    /// More bytes, in a string that all copies share.
    Shared { string: Arc<String> },
}

/// Bytes that are UTF-8. Contracts see the list of the bytes; an absent text is the empty one.
///
/// A text of up to 15 bytes holds them in place. The bytes of a longer one are shared by all its copies, so that a copy
/// takes no memory.
#[derive(Debug, Drop)]
pub struct Text {
    kept: Kept,
}

impl Model for Text {
    ghost use Rattle.std.specs.Prelude.{List, ℕ};

    ghost Value = { List ℕ };

    ghost use Rattle.std.specs.Str.{IsUtf8};
    ghost use Rattle.ga_base.specs.Texts.{kept_bytes, FitsIn};

    ghost view = { λ t. kept_bytes t.kept };

    ghost invariant = { λ t. IsUtf8 (kept_bytes t.kept) × FitsIn t.kept };
}

impl Text {
    /// The empty text.
    pub fn new() -> Text
        ensures { result ≡ [] }
    {
        Text {
            kept: Kept::Short {
                len: 0,
                bytes: [0; 14],
            },
        }
    }

    /// A copy of `text`.
    pub fn of(alloc: Global, text: &str) -> Result<Text, NoMemory>
        ensures { IfOk result (λ t. t ≡ text.now) }
    {
        match Text::in_place(text) {
            Some(text) => Ok(text),
            None => Text::shared(alloc, String::from_str(alloc, text)?),
        }
    }

    /// The text of a string, which is kept where it is long.
    pub fn from_string(alloc: Global, string: String) -> Result<Text, NoMemory>
        ensures { IfOk result (λ t. t ≡ string_bytes string) }
    {
        match Text::in_place(string.as_str()) {
            Some(text) => Ok(text),
            None => Text::shared(alloc, string),
        }
    }

    /// The text that may be borrowed. A string that it owns is kept where it is long.
    pub fn from_cow(alloc: Global, text: CowStr<'_, Global>) -> Result<Text, NoMemory>
        ensures { IfOk result (λ t. t ≡ cow_str_bytes text.entry) }
    {
        match text {
            CowStr::Borrowed(text) => Text::of(alloc, text),
            CowStr::Owned(string) => Text::from_string(alloc, string),
        }
    }

    /// The bytes as text. What isn't UTF-8 becomes U+FFFD, one for each maximal part, as std's lossy reading does.
    pub fn from_utf8_lossy(alloc: Global, bytes: &[u8]) -> Result<Text, NoMemory>
        ensures { IfOk result (λ t. t ≡ utf8_lossy bytes.now) }
    {
        Text::from_string(alloc, String::from_utf8_lossy(alloc, bytes)?)
    }

    /// A short text, which is kept in place.
    fn in_place(text: &str) -> Option<Text>
        ensures { IfSome result (λ t. t ≡ text.now) }
    {
        let text = text.as_bytes();
        let len = text.len();
        if len <= ROOM {
            let mut bytes = [0; 14];
            bytes[..len].copy_from_slice(text);
            return Some(Text {
                kept: Kept::Short {
                    len: len as u8,
                    bytes,
                },
            });
        }
        if len == ROOM + 1 {
            let mut bytes = [0; 15];
            bytes.copy_from_slice(text);
            return Some(Text {
                kept: Kept::Full { bytes },
            });
        }
        None
    }

    /// A text in a string that its copies share.
    fn shared(alloc: Global, string: String) -> Result<Text, NoMemory>
        ensures { IfOk result (λ t. t ≡ string_bytes string) }
    {
        Ok(Text {
            kept: Kept::Shared {
                string: Arc::new(alloc, string)?,
            },
        })
    }

    /// The bytes of the text.
    pub fn bytes(&self) -> &[u8]
        ensures value { result.now ≡ self.now }
        ensures utf8 { IsUtf8 self.now }
    {
        bytes_of(&self.kept)
    }

    /// The text as std's `str`.
    pub fn as_str(&self) -> &str
        ensures { result.now ≡ self.now }
    {
        unsafe { from_utf8_unchecked(self.bytes()) }
    }
}

fn bytes_of(kept: &Kept) -> &[u8]
    requires { FitsIn kept.now }
    ensures { result.now ≡ kept_bytes kept.now }
{
    match kept {
        Kept::Short { len, bytes } => &bytes[..*len as usize],
        Kept::Full { bytes } => bytes,
        Kept::Shared { string } => string.as_bytes(),
    }
}

impl Clone for Text {
    ghost is_clone = { λ s t. t ≡ s };

    fn clone(&self) -> Result<Text, AllocError> {
        let kept = match &self.kept {
            Kept::Short { len, bytes } => Kept::Short {
                len: *len,
                bytes: *bytes,
            },
            Kept::Full { bytes } => Kept::Full { bytes: *bytes },
            Kept::Shared { string } => Kept::Shared {
                string: string.clone()?,
            },
        };
        Ok(Text { kept })
    }
}

impl Hash for Text {
    ghost hash_input = { fed.str };

    ghost respects_eq = { Prim.search (hashing, rules) };

    fn hash<H: Hasher>(&self, state: &mut H) {
        self.as_str().hash(state);
    }
}

impl PartialEq for Text {
    ghost eq = { pointwise ◌==◌ };

    ghost laws = { Prim.search (comparing, rules) };

    fn eq(&self, other: &Text) -> bool {
        self.bytes() == other.bytes()
    }
}

impl Eq for Text {
    ghost laws = { Prim.search (comparing, rules) };
}

impl Ord for Text {
    ghost cmp = { slice_cmp nat_cmp };

    ghost total = { Prim.search (comparing, rules) };

    ghost matches_partial_cmp = { Prim.search (comparing, rules) };

    ghost matches_eq = { Prim.search (comparing, rules) };

    fn cmp(&self, other: &Text) -> Ordering {
        self.bytes().cmp(other.bytes())
    }
}

impl PartialOrd for Text {
    ghost partial_cmp = { as_partial_cmp (slice_cmp nat_cmp) };

    ghost laws = { partial_order_from_own_ties (Prim.search (comparing, rules)) (Prim.search (comparing, rules)) };

    fn partial_cmp(&self, other: &Text) -> Option<Ordering> {
        Some(self.cmp(other))
    }
}
