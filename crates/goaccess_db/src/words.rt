ghost use Rattle.std.specs.Prelude.{◌≡◌, IfOk, map, string_bytes};
ghost use Rattle.std.specs.Vec.Iter.{into_iter_items};
ghost use Rattle.goaccess_db.specs.Program.{words_in};
ghost use Rattle.goaccess_db.specs.Words.{words_line, words_code, IsFaultOf};

use ga_base::{NoMemory, Text, Texts};
use std::alloc::Global;
use std::env::Args;
use std::io::{self, ErrorKind};

/// Why the words of the command line couldn't be had.
#[derive(Clone, Copy, Debug, PartialEq, Eq)]
pub enum WordsFault {
    /// A word isn't UTF-8.
    NotText,
    /// Out of memory.
    NoMemory,
}

impl WordsFault {
    /// The line for standard error.
    pub fn line(self) -> &'static [u8]
        ensures { result.now ≡ words_line self }
    {
        match self {
            WordsFault::NotText => b"goaccess_db: words are not UTF-8\n",
            WordsFault::NoMemory => b"goaccess_db: no memory\n",
        }
    }

    /// The exit status, as of a run with this fault.
    pub fn code(self) -> u8
        ensures { result ≡ words_code self }
    {
        match self {
            WordsFault::NotText => 1,
            WordsFault::NoMemory => 7,
        }
    }
}

impl From<io::Error> for WordsFault {
    ghost from_gives = { λ error fault. IsFaultOf error fault };

    fn from(error: io::Error) -> WordsFault {
        match error.kind() {
            ErrorKind::InvalidData => WordsFault::NotText,
            _ => WordsFault::NoMemory,
        }
    }
}

/// The words of a command line: its arguments but the first, which is the program's name.
pub fn words(alloc: Global, mut arguments: Args) -> Result<Texts, NoMemory>
    ensures { IfOk result (λ words. words ≡ words_in (into_iter_items arguments)) }
{
    let _program = arguments.next();
    texts(alloc, arguments)
}

/// The strings as texts.
fn texts(alloc: Global, strings: Args) -> Result<Texts, NoMemory>
    ensures { IfOk result (λ texts. texts ≡ map string_bytes (into_iter_items strings)) }
{
    let mut texts = Texts::new(alloc);
    for string in strings {
        texts.push(Text::from_string(alloc, string)?)?;
    }
    Ok(texts)
}
