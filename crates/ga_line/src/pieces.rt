ghost use Rattle.std.specs.Prelude.{◌≡◌, List, ℕ};
ghost use Rattle.std.specs.Iterator.{YieldsFirstRef, item_count};
ghost use Rattle.std.specs.Str.Lines.{strip_carriage_return};
ghost use Rattle.ga_line.specs.Lines.{lines};

use bstr::ByteSlice;
use ga_base::LINE_FEED;
use std::marker::Model;

/// The byte that is dropped once before a line feed.
const CARRIAGE_RETURN: u8 = b'\r';

/// The lines of a text, first to last, each borrowed from it: the pieces before each line feed, without one
/// carriage return before it. Contracts see the list of the lines that are left.
#[derive(Drop)]
pub struct Lines<'a> {
    rest: &'a [u8],
    keep: bool,
}

impl<'a> Model for Lines<'a> {
    ghost Value = { List (List ℕ) };

    ghost view = { λ s. lines s.rest.now s.keep };
}

impl<'a> Lines<'a> {
    /// The lines of `text`. What follows the last line feed is a line only where `keep`, and only where it
    /// isn't empty.
    pub fn of(text: &'a [u8], keep: bool) -> Lines<'a>
        ensures { result ≡ lines text.now keep }
    {
        Lines { rest: text, keep }
    }
}

impl<'a> Iterator for Lines<'a> {
    type Item = &'a [u8];

    ghost next_gives = { YieldsFirstRef (λ rest. rest) };

    ghost remaining = { item_count (λ rest. rest) };

    fn next(&mut self) -> Option<&'a [u8]> {
        let rest = self.rest;
        match rest.find_byte(LINE_FEED) {
            Some(end) => {
                self.rest = &rest[end + 1..];
                Some(without_carriage_return(&rest[..end]))
            }
            None => {
                self.rest = &[];
                if !self.keep || rest.is_empty() {
                    return None;
                }
                Some(rest)
            }
        }
    }
}

/// The piece before a line feed, without one carriage return at its end.
fn without_carriage_return(piece: &[u8]) -> &[u8]
    ensures { result.now ≡ strip_carriage_return piece.now }
{
    let n = piece.len();
    if n > 0 && piece[n - 1] == CARRIAGE_RETURN {
        &piece[..n - 1]
    } else {
        piece
    }
}
