ghost use Rattle.std.specs.Prelude.{◌≡◌, ◌+◌, ◌<◌, ◌≤◌, ℕ, IfSome, Some, position};
ghost use Rattle.std.specs.Str.{bytes_eq};
ghost use Rattle.ga_dates.specs.Spelling.{SpellsNumber, IsTwoDigits, IsFourDigits, IsSpacedDigits, IsMonthName, month_names};

use crate::Item;

/// The names of the months, in lower case.
const MONTH_NAMES: [[u8; 3]; 12] = [
    *b"jan", *b"feb", *b"mar", *b"apr", *b"may", *b"jun", *b"jul", *b"aug", *b"sep", *b"oct",
    *b"nov", *b"dec",
];

/// The greatest hour, minute and second.
const MAX_HOUR: u16 = 23;

const MAX_MINUTE: u16 = 59;

const MAX_SECOND: u16 = 60;

/// Two digits below this are years from 2000 on, the others years before 2000.
const FIRST_OF_1900: u16 = 69;

/// The number that the bytes spell, whose length is the item's width.
pub(crate) fn number_in(item: Item, piece: &[u8]) -> Option<u16>
    ensures found { IfSome result (λ n. SpellsNumber item n piece.now) }
    ensures only { (n : ℕ) → SpellsNumber item n piece.now → result ≡ Some n }
{
    match item {
        Item::Literal(byte) => same_byte(byte, piece),
        Item::Day | Item::Month => two_digits(piece),
        Item::SpacedDay => spaced_digits(piece),
        Item::MonthName => named_month(piece),
        Item::Year => four_digits(piece),
        Item::ShortYear => short_year(piece),
        Item::Hour => two_digits_up_to(MAX_HOUR, piece),
        Item::Minute => two_digits_up_to(MAX_MINUTE, piece),
        Item::Second => two_digits_up_to(MAX_SECOND, piece),
    }
}

fn same_byte(byte: u8, piece: &[u8]) -> Option<u16>
    ensures found { IfSome result (λ n. SpellsNumber (Item.Literal byte) n piece.now) }
    ensures only { (n : ℕ) → SpellsNumber (Item.Literal byte) n piece.now → result ≡ Some n }
{
    match piece {
        [only] if *only == byte => Some(0),
        _ => None,
    }
}

fn digit(byte: u8) -> Option<u16>
    ensures found { IfSome result (λ n. (n < 10) × (byte ≡ 48 + n)) }
    ensures only { (n : ℕ) → n < 10 → byte ≡ 48 + n → result ≡ Some n }
{
    match byte {
        b'0'..=b'9' => Some((byte - b'0') as u16),
        _ => None,
    }
}

fn two_digits(piece: &[u8]) -> Option<u16>
    ensures found { IfSome result (λ n. IsTwoDigits n piece.now) }
    ensures only { (n : ℕ) → IsTwoDigits n piece.now → result ≡ Some n }
{
    match piece {
        [tens, units] => Some(10 * digit(*tens)? + digit(*units)?),
        _ => None,
    }
}

fn two_digits_up_to(max: u16, piece: &[u8]) -> Option<u16>
    ensures found { IfSome result (λ n. IsTwoDigits n piece.now × (n ≤ max)) }
    ensures only { (n : ℕ) → IsTwoDigits n piece.now → n ≤ max → result ≡ Some n }
{
    two_digits(piece).filter(|n| *n <= max)
}

fn four_digits(piece: &[u8]) -> Option<u16>
    ensures found { IfSome result (λ n. IsFourDigits n piece.now) }
    ensures only { (n : ℕ) → IsFourDigits n piece.now → result ≡ Some n }
{
    let (front, back) = piece.split_at_checked(2)?;
    Some(100 * two_digits(front)? + two_digits(back)?)
}

fn spaced_digits(piece: &[u8]) -> Option<u16>
    ensures found { IfSome result (λ n. IsSpacedDigits n piece.now) }
    ensures only { (n : ℕ) → IsSpacedDigits n piece.now → result ≡ Some n }
{
    match piece {
        [b' ', units] => digit(*units),
        _ => two_digits(piece),
    }
}

fn named_month(piece: &[u8]) -> Option<u16>
    ensures found { IfSome result (λ n. IsMonthName n piece.now) }
    ensures only { (n : ℕ) → IsMonthName n piece.now → result ≡ Some n }
{
    match piece {
        [first, second, third] => {
            let name = [
                first.to_ascii_lowercase(),
                second.to_ascii_lowercase(),
                third.to_ascii_lowercase(),
            ];
            let before = months_before(name)?;
            Some(before as u16 + 1)
        }
        _ => None,
    }
}

fn months_before(name: [u8; 3]) -> Option<usize>
    ensures { result ≡ position (λ month. bytes_eq month name) month_names }
{
    MONTH_NAMES.iter().position(|month| *month == name)
}

fn short_year(piece: &[u8]) -> Option<u16>
    ensures found { IfSome result (λ n. SpellsNumber Item.ShortYear n piece.now) }
    ensures only { (n : ℕ) → SpellsNumber Item.ShortYear n piece.now → result ≡ Some n }
{
    let short = two_digits(piece)?;
    if short < FIRST_OF_1900 {
        Some(2000 + short)
    } else {
        Some(1900 + short)
    }
}
