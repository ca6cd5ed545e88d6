ghost use Rattle.std.specs.Prelude.{◌≡◌, ◌<◌, ◌≤◌, ◌+◌, ◌-◌, ◌++◌, ◌*◌, ◌∷◌, [], true, min, ℕ, List, IfSome, IfNone, Some};
ghost use Rattle.std.specs.Option.{option_copied, option_map_or};
ghost use Rattle.std.specs.Str.{all_ascii_digits};
ghost use Rattle.std.specs.Str.Parse.{digits_value};
ghost use Rattle.ga_line.specs.Records.{size_value, AreDigits, IsDecimal, decimal_value};

use crate::cut_field::cut_at;
use ga_base::BIG;

/// What represents every number above `BIG`.
pub(crate) const TOO_BIG: u64 = BIG + 1;

const DOT: u8 = b'.';

/// As many zeros as decimals may count.
const ZEROS: &[u8] = b"000000";

/// The number that `text` writes in digits, of any length, and `TOO_BIG` where it is above `BIG`. `None` where it has
/// anything but digits, or nothing.
pub(crate) fn number_in(text: &[u8]) -> Option<u64>
    ensures found { IfSome result (λ n. AreDigits text.now × (n ≡ min (digits_value 10 text.now) TOO_BIG)) }
    ensures none { IfNone result (¬ AreDigits text.now) }
{
    if text.is_empty() {
        return None;
    }
    if !are_digits(text) {
        return None;
    }
    Some(with_digits(0, text))
}

/// Whether all of the text is digits.
fn are_digits(text: &[u8]) -> bool
    ensures { result ≡ all_ascii_digits text.now }
{
    for byte in text {
        if !byte.is_ascii_digit() {
            return false;
        }
    }
    true
}

/// The number of digits with more of them after, and `TOO_BIG` where it is above `BIG`.
fn with_digits(number: u64, digits: &[u8]) -> u64
    requires number { number ≤ TOO_BIG }
    requires digits { all_ascii_digits digits.now ≡ true }
    ensures small { result ≤ TOO_BIG }
    ensures value { (front : List ℕ) → number ≡ min (digits_value 10 front) TOO_BIG → result ≡ min (digits_value 10 (front ++ digits.now)) TOO_BIG }
{
    let mut number = number;
    for digit in digits {
        number = with_digit(number, *digit);
    }
    number
}

/// The number with one digit more at its end.
fn with_digit(number: u64, digit: u8) -> u64
    requires number { number ≤ TOO_BIG }
    requires digit { (48 ≤ digit) × (digit ≤ 57) }
    ensures { result ≡ min (10 * number + (digit - 48)) TOO_BIG }
{
    (10 * number + u64::from(digit - b'0')).min(TOO_BIG)
}

/// The size that `text` writes in digits, `TOO_BIG` where it is above `BIG`, and 0 where it isn't all digits.
pub(crate) fn size_in(text: &[u8]) -> u64
    ensures { result ≡ min (size_value (Some text.now)) TOO_BIG }
{
    match number_in(text) {
        Some(number) => number,
        None => 0,
    }
}

/// The number that `text` writes in this many decimals, and `TOO_BIG` where that is above `BIG`. `None` where it is no such
/// number.
pub(crate) fn decimal_in(text: &[u8], places: usize) -> Option<u64>
    requires { places ≤ 6 }
    ensures found { IfSome result (λ n. (number : ℕ) × IsDecimal places text.now number × (n ≡ min number TOO_BIG)) }
    ensures none { IfNone result ((number : ℕ) → ¬ IsDecimal places text.now number) }
{
    match cut_at(text, DOT) {
        None => decimal_of(text, &[], places),
        Some((front, after)) => split_decimal_in(front, after_first(after), places),
    }
}

/// What follows the first byte.
fn after_first(text: &[u8]) -> &[u8]
    ensures { (byte : ℕ) (rest : List ℕ) → text.now ≡ byte ∷ rest → result.now ≡ rest }
{
    match text.split_first() {
        Some((_, rest)) => rest,
        None => &[],
    }
}

/// The same of digits before the dot and after it.
fn split_decimal_in(front: &[u8], back: &[u8], places: usize) -> Option<u64>
    requires { places ≤ 6 }
    ensures found { IfSome result (λ n. AreDigits front.now × AreDigits back.now × (n ≡ min (decimal_value places front.now back.now) TOO_BIG)) }
    ensures none { IfNone result (AreDigits front.now → ¬ AreDigits back.now) }
{
    number_in(back)?;
    decimal_of(front, back, places)
}

/// The number of the digits before the dot, and of this many decimals after them.
fn decimal_of(front: &[u8], back: &[u8], places: usize) -> Option<u64>
    requires places { places ≤ 6 }
    requires digits { all_ascii_digits back.now ≡ true }
    ensures found { IfSome result (λ n. AreDigits front.now × (n ≡ min (decimal_value places front.now back.now) TOO_BIG)) }
    ensures none { IfNone result (¬ AreDigits front.now) }
{
    let units = number_in(front)?;
    let there = back.len().min(places);
    let number = with_digits(units, &back[..there]);
    Some(with_digits(number, &ZEROS[..places - there]))
}
