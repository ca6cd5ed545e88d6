ghost use Rattle.std.specs.Prelude.{ℕ, IfSome, IfNone};
ghost use Rattle.ga_line.specs.Records.{IsStatus};

use crate::digits::number_in;

/// How many digits a status code has.
const STATUS_LENGTH: usize = 3;

/// The least and the greatest status code.
const STATUSES: (u64, u64) = (100, 599);

/// The status code that `text` is. `None` where it isn't three digits, or their number isn't 100 to 599.
pub(crate) fn status_in(text: &[u8]) -> Option<u32>
    ensures found { IfSome result (IsStatus text.now) }
    ensures none { IfNone result ((status : ℕ) → ¬ IsStatus text.now status) }
{
    if text.len() != STATUS_LENGTH {
        return None;
    }
    let status = number_in(text)?;
    if status < STATUSES.0 || status > STATUSES.1 {
        return None;
    }
    Some(status as u32)
}
