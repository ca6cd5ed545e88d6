ghost use Rattle.std.specs.Prelude.{◌≡◌, IfOk, string_bytes};
ghost use Rattle.ga_print.specs.Percents.{percent_text};

use ga_base::NoMemory;
use std::alloc::Global;

/// Hundredths as they are printed: the whole part, a dot, and two digits.
#[tactic(auto, unfolding(crate::specs::Percents::percent_text))]
pub(crate) fn percent_text(alloc: Global, hundredths: u64) -> Result<String, NoMemory>
    ensures { IfOk result (λ text. string_bytes text ≡ percent_text hundredths) }
{
    Ok(format!(in alloc;
        "{}.{}{}",
        hundredths / 100,
        hundredths / 10 % 10,
        hundredths % 10
    )?)
}
