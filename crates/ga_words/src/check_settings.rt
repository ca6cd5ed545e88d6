ghost use Rattle.std.specs.Prelude.{List};
ghost use Rattle.ga_words.specs.Steps.Words.{IsLast, IsWholly};
ghost use Rattle.ga_words.specs.Units.{WordUnit, generate_places};

use crate::{Settings, WordFault};

/// The first of what is wrong with settings as a whole. `generate_at` is the place at which `--generate` stands last.
pub(crate) fn check_settings(settings: &Settings, generate_at: Option<u64>) -> Option<WordFault>
    ensures { (units : List WordUnit) → IsLast (generate_places 0 units) generate_at →
        IsWholly units settings.now result }
{
    let has_logs = !settings.logs.items().is_empty();
    if has_logs && settings.log_format.is_none() {
        return Some(WordFault::NoFormat);
    }
    if !has_logs && !settings.restore && settings.generate.is_none() {
        return Some(WordFault::NoInput);
    }
    match generate_at {
        Some(at) if has_logs || settings.persist || settings.restore => {
            Some(WordFault::Conflict { at })
        }
        _ => None,
    }
}
