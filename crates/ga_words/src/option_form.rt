ghost use Rattle.std.specs.Prelude.{◌≡◌, ◌≢◌, false, Some, None, IfOk, MatchBool, MatchOption};
ghost use Rattle.ga_words.specs.Forms.{Accepts, IsFormOf};
ghost use Rattle.ga_words.specs.Options.{Takes as TakesSpec, takes_of};

use crate::WordFault;
use crate::options::{Takes, option_named};
use crate::setting::set_value;
use crate::settings::default_settings;
use ga_base::NoMemory;
use std::alloc::Global;

/// What follows the name of an option.
#[derive(Clone, Copy, Debug, PartialEq, Eq)]
pub enum OptionForm {
    /// Nothing: it is a flag.
    Flag,
    /// A value.
    Value,
}

/// What follows the option of this name, dashes included.
pub fn form_of(name: &str) -> Option<OptionForm>
    ensures { MatchOption result (takes_of name.now ≡ None)
        (λ form. (takes : TakesSpec) × (takes_of name.now ≡ Some takes) × IsFormOf takes form) }
{
    match option_named(name)? {
        Takes::Flag(_) => Some(OptionForm::Flag),
        _ => Some(OptionForm::Value),
    }
}

/// Whether the option of this name, dashes included, takes this value. It is tried on the settings of no words.
pub fn takes_value(alloc: Global, name: &str, value: &str) -> Result<bool, NoMemory>
    ensures { IfOk result (λ takes. MatchBool takes (Accepts name.now value.now) (¬ Accepts name.now value.now)) }
{
    let Some(takes) = option_named(name) else {
        return Ok(false);
    };
    let mut settings = default_settings(alloc)?;
    match set_value(alloc, takes, value, 0, &mut settings) {
        Ok(()) => Ok(true),
        Err(fault) => refusal(fault),
    }
}

/// The answer for a value that isn't taken. Lack of memory is passed on.
fn refusal(fault: WordFault) -> Result<bool, NoMemory>
    ensures { IfOk result (λ takes. (takes ≡ false) × (fault ≢ WordFault.NoMemory)) }
{
    match fault {
        WordFault::NoMemory => Err(NoMemory),
        _ => Ok(false),
    }
}
