ghost use Rattle.std.specs.Prelude.{◌≡◌, ◌↔◌, ◌++◌, Some, None, codes, IfOk, IsTrue, MatchOption, string_bytes};
ghost use Rattle.std.specs.List.{list_all};
ghost use Rattle.ga_conf.specs.ConfFile as spec;
ghost use Rattle.ga_conf.specs.ConfFile.{IsOtherName, takes_in_file};
ghost use Rattle.ga_conf.specs.Steps.{GivesAs, GivesFlag, GivesValue};
ghost use Rattle.ga_words.specs.Forms.{IsFormOf};
ghost use Rattle.ga_words.specs.Options.{Takes};

use ga_base::{NoMemory, Text};
use ga_words::{OptionForm, form_of, takes_value};
use std::alloc::Global;

/// What a name has before it on the command line.
const DASHES: &str = "--";

/// What stands between an option and its value in one word.
const EQUALS: &str = "=";

/// The option that asks for generated lines, which a file must not have.
const GENERATE: &str = "generate";

/// GoAccess's option that names a log, which a file must not have (own profile).
const LOG_FILE: &str = "log-file";

/// The option that names the configuration file, which sets nothing there.
const CONFIG_FILE: &str = "config-file";

/// What a setting gives.
#[derive(Drop)]
pub(crate) enum Setting {
    /// No word: a flag that is off, or a setting of GoAccess's that this program doesn't have.
    PassedOver,
    /// This word.
    Word(Text),
    /// None, since its name or its value is bad.
    Refused,
}

/// What the setting of this name and this value gives.
pub(crate) fn setting_of(alloc: Global, name: &str, value: &str) -> Result<Setting, NoMemory>
    ensures { IfOk result (GivesAs name.now value.now) }
{
    let option = option_of(alloc, name)?;
    let option = option.as_str();
    match form_in_file(name, option) {
        None if is_other_name(name) => Ok(Setting::PassedOver),
        None => Ok(Setting::Refused),
        Some(OptionForm::Flag) => flag_word(alloc, option, value),
        Some(OptionForm::Value) => value_word(alloc, option, value),
    }
}

/// What a flag of this name gives, dashes included: the flag where it is on.
fn flag_word(alloc: Global, option: &str, value: &str) -> Result<Setting, NoMemory>
    ensures { IfOk result (GivesFlag option.now value.now) }
{
    match value {
        "true" => Ok(Setting::Word(Text::of(alloc, option)?)),
        "false" => Ok(Setting::PassedOver),
        _ => Ok(Setting::Refused),
    }
}

/// What an option of this name gives, dashes included, that takes a value: one word with the value.
fn value_word(alloc: Global, option: &str, value: &str) -> Result<Setting, NoMemory>
    ensures { IfOk result (GivesValue option.now value.now) }
{
    if !takes_value(alloc, option, value)? {
        return Ok(Setting::Refused);
    }
    let mut word = String::from_str(alloc, option)?;
    word.push_str(EQUALS)?;
    word.push_str(value)?;
    Ok(Setting::Word(Text::from_string(alloc, word)?))
}

/// The option of this name, as a word of the command line.
fn option_of(alloc: Global, name: &str) -> Result<String, NoMemory>
    ensures { IfOk result (λ option. string_bytes option ≡ spec.option_of name.now) }
{
    let mut option = String::from_str(alloc, DASHES)?;
    option.push_str(name)?;
    Ok(option)
}

/// The form of the option of this name, where a file may set one. `option` is the name with its dashes.
fn form_in_file(name: &str, option: &str) -> Option<OptionForm>
    requires { option.now ≡ spec.option_of name.now }
    ensures { MatchOption result (takes_in_file name.now ≡ None) (λ form. (takes : Takes) × (takes_in_file name.now ≡ Some takes) × IsFormOf takes form) }
{
    if name == GENERATE || name == CONFIG_FILE {
        return None;
    }
    form_of(option)
}

/// Whether a setting of this name, which is no option here, is passed over.
fn is_other_name(name: &str) -> bool
    ensures { IsTrue result ↔ IsOtherName name.now }
{
    name != GENERATE && name != LOG_FILE && has_name_bytes(name.as_bytes())
}

/// Whether each byte is a lower-case letter, a digit or a dash.
fn has_name_bytes(name: &[u8]) -> bool
    ensures { result ≡ list_all spec.is_name_byte name.now }
{
    name.iter().all(|b| is_name_byte(*b))
}

/// Whether a byte is a lower-case letter, a digit or a dash.
fn is_name_byte(b: u8) -> bool
    ensures { result ≡ spec.is_name_byte b }
{
    b.is_ascii_lowercase() || b.is_ascii_digit() || b == b'-'
}
