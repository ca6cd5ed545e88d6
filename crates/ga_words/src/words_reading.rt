ghost use Rattle.std.specs.Prelude.{◌≡◌, ◌≢◌, ◌⊎◌, ◌+◌, ◌<◌, ◌^◌, ◌∷◌, ◌++◌, [], if◌then◌else◌, Some, length, codes, List, Result, Ok, Err, position, IfOk, IfErr, OnOk};
ghost use Rattle.std.specs.Str.{bytes_eq};
ghost use Rattle.ga_words.specs.Options.{takes_of};
ghost use Rattle.ga_words.specs.Steps.Settings.{meaning};
ghost use Rattle.ga_words.specs.Units.{AreNamed, AddsLogs};
ghost use Rattle.ga_words.specs.WordsOf.{WordsOf, HasFault, IsSame};
ghost use Rattle.ga_words.specs.Steps.Words.{TakesUnit, IsUnitFault, HasRead, HasReadAll, IsTail, IsNameless, is_nameless};
ghost use Rattle.ga_words.specs.declared.settings.Settings.{Settings as SettingsSpec};
ghost use Rattle.ga_words.specs.declared.fault.WordFault.{WordFault as FaultSpec};

use crate::check_settings::check_settings;
use crate::options::Takes;
use crate::setting::{add_log, set_flag, set_value};
use crate::settings::default_settings;
use crate::word::{Word, word_of};
use crate::{Settings, WordFault, laws};
use ga_base::Text;
use std::alloc::Global;

/// The word after which every word is a log.
const END: &str = "--";

/// The option that asks for generated lines.
const GENERATE: &str = "--generate";

/// What is read of the words so far.
#[derive(Drop)]
pub(crate) struct Reading {
    /// What they set.
    pub(crate) settings: Settings,
    /// The place of the word that names `--generate`, the last of them.
    generate_at: Option<u64>,
}

/// Reads the words of a command line, without the program's name.
///
/// A word that doesn't begin with `-` is the name of a log, and after `--` every word is one. An option with a value is
/// written `--name=value`, or `--name` and then the value, whatever that word is; `-o` takes its value in the second
/// form alone. Of an option with one value the last counts, flags may be repeated, and of the words on a panel the last
/// decides.
///
/// # Errors
/// The first word, from 0, that names no option, lacks its value or holds a bad one; and if there is none, the first of
/// `NoFormat`, `NoInput` and `Conflict` that the words give. `NoMemory` is lack of memory.
pub fn read_words(alloc: Global, words: &[Text]) -> Result<Settings, WordFault>
    ensures ok { IfOk result (λ s. WordsOf words.now (Ok s)) }
    ensures fault { IfErr result (λ f. (f ≡ WordFault.NoMemory) ⊎ WordsOf words.now (Err f)) }
    ensures only { (answer : Result SettingsSpec FaultSpec) → WordsOf words.now answer →
        (result ≡ Err WordFault.NoMemory) ⊎ IsSame result answer }
{
    laws::one_reading();
    answer_of(alloc, words)
}

/// The answer of `read_words`, without the law that it is the only one.
fn answer_of(alloc: Global, words: &[Text]) -> Result<Settings, WordFault>
    ensures ok { IfOk result (λ s. WordsOf words.now (Ok s)) }
    ensures fault { IfErr result (λ f. (f ≡ WordFault.NoMemory) ⊎ WordsOf words.now (Err f)) }
{
    let reading = read_all(alloc, words)?;
    match check_settings(&reading.settings, reading.generate_at) {
        None => Ok(reading.settings),
        Some(fault) => Err(fault),
    }
}

/// Reads all words, the units and the logs after them.
pub(crate) fn read_all(alloc: Global, words: &[Text]) -> Result<Reading, WordFault>
    ensures ok { IfOk result (HasReadAll words.now) }
    ensures fault { IfErr result (λ f. (f ≡ WordFault.NoMemory) ⊎ HasFault words.now f) }
{
    let mut reading = Reading {
        settings: default_settings(alloc)?,
        generate_at: None,
    };
    read_into(alloc, words, &mut reading)?;
    Ok(reading)
}

/// Reads all words into a reading of none of them.
fn read_into(alloc: Global, words: &[Text], reading: &mut Reading) -> Result<(), WordFault>
    requires { HasRead words.now words.now reading.old }
    ensures ok { OnOk result (HasReadAll words.now reading.new) }
    ensures fault { IfErr result (λ f. (f ≡ WordFault.NoMemory) ⊎ HasFault words.now f) }
{
    let rest = read_units(alloc, words, reading)?;
    let Some((_, logs)) = rest.split_first() else {
        return Ok(());
    };
    let at = (words.len() - logs.len()) as u64;
    add_logs(logs, at, &mut reading.settings)?;
    Ok(())
}

/// Reads the units up to the end, or up to the word after which every word is a log. Answers what follows them.
fn read_units<'a>(
    alloc: Global,
    words: &'a [Text],
    reading: &mut Reading,
) -> Result<&'a [Text], WordFault>
    requires { HasRead words.now words.now reading.old }
    ensures ok { IfOk result (λ rest. HasRead words.now rest.now reading.new × IsTail rest.now) }
    ensures fault { IfErr result (λ f. (f ≡ WordFault.NoMemory) ⊎ HasFault words.now f) }
{
    let mut rest = words;
    while let Some((word, after)) = rest.split_first() {
        if word.as_str() == END {
            break;
        }
        let at = (words.len() - rest.len()) as u64;
        rest = read_unit(alloc, word, after, at, reading)?;
    }
    Ok(rest)
}

/// Reads the unit that begins with `word`, at `at`, and answers what follows it.
fn read_unit<'a>(
    alloc: Global,
    word: &Text,
    after: &'a [Text],
    at: u64,
    reading: &mut Reading,
) -> Result<&'a [Text], WordFault>
    requires no_end { word.now ≢ codes "--" }
    requires room { at + length after.now < 2 ^ 64 }
    ensures ok { IfOk result (λ rest. TakesUnit (word.now ∷ after.now) rest.now at reading.old reading.new) }
    ensures fault { IfErr result (IsUnitFault at (word.now ∷ after.now)) }
{
    let text = word.as_str();
    match word_of(text) {
        Word::Log if text.is_empty() => Err(WordFault::BadValue { at }),
        Word::Log => {
            add_log(word, &mut reading.settings)?;
            Ok(after)
        }
        Word::Alone(takes) => read_option(alloc, text, takes, after, at, reading),
        Word::Joined { name, takes, value } => {
            set_value(alloc, takes, value, at, &mut reading.settings)?;
            note_generate(name, at, &mut reading.generate_at);
            Ok(after)
        }
        Word::Unknown => Err(WordFault::UnknownOption { at }),
    }
}

/// Reads a flag, or an option whose value is the word after it.
fn read_option<'a>(
    alloc: Global,
    name: &str,
    takes: Takes,
    after: &'a [Text],
    at: u64,
    reading: &mut Reading,
) -> Result<&'a [Text], WordFault>
    requires option { takes_of name.now ≡ Some (meaning takes) }
    requires room { at + length after.now < 2 ^ 64 }
    ensures ok { IfOk result (λ rest. TakesUnit (name.now ∷ after.now) rest.now at reading.old reading.new) }
    ensures fault { IfErr result (IsUnitFault at (name.now ∷ after.now)) }
{
    if let Takes::Flag(flag) = takes {
        set_flag(flag, &mut reading.settings);
        return Ok(after);
    }
    let Some((value, after)) = after.split_first() else {
        return Err(WordFault::MissingValue { at });
    };
    set_value(alloc, takes, value.as_str(), at + 1, &mut reading.settings)?;
    note_generate(name, at, &mut reading.generate_at);
    Ok(after)
}

/// Keeps the place of an option that asks for generated lines.
fn note_generate(name: &str, at: u64, generate_at: &mut Option<u64>)
    ensures { generate_at.new ≡ (if bytes_eq name.now (codes "--generate") then Some at else generate_at.old) }
{
    if name == GENERATE {
        *generate_at = Some(at);
    }
}

/// Adds logs, the first of them the word at `at`. Each has to have a name.
fn add_logs(logs: &[Text], at: u64, settings: &mut Settings) -> Result<(), WordFault>
    requires { at + length logs.now < 2 ^ 64 }
    ensures ok { OnOk result (AreNamed logs.now × AddsLogs logs.now settings.old settings.new) }
    ensures fault { IfErr result (λ f. (f ≡ WordFault.NoMemory) ⊎ IsNameless at logs.now f) }
{
    if let Some(named) = first_nameless(logs) {
        return Err(WordFault::BadValue {
            at: at + named as u64,
        });
    }
    for log in logs {
        add_log(log, settings)?;
    }
    Ok(())
}

/// Where the first log without a name stands.
fn first_nameless(logs: &[Text]) -> Option<usize>
    ensures { result ≡ position is_nameless logs.now }
{
    logs.iter().position(|log| log.bytes().is_empty())
}
