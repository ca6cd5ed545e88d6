ghost use Rattle.std.specs.Prelude.{◌≡◌, ◌⊎◌, ◌≤◌, ◌++◌, ℕ, Option, List, Result, Ok, Err, IfOk, IfErr, OnOk};
ghost use Rattle.ga_words.specs.Joined.{AreConfWords, HasNoPlace, JoinedOf, NamesConf};
ghost use Rattle.ga_words.specs.Steps.Joined.{alone};
ghost use Rattle.ga_words.specs.WordsOf.{IsSame, WordsOf};
ghost use Rattle.ga_words.specs.declared.settings.Settings.{Settings as SettingsSpec};
ghost use Rattle.ga_words.specs.declared.fault.WordFault.{WordFault as FaultSpec};

use crate::{Settings, WordFault, laws, read_words};
use ga_base::{NoMemory, Text, Texts};
use std::alloc::Global;

/// Reads the words of a command line, none of which is at fault by itself, after those of a configuration file. They mean what
/// all of them mean, one after the other; where the file gives none, what they mean alone.
///
/// # Errors
/// The first of `NoFormat`, `NoInput` and `Conflict` that all of the words give. The place of a conflict is that among `words`.
/// `NoMemory` is lack of memory.
pub fn join_words(alloc: Global, conf: &Texts, words: &[Text]) -> Result<Settings, WordFault>
    requires conf { AreConfWords conf.now }
    requires words { (name : Option (List ℕ)) × NamesConf words.now name }
    ensures ok { IfOk result (λ s. JoinedOf conf.now words.now (Ok s)) }
    ensures fault { IfErr result (λ f. (f ≡ WordFault.NoMemory) ⊎ JoinedOf conf.now words.now (Err f)) }
    ensures whole { IfErr result HasNoPlace }
    ensures only { (answer : Result SettingsSpec FaultSpec) → JoinedOf conf.now words.now answer →
        (result ≡ Err WordFault.NoMemory) ⊎ IsSame result answer }
{
    // What is known of joined words, for the proof alone: the call does nothing.
    laws::joined_words();
    match read_after(alloc, conf, words) {
        Ok(settings) => Ok(settings),
        Err(fault) => Err(fault_alone(fault, conf.items().len() as u64)),
    }
}

/// The fault of words that this many others precede, as one of these alone.
fn fault_alone(fault: WordFault, others: u64) -> WordFault
    requires { (at : ℕ) → fault ≡ WordFault.Conflict at → others ≤ at }
    ensures { result ≡ alone others fault }
{
    match fault {
        WordFault::Conflict { at } => WordFault::Conflict { at: at - others },
        _ => fault,
    }
}

/// Reads the words of a file and then the others, as one list.
fn read_after(alloc: Global, conf: &Texts, others: &[Text]) -> Result<Settings, WordFault>
    ensures ok { IfOk result (λ s. WordsOf (conf.now ++ others.now) (Ok s)) }
    ensures fault { IfErr result (λ f. (f ≡ WordFault.NoMemory) ⊎ WordsOf (conf.now ++ others.now) (Err f)) }
{
    let words = words_after(alloc, conf.items(), others)?;
    read_words(alloc, words.items())
}

/// These words, and then the others.
fn words_after(alloc: Global, first: &[Text], others: &[Text]) -> Result<Texts, NoMemory>
    ensures { IfOk result (λ words. words ≡ first.now ++ others.now) }
{
    let mut words = Texts::new(alloc);
    add_words(first, &mut words)?;
    add_words(others, &mut words)?;
    Ok(words)
}

/// Adds copies of words.
fn add_words(more: &[Text], words: &mut Texts) -> Result<(), NoMemory>
    ensures { OnOk result (words.new ≡ words.old ++ more.now) }
{
    for word in more {
        words.push(word.clone()?)?;
    }
    Ok(())
}
