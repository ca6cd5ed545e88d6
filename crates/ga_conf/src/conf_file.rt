ghost use Rattle.std.specs.Prelude.{◌≡◌, ◌≢◌, ◌++◌, ◌∷◌, ℕ, [], List, IfOk, IfErr, OnOk, Ok, Err, position};
ghost use Rattle.std.specs.Str.Lines.{lines, strip_carriage_return};
ghost use Rattle.ga_conf.specs.ConfFile.{ConfGives, IsBadLine, IsConfFault, LineGives, UnlessNoMemory};
ghost use Rattle.ga_words.specs.Joined.{AreConfWords};
ghost use Rattle.ga_conf.specs.Steps.{IsFirstLine, IsLineFault, is_feed};

use crate::ConfFault;
use crate::conf_line::{ConfLine, conf_line};
use crate::setting::{Setting, setting_of};
use ga_base::{LINE_FEED, Texts};
use ga_words::laws::each_value_is_judged;
use std::alloc::Global;

/// The byte that is dropped before a line feed.
const CARRIAGE_RETURN: u8 = b'\r';

/// The words of a configuration file.
///
/// A line ends at a line feed, before which one carriage return is dropped, or at the file's end. Spaces and tabs at its ends
/// are taken off; an empty line and one that begins with `#` are passed over. Any other line is a name, and after spaces or
/// tabs its value. A name is an option without its dashes: it gives the word `--name=value`, and a flag gives `--name` for
/// `true` and nothing for `false`. Any other name of lower-case letters, digits and dashes gives nothing.
///
/// # Errors
/// `BadConf` has the number of the first line, from 1, that is no text, is longer than 4,096 bytes without its end, has another
/// name, has the name `generate` or `log-file`, or has a value that its option doesn't take. `NoMemory` is lack of memory.
pub fn read_conf(alloc: Global, bytes: &[u8]) -> Result<Texts, ConfFault>
    // What is answered is what the file gives, or its first bad line, or lack of memory;
    ensures words { IfOk result (ConfGives bytes.now) }
    ensures fault { IfErr result (IsConfFault bytes.now) }

    // and what it gives and its first bad line are answered, unless memory runs out.
    ensures only_words { (words : List (List ℕ)) → ConfGives bytes.now words → UnlessNoMemory result (Ok words) }
    ensures only_fault { (number : ℕ) → IsBadLine bytes.now number → UnlessNoMemory result (Err (ConfFault.BadConf number)) }

    // The words are flags and options with values that they take, and `--generate` is none of them.
    ensures units { IfOk result AreConfWords }
{
    // What is known of values, for the proof alone: the call does nothing.
    each_value_is_judged();
    let mut words = Texts::new(alloc);
    read_lines(alloc, bytes, &mut words)?;
    Ok(words)
}

/// Adds the words that the lines of a file give.
fn read_lines(alloc: Global, bytes: &[u8], words: &mut Texts) -> Result<(), ConfFault>
    requires { words.old ≡ [] }
    ensures ok { OnOk result (ConfGives bytes.now words.new) }
    ensures fault { IfErr result (IsConfFault bytes.now) }
{
    let mut rest = bytes;
    let mut number = 0;
    while !rest.is_empty() {
        let (line, after) = first_line(rest);
        number += 1;
        read_line(alloc, line, number, words)?;
        rest = after;
    }
    Ok(())
}

/// The first line of a text that isn't empty, without its end, and what follows that.
fn first_line(text: &[u8]) -> (&[u8], &[u8])
    requires { text.now ≢ [] }
    ensures { IsFirstLine text.now result.0.now result.1.now }
{
    match first_feed(text) {
        Some(end) => (without_return(&text[..end]), &text[end + 1..]),
        None => (text, &[]),
    }
}

/// The place of the first line feed.
fn first_feed(text: &[u8]) -> Option<usize>
    ensures { result ≡ position is_feed text.now }
{
    text.iter().position(|b| *b == LINE_FEED)
}

/// A line without the carriage return with which it ends, if it does.
fn without_return(line: &[u8]) -> &[u8]
    ensures { result.now ≡ strip_carriage_return line.now }
{
    match line.split_last() {
        Some((last, front)) if *last == CARRIAGE_RETURN => front,
        _ => line,
    }
}

/// Adds the word of the line with this number, if it has one.
fn read_line(alloc: Global, line: &[u8], number: u64, words: &mut Texts) -> Result<(), ConfFault>
    ensures ok { OnOk result ((given : List (List ℕ)) × LineGives line.now given × (words.new ≡ words.old ++ given)) }
    ensures fault { IfErr result (IsLineFault line.now number) }
{
    let Some(line) = conf_line(line) else {
        return Err(ConfFault::BadConf { line: number });
    };
    let ConfLine::Setting { name, value } = line else {
        return Ok(());
    };
    match setting_of(alloc, name, value)? {
        Setting::PassedOver => Ok(()),
        Setting::Word(word) => {
            words.push(word)?;
            Ok(())
        }
        Setting::Refused => Err(ConfFault::BadConf { line: number }),
    }
}
