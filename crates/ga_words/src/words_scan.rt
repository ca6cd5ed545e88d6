ghost use Rattle.std.specs.Prelude.{◌≡◌, ◌⊎◌, ℕ, Option, List, Result, Ok, Err, IfOk, IfErr};
ghost use Rattle.ga_words.specs.Joined.{ScanOf};
ghost use Rattle.ga_words.specs.declared.fault.WordFault.{WordFault as FaultSpec};

use crate::words_reading::read_all;
use crate::{WordFault, laws};
use ga_base::Text;
use std::alloc::Global;

/// Looks through the words of a command line, without the program's name, for the configuration file that they name: the last
/// of them counts.
///
/// # Errors
/// The first word, from 0, that names no option, lacks its value or holds a bad one. Whether the words mean settings as a whole
/// is known once the file is read. `NoMemory` is lack of memory.
pub fn scan_words(alloc: Global, words: &[Text]) -> Result<Option<Text>, WordFault>
    ensures ok { IfOk result (λ name. ScanOf words.now (Ok name)) }
    ensures fault { IfErr result (λ f. (f ≡ WordFault.NoMemory) ⊎ ScanOf words.now (Err f)) }
    ensures only { (answer : Result (Option (List ℕ)) FaultSpec) → ScanOf words.now answer →
        (result ≡ Err WordFault.NoMemory) ⊎ (result ≡ answer) }
{
    laws::one_scan();
    scan(alloc, words)
}

/// The answer of `scan_words`, without the law that it is the only one.
fn scan(alloc: Global, words: &[Text]) -> Result<Option<Text>, WordFault>
    ensures ok { IfOk result (λ name. ScanOf words.now (Ok name)) }
    ensures fault { IfErr result (λ f. (f ≡ WordFault.NoMemory) ⊎ ScanOf words.now (Err f)) }
{
    let settings = read_all(alloc, words)?.settings;
    Ok(settings.config_file)
}
