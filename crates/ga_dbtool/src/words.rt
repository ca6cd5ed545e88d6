ghost use Rattle.std.specs.Prelude.{◌≡◌, Ok, Err, IfOk, IfErr};
ghost use Rattle.ga_dbtool.specs.Steps.Tasks.{one_name, read_words, task_value, two_names};
ghost use Rattle.ga_dbtool.specs.Words.{AreBadAt, Say};

use ga_base::Text;

/// What the tool is asked for.
#[derive(Clone, Copy, Debug)]
pub(crate) enum Task<'a> {
    /// To check the database in a folder, and say how much is in it.
    Check(&'a Text),
    /// To show what was counted under each of its keys.
    Dump(&'a Text),
    /// To merge the database in the second folder into that in the first.
    Merge(&'a Text, &'a Text),
}

/// What words ask for. An `Err` is the place of the first word that no form has there, or the number of words where one is
/// missing.
pub(crate) fn task_of(words: &[Text]) -> Result<Task<'_>, u64>
    ensures task { IfOk result (λ task. Say words.now (task_value task)) }
    ensures bad { IfErr result (AreBadAt words.now) }
{
    read_task(words)
}

/// What words are read as.
fn read_task(words: &[Text]) -> Result<Task<'_>, u64>
    ensures task { IfOk result (λ task. read_words words.now ≡ Ok (task_value task)) }
    ensures bad { IfErr result (λ at. read_words words.now ≡ Err at) }
{
    let [verb, names @ ..] = words else {
        return Err(0);
    };
    match verb.as_str() {
        "check" => Ok(Task::Check(only_name(names)?)),
        "dump" => Ok(Task::Dump(only_name(names)?)),
        "merge" => both_names(names),
        _ => Err(0),
    }
}

/// The one name that follows `check` or `dump`.
fn only_name(names: &[Text]) -> Result<&Text, u64>
    ensures name { IfOk result (λ name. one_name names.now ≡ Ok name.now) }
    ensures bad { IfErr result (λ at. one_name names.now ≡ Err at) }
{
    let [name, more @ ..] = names else {
        return Err(1);
    };
    if name.bytes().is_empty() {
        return Err(1);
    }
    if !more.is_empty() {
        return Err(2);
    }
    Ok(name)
}

/// The two names that follow `merge`, which have to differ.
fn both_names(names: &[Text]) -> Result<Task<'_>, u64>
    ensures names { IfOk result (λ task. two_names names.now ≡ Ok (task_value task)) }
    ensures bad { IfErr result (λ at. two_names names.now ≡ Err at) }
{
    let [dir, others @ ..] = names else {
        return Err(1);
    };
    if dir.bytes().is_empty() {
        return Err(1);
    }
    let [other, more @ ..] = others else {
        return Err(2);
    };
    if other.bytes().is_empty() || other.bytes() == dir.bytes() {
        return Err(2);
    }
    if !more.is_empty() {
        return Err(3);
    }
    Ok(Task::Merge(dir, other))
}
