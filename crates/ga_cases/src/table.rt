use std::alloc::Global;
use std::test::Fail;

/// What begins a heading.
const HEADING: &str = "## ";

/// What stands between what is given and what is expected.
const ARROW: &str = " => ";

/// Holds `say` to a table: of each case it answers what is expected. The first that it doesn't is told with its heading.
pub fn hold<F: Fn(Global, &str) -> Result<String, Fail>>(
    alloc: Global,
    table: &str,
    say: F,
) -> Result<(), Fail>
    requires { F.IsAlwaysCallable say }
{
    let mut shows = "";
    for row in table.lines() {
        match row.strip_prefix(HEADING) {
            Some(heading) => shows = heading,
            None => hold_case(alloc, shows, row, &say)?,
        }
    }
    Ok(())
}

/// Holds `say` to one case.
fn hold_case<F: Fn(Global, &str) -> Result<String, Fail>>(
    alloc: Global,
    shows: &str,
    row: &str,
    say: &F,
) -> Result<(), Fail>
    requires { F.IsAlwaysCallable say.now }
{
    let (given, expected) = row.split_once(ARROW).unwrap_or((row, ""));
    let said = say(alloc, given)?;
    if said.as_str() == expected {
        return Ok(());
    }
    Err(Fail::new(format_args!("{shows}: {given}: {said}, and not {expected}")))
}
