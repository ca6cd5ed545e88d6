use ga_cases::hold;
use ga_report::hundredths;
use std::alloc::Global;
use std::test::Fail;

/// Numbers with a bar and a whole after each, and the share in hundredths of a percent.
const SHARES: &str = "\
## shares are rounded to the nearest
1|3 => 3333
2|3 => 6667
## halves are rounded up
1|20000 => 1
1|20001 => 0
## nothing has no share
0|0 => 0
";

/// The share that the first number is of the second.
fn share(alloc: Global, case: &str) -> Result<String, Fail> {
    let (part, whole) = case.split_once('|').unwrap_or((case, ""));
    let (part, whole) = (part.parse::<u64>()?, whole.parse::<u64>()?);
    if part > whole {
        return Err(Fail::new("no share"));
    }
    Ok(format!(in alloc; "{}", hundredths(part, whole))?)
}

#[test]
fn shares_are_rounded(rt: HostRuntime) -> Result<(), Fail> {
    hold(rt.alloc(), SHARES, share)
}
