ghost use Rattle.std.specs.Prelude.{◌≡◌, ◌≤◌};
ghost use Rattle.ga_report.specs.Percents.{hundredths};

/// The share that `n` is of `t`, in hundredths of a percent: rounded to the nearest, halves up, and 0 where `t` is 0
/// (own profile).
pub fn hundredths(n: u64, t: u64) -> u64
    requires { n ≤ t }
    ensures { result ≡ hundredths n t }
{
    if t == 0 {
        return 0;
    }
    let n = n as u128;
    let t = t as u128;
    ((20_000 * n + t) / (2 * t)) as u64
}
