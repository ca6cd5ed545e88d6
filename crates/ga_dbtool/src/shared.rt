ghost use Rattle.std.specs.Prelude.{◌≡◌, MatchOption, map, position};
ghost use Rattle.ga_codec.specs.Values.{entry_value};
ghost use Rattle.ga_dbtool.specs.Merged.{ShareFirst, ShareNone};
ghost use Rattle.ga_dbtool.specs.Steps.Sharing.{is_one_log};

use ga_base::Entry;

/// The first entry of a list that is of one log with an entry of another, and the first such there, by their places.
pub(crate) fn first_shared(left: &[Entry], right: &[Entry]) -> Option<(u64, u64)>
    ensures { MatchOption result (ShareNone (map entry_value left.now) (map entry_value right.now))
        (λ places. ShareFirst (map entry_value left.now) (map entry_value right.now) places.0 places.1) }
{
    let mut at = 0;
    while at < left.len() {
        if let Some(other) = place_of(&left[at], right) {
            return Some((at as u64, other as u64));
        }
        at += 1;
    }
    None
}

/// The place of the first entry that is of the log of this one.
fn place_of(entry: &Entry, others: &[Entry]) -> Option<usize>
    ensures { result ≡ position (is_one_log entry.now) others.now }
{
    others.iter().position(|other| is_one_log(entry, other))
}

/// Whether two entries are of one log: their digests are of equally many first bytes, and equal.
fn is_one_log(entry: &Entry, other: &Entry) -> bool
    ensures { result ≡ is_one_log entry.now other.now }
{
    entry.lead == other.lead && entry.digest == other.digest
}
