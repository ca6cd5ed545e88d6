ghost use Rattle.std.specs.Prelude.{◌≡◌, ◌≤◌, ◌∷◌, [], IfOk};
ghost use Rattle.std.specs.Option.{ForSome, option_copied, unwrap_or};
ghost use Rattle.ga_base.specs.Layers.{day_key};
ghost use Rattle.ga_storing_tests.specs.TestKeys.{TEST_DAY, host_key};

use ga_base::{
    Counter, Key, Keys, LIMIT, Listing, Names, NoMemory, Panel, Record, Sums, Text, Totals, Visitor,
};
use ga_cases::hold;
use ga_summary::{MergeFault, PartRow, PartRows, Summary, SummaryParts};
use std::alloc::Global;
use std::test::Fail;

/// The key of 2024-01-15.
fn day(alloc: Global) -> Result<Key, NoMemory>
    ensures { IfOk result (λ k. k ≡ day_key TEST_DAY) }
{
    Ok(Key {
        panel: Panel::Visitors,
        date: 20_240_115,
        parent: Text::new(),
        label: Text::of(alloc, "20240115")?,
        method: Text::new(),
        protocol: Text::new(),
    })
}

/// A host's key on that day.
fn host(alloc: Global, label: &str) -> Result<Key, NoMemory>
    ensures { IfOk result (λ k. k ≡ host_key label.now) }
{
    Ok(Key {
        panel: Panel::Hosts,
        date: 20_240_115,
        parent: Text::new(),
        label: Text::of(alloc, label)?,
        method: Text::new(),
        protocol: Text::new(),
    })
}

/// The day's key and a host's.
fn keys(alloc: Global, label: &str) -> Result<Keys, NoMemory>
    ensures { IfOk result (λ keys. keys ≡ day_key TEST_DAY ∷ host_key label.now ∷ []) }
{
    let mut keys = Listing::new(alloc);
    keys.push(day(alloc)?)?;
    keys.push(host(alloc, label)?)?;
    Ok(keys)
}

/// A visitor from a host on that day.
fn visitor(alloc: Global, host: &str) -> Result<Visitor, NoMemory>
    ensures { IfOk result (λ v. v.date ≡ TEST_DAY) }
{
    Ok(Visitor {
        host: Text::of(alloc, host)?,
        date: 20_240_115,
        agent: Text::of(alloc, "curl")?,
    })
}

/// A line of that day.
fn line(alloc: Global, bytes: u64, micros: Option<u64>) -> Result<Record, NoMemory>
    ensures date { IfOk result (λ r. r.date ≡ TEST_DAY) }
    ensures bytes { IfOk result (λ r. r.bytes ≡ bytes) }
    ensures micros { IfOk result (λ r. r.micros ≡ micros) }
{
    Ok(Record {
        host: Text::new(),
        date: 20_240_115,
        minute: None,
        method: Text::new(),
        protocol: Text::new(),
        url: Text::new(),
        status: 200,
        bytes,
        micros,
        referrer: Text::new(),
        agent: Text::new(),
        vhost: Text::new(),
        user: Text::new(),
        cache: Text::new(),
        mime: Text::new(),
        tls: Text::new(),
    })
}

#[test]
fn uncounted_lines_are_merged_up_to_the_limit(rt: HostRuntime) -> Result<(), Fail> {
    let alloc = rt.alloc();
    let mut few = Summary::of_lines(alloc, 1, 2);
    let merged = few.merge(&Summary::of_lines(alloc, 3, 0));
    let mut full = Summary::of_lines(alloc, LIMIT, 0);
    let refused = full.merge(&Summary::of_lines(alloc, 1, 0));
    let joined = full.copy()?.join(Summary::of_lines(alloc, 0, 1)).err();
    let past = MergeFault::CounterFull {
        which: Counter::Lines,
        total: 4_611_686_018_427_387_904,
    };
    assert_eq!(rt; (merged, refused, joined), (Ok(()), Err(past), Some(past)));
    let (few, full) = (few.totals(), full.totals());
    assert_eq!(rt;
        (few.lines, few.failed, few.excluded, full.lines),
        (6, 4, 2, LIMIT)
    );
    Ok(())
}

/// Counts a line of a host.
fn count(
    sum: &mut Summary,
    alloc: Global,
    label: &str,
    by: Option<&Visitor>,
    bytes: u64,
    micros: Option<u64>,
) -> Result<(), Fail>
    requires by { ForSome (option_copied by) (λ v. v.date ≡ TEST_DAY) }
    requires bytes { bytes ≤ 1000 }
    requires micros { unwrap_or micros 0 ≤ 1000 }
{
    let rec = line(alloc, bytes, micros)?;
    sum.add(&keys(alloc, label)?, by, &rec)?;
    Ok(())
}

/// What a summary has, as the tests write it: its totals, and a line a key with its label, sums and visitors.
fn shown(alloc: Global, sum: &Summary) -> Result<String, Fail> {
    let t = sum.totals();
    let mut text = format!(in alloc;
        "{} {} {} {} {} {}",
        t.lines, t.failed, t.excluded, t.hits, t.bytes, t.micros
    )?;
    for at in 0..sum.len() {
        let row = sum.row(at);
        let s = row.sums;
        text.push_str(format!(in alloc;
            "|{} {} {} {} {}",
            row.key.label.as_str(),
            s.hits,
            s.bytes,
            s.micros,
            s.max_micros
        )?
        .as_str())?;
        for name in row.names.items() {
            text.push(' ')?;
            text.push_str(name.host.as_str())?;
        }
    }
    Ok(text)
}

/// The lines of two hosts, by two visitors, of which one came twice: one line and three.
fn two_sums(alloc: Global) -> Result<(Summary, Summary), Fail> {
    let (one, two) = (visitor(alloc, "10.0.0.1")?, visitor(alloc, "10.0.0.3")?);
    let mut three = Summary::empty(alloc);
    count(&mut three, alloc, "10.0.0.1", Some(&one), 100, Some(7))?;
    count(&mut three, alloc, "10.0.0.1", Some(&one), 20, Some(9))?;
    count(&mut three, alloc, "10.0.0.2", None, 3, None)?;
    let mut sum = Summary::empty(alloc);
    count(&mut sum, alloc, "10.0.0.1", Some(&two), 1000, Some(5))?;
    Ok((sum, three))
}

/// All four lines, merged.
fn merged(alloc: Global) -> Result<Summary, Fail> {
    let (mut sum, three) = two_sums(alloc)?;
    sum.merge(&three)?;
    Ok(sum)
}

/// All four lines, joined.
fn joined(alloc: Global) -> Result<Summary, Fail> {
    let (one, three) = two_sums(alloc)?;
    Ok(one.join(three)?)
}

/// A summary's parts, row by row.
fn parts_of(alloc: Global, sum: &Summary) -> Result<SummaryParts, Fail> {
    let mut rows = PartRows::new(alloc);
    for at in 0..sum.len() {
        let row = sum.row(at);
        let (key, names) = (row.key.clone()?, row.names.clone()?);
        rows.push(PartRow {
            key,
            sums: row.sums,
            names,
        })?;
    }
    Ok(SummaryParts {
        totals: sum.totals(),
        rows,
    })
}

/// A copy of the summary that is made again of a summary's parts, as the tests write it.
fn made_again(alloc: Global, sum: &Summary) -> Result<String, Fail> {
    let again = Summary::from_parts(parts_of(alloc, sum)?)?;
    shown(alloc, &again.copy()?)
}

/// The four lines, as the tests write them.
const FOUR_LINES: &str =
    "4 0 0 4 1123 21|20240115 4 1123 21 9 10.0.0.1 10.0.0.3|10.0.0.1 3 1120 21 9 10.0.0.1 10.0.0.3|10.0.0.2 1 3 0 0";

#[test]
fn counted_lines_are_merged_and_made_again(rt: HostRuntime) -> Result<(), Fail> {
    let alloc = rt.alloc();
    assert_eq!(rt;
        made_again(alloc, &Summary::of_lines(alloc, 2, 1))?.as_str(),
        "3 2 1 0 0 0"
    );
    assert_eq!(rt; made_again(alloc, &merged(alloc)?)?.as_str(), FOUR_LINES);
    assert_eq!(rt; shown(alloc, &joined(alloc)?)?.as_str(), FOUR_LINES);
    Ok(())
}

/// Rows, and what is said of them with six lines. A row is its panel's letter, day, parent, label, method and hits.
const PARTS: &str = "\
## hours and minutes of a day, and digits that are no hour
v/20240115//20240115//1 v/20240115/20240115/2024011508//1 => sound
v/20240115//20240115//1 v/20240115/20240115/202401150859//1 => sound
v/20240115//20240115//1 v/20240115/20240115/2024011599//1 => sound
## an hour and a minute of it, as many as the day has hits, and one more
v/20240115//20240115//3 v/20240115/20240115/2024011508//1 v/20240115/20240115/202401150859//2 => sound
v/20240115//20240115//3 v/20240115/20240115/2024011508//2 v/20240115/20240115/202401150859//2 => not sound at row 2
## a day is no part of itself, nor are one digit more and three
v/20240115//20240115//1 v/20240115/20240115/20240115//1 => not sound at row 1
v/20240115//20240115//1 v/20240115/20240115/202401150//1 => not sound at row 1
v/20240115//20240115//1 v/20240115/20240115/20240115085//1 => not sound at row 1
v/20240115//20240115//1 v/20240115/20240115/20240115085959//1 => not sound at row 1
## a letter among the digits
v/20240115//20240115//1 v/20240115/20240115/20240115a8//1 => not sound at row 1
v/20240115//20240115//1 v/20240115/20240115/20240115085a//1 => not sound at row 1
## another day's parent, another day's hour, and an hour with no parent
v/20240115//20240115//1 v/20240115/20240116/2024011608//1 => not sound at row 1
v/20240115//20240115//1 v/20240115/20240115/2024011608//1 => not sound at row 1
v/20240115//20240115//1 v/20240115//2024011508//1 => not sound at row 1
## an hour without its day
v/20240115/20240115/2024011508//1 => not sound at row 0
v/20240114//20240114//1 v/20240115/20240115/2024011508//1 => not sound at row 1
## a method
v/20240115//20240115//1 v/20240115/20240115/2024011508/GET/1 => not sound at row 1
## a host without its day, and one that no line counts
h/20240115//10.0.0.1//1 => not sound at row 0
v/20240115//20240115//1 h/20240115//10.0.0.1//0 => not sound at row 1
## more hits than the six lines
v/20240115//20240115//7 => not sound at row 1
";

/// The first cell of a row, and what follows it.
fn cut(row: &str) -> (&str, &str) {
    row.split_once('/').unwrap_or((row, ""))
}

/// The key of a row, and what follows it.
fn key_in(alloc: Global, row: &str) -> Result<(Key, &str), Fail> {
    let (panel, row) = cut(row);
    let (date, row) = cut(row);
    let (parent, row) = cut(row);
    let (label, row) = cut(row);
    let (method, hits) = cut(row);
    let date = date.parse::<u32>()?;
    let key = Key {
        panel: if panel == "v" {
            Panel::Visitors
        } else {
            Panel::Hosts
        },
        date,
        parent: Text::of(alloc, parent)?,
        label: Text::of(alloc, label)?,
        method: Text::of(alloc, method)?,
        protocol: Text::new(),
    };
    Ok((key, hits))
}

/// The part that a row is, without visitors.
fn part_in(alloc: Global, row: &str) -> Result<PartRow, Fail> {
    let (key, hits) = key_in(alloc, row)?;
    Ok(PartRow {
        key,
        sums: Sums {
            hits: hits.parse()?,
            bytes: 0,
            micros: 0,
            max_micros: 0,
        },
        names: Names::new(alloc),
    })
}

/// The parts of rows, over six lines.
fn parts_in(alloc: Global, text: &str) -> Result<SummaryParts, Fail> {
    let mut rows = PartRows::new(alloc);
    for row in text.split(' ') {
        rows.push(part_in(alloc, row)?)?;
    }
    Ok(SummaryParts {
        totals: Totals {
            lines: 6,
            hits: 6,
            ..Totals::ZERO
        },
        rows,
    })
}

/// What is said of rows.
fn soundness(alloc: Global, rows: &str) -> Result<String, Fail> {
    match Summary::from_parts(parts_in(alloc, rows)?) {
        Ok(_) => Ok(String::from_str(alloc, "sound")?),
        Err(fault) => Ok(format!(in alloc; "{fault}")?),
    }
}

#[test]
fn parts_that_are_not_sound_are_refused(rt: HostRuntime) -> Result<(), Fail> {
    hold(rt.alloc(), PARTS, soundness)
}

/// Three days, one of them with an hour and a minute, and the hosts of each.
const DAYS: &str =
    "v/20240114//20240114//1 v/20240115//20240115//2 v/20240115/20240115/2024011523//1 \
v/20240115/20240115/202401152359//1 v/20240117//20240117//3 h/20240114//a//1 h/20240115//a//2 h/20240117//b//3";

/// How many of the days are kept, one number after the other, and what is left.
const KEPT: &str = "\
## all, by 0 and by numbers that are no less than there are days
0 => 6 0 0 6 0 0|20240114 1 0 0 0|20240115 2 0 0 0|2024011523 1 0 0 0|202401152359 1 0 0 0|20240117 3 0 0 0|a 1 0 0 0|a 2 0 0 0|b 3 0 0 0
3 => 6 0 0 6 0 0|20240114 1 0 0 0|20240115 2 0 0 0|2024011523 1 0 0 0|202401152359 1 0 0 0|20240117 3 0 0 0|a 1 0 0 0|a 2 0 0 0|b 3 0 0 0
4294967295 => 6 0 0 6 0 0|20240114 1 0 0 0|20240115 2 0 0 0|2024011523 1 0 0 0|202401152359 1 0 0 0|20240117 3 0 0 0|a 1 0 0 0|a 2 0 0 0|b 3 0 0 0
## the last two that have lines, and the last
2 => 6 0 0 6 0 0|20240115 2 0 0 0|2024011523 1 0 0 0|202401152359 1 0 0 0|20240117 3 0 0 0|a 2 0 0 0|b 3 0 0 0
1 => 6 0 0 6 0 0|20240117 3 0 0 0|b 3 0 0 0
## twice
2 2 => 6 0 0 6 0 0|20240115 2 0 0 0|2024011523 1 0 0 0|202401152359 1 0 0 0|20240117 3 0 0 0|a 2 0 0 0|b 3 0 0 0
2 1 => 6 0 0 6 0 0|20240117 3 0 0 0|b 3 0 0 0
1 2 => 6 0 0 6 0 0|20240117 3 0 0 0|b 3 0 0 0
1 0 => 6 0 0 6 0 0|20240117 3 0 0 0|b 3 0 0 0
";

/// What is left of the days, as the tests write it.
fn left(alloc: Global, keeps: &str) -> Result<String, Fail> {
    let mut sum = Summary::from_parts(parts_in(alloc, DAYS)?)?;
    for keep in keeps.split(' ') {
        sum.trim(keep.parse::<u32>()?);
    }
    shown(alloc, &sum)
}

#[test]
fn the_last_days_are_kept(rt: HostRuntime) -> Result<(), Fail> {
    hold(rt.alloc(), KEPT, left)
}
