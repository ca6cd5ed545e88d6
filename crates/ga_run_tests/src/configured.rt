use crate::world::World;
use std::alloc::Global;
use std::test::Fail;
use std::thread::Threads;

/// A log that each run has.
const LOG: &str = "\
192.0.2.1 - - [01/Jan/2024:00:00:00 +0000] \"GET /a.css?x HTTP/1.1\" 200 10
192.0.2.2 - - [01/Jan/2024:00:00:00 +0000] \"GET /b HTTP/1.1\" 404 7 \"-\" \"curl/8.0\"
";

/// A configuration file with the same kinds of lines as GoAccess's.
const CONF: &str = "\
log-format COMMON
# x
hl-header true
ignore-panel HOSTS
all-static-files true
";

/// Words that name the configuration file `g.conf`, and words without it that give the same answer.
const SAME: [(&str, &str); 5] = [
    (
        "--config-file=g.conf|-o|csv|a.log",
        "--log-format=COMMON|--ignore-panel=HOSTS|--all-static-files|-o|csv|a.log",
    ),
    // what the words say counts, where one value does
    (
        "--log-format=COMBINED|--config-file=g.conf|-o|csv|a.log",
        "--ignore-panel=HOSTS|--all-static-files|--log-format=COMBINED|-o|csv|a.log",
    ),
    (
        "--enable-panel=HOSTS|--config-file|g.conf|a.log|--jobs=2",
        "--log-format=COMMON|--all-static-files|a.log",
    ),
    // the last file that is named
    (
        "--config-file=nothing.conf|--config-file=g.conf|-o|r.csv|a.log",
        "--log-format=COMMON|--ignore-panel=HOSTS|--all-static-files|-o|r.csv|a.log",
    ),
    // a log that isn't there
    (
        "--config-file=g.conf|nothing.log",
        "--log-format=COMMON|nothing.log",
    ),
];

/// A configuration file, words that name it, and the exit status and the fault line of the run.
const REFUSED: [(&str, &str, &str); 8] = [
    (
        "log-format COMMON\njobs 17\n",
        "--config-file=g.conf|a.log",
        "1\ngoaccess: config file, line 2: not a setting\n",
    ),
    (
        "jobs 17",
        "--config-file=g.conf|--jobs=17",
        "1\ngoaccess: word 1: bad value\n",
    ),
    (
        "",
        "--config-file=nothing.conf|a.log",
        "2\ngoaccess: nothing.conf: read failed\n",
    ),
    (
        "",
        "--config-file=nothing.conf|--bogus",
        "1\ngoaccess: word 1: unknown option\n",
    ),
    (
        "jobs 2\n",
        "--config-file=g.conf|a.log",
        "1\ngoaccess: no log format\n",
    ),
    (
        "jobs 2\n",
        "--config-file=g.conf",
        "1\ngoaccess: no input\n",
    ),
    (
        "persist true\njobs 2\n",
        "--config-file=g.conf|--generate=5",
        "1\ngoaccess: word 1: conflict\n",
    ),
    (
        "log-format %h\n",
        "--config-file=g.conf|a.log",
        "1\ngoaccess: log format: no date\n",
    ),
];

/// What a run over the log and this configuration file answers.
fn answer<R: Threads + Sync>(
    rt: &R,
    alloc: Global,
    conf: &str,
    words: &str,
) -> Result<Vec<u8>, Fail> {
    let mut world = World::new(alloc);
    world.grow(alloc, "a.log", LOG.as_bytes())?;
    world.grow(alloc, "g.conf", conf.as_bytes())?;
    Ok(world.answer(rt, alloc, words)?)
}

/// A run with a configuration file answers what one by all words does.
#[test]
fn a_configuration_file_is_words_before_the_others(rt: HostRuntime) -> Result<(), Fail> {
    let alloc = rt.alloc();
    for (words, joined) in SAME {
        let alike = answer(&rt, alloc, CONF, words)? == answer(&rt, alloc, "", joined)?;
        if !alike {
            return Err(Fail::new(format_args!("{words} has another answer")));
        }
    }
    Ok(())
}

#[test]
fn a_configuration_file_is_refused(rt: HostRuntime) -> Result<(), Fail> {
    let alloc = rt.alloc();
    for (conf, words, said) in REFUSED {
        if answer(&rt, alloc, conf, words)?.as_slice() != said.as_bytes() {
            return Err(Fail::new(format_args!("{words} has another answer")));
        }
    }
    Ok(())
}
