//! Written by tools/make_cases.py; don't edit by hand.

/// Lists of steps, a case a line below a line that says what it shows: what is to fail, the steps, and what the list answers.
///
/// `+ LOG PAGE..` grows a log by a line for each page, where `/a@2` is of the second day and others are of the first, `/a~` is the
/// front of a line, `~` the rest of one, and `!` a line that doesn't fit. `> FROM TO` renames a log. `track LOG..` is a run with both
/// words, `anew LOG..` one with `--persist` alone and `show LOG..` one with `--restore` alone; a digit after these is the number of
/// `--keep-last`. With `crash CALLS PICK` before it every call of the disk fails that comes after that many, and a crash comes after
/// it. A star is tried with each number, until no run fails.
///
/// The answer is the exit status of each run, and of each report the numbers, with the pages before their hits. The answers were
/// worked out by a program in another language.
pub const LISTS: &str = "\
## a log grows between runs
+ a.log /a; track a.log; + a.log /b /b; track a.log; track a.log => 000 | 1 1 0 0 1 10 /a=1 | 3 3 0 0 1 30 /b=2 /a=1 | 3 3 0 0 1 30 /b=2 /a=1
## a log gets another name, and the next line begins a new one
+ a.log /a /b; track a.log; + a.log /c /d~; > a.log a.log.1; + a.log.1 ~; + a.log /e; track a.log.1 a.log; track a.log a.log.1 => 000 | 2 2 0 0 1 20 /a=1 /b=1 | 5 5 0 0 1 50 /a=1 /b=1 /c=1 /d=1 /e=1 | 5 5 0 0 1 50 /a=1 /b=1 /c=1 /d=1 /e=1
## a log gets another name twice, and grows under each
+ a.log /a; track a.log; > a.log a.log.1; + a.log.1 /b; track a.log.1; > a.log.1 a.log.2; + a.log.2 /c; track a.log.2 => 000 | 1 1 0 0 1 10 /a=1 | 2 2 0 0 1 20 /a=1 /b=1 | 3 3 0 0 1 30 /a=1 /b=1 /c=1
## a name that is taken isn't given again
+ a.log /a; + b.log /b; > a.log b.log; track a.log b.log => 0 | 2 2 0 0 1 20 /a=1 /b=1
## a line is kept once its end is there
+ a.log /a /b~; track a.log; show; show a.log; + a.log ~; track a.log; show => 00000 | 1 1 0 0 1 10 /a=1 | 1 1 0 0 1 10 /a=1 | 2 2 0 0 1 10 /a=1 GET /b=1 | 2 2 0 0 1 20 /a=1 /b=1 | 2 2 0 0 1 20 /a=1 /b=1
## a line that doesn't fit is counted once
+ a.log /a !; track a.log; + a.log ! /b; track a.log => 00 | 2 1 1 0 1 10 /a=1 | 4 2 2 0 1 20 /a=1 /b=1
## a log that is named twice is counted once
+ a.log /a; track a.log a.log; + a.log /b; track a.log a.log => 00 | 1 1 0 0 1 10 /a=1 | 2 2 0 0 1 20 /a=1 /b=1
## a run with --persist alone begins anew
+ a.log /a; track a.log; + b.log /b; anew b.log; show; track b.log a.log => 0000 | 1 1 0 0 1 10 /a=1 | 1 1 0 0 1 10 /b=1 | 1 1 0 0 1 10 /b=1 | 2 2 0 0 1 20 /a=1 /b=1
## a run with --restore alone keeps nothing
+ a.log /a; track a.log; + a.log /b; show a.log; show; track a.log => 0000 | 1 1 0 0 1 10 /a=1 | 2 2 0 0 1 20 /a=1 /b=1 | 1 1 0 0 1 10 /a=1 | 2 2 0 0 1 20 /a=1 /b=1
## a log that isn't there ends a run, which keeps nothing
+ a.log /a; track a.log gone.log; show; track a.log => 200 | 0 0 0 0 0 0 | 1 1 0 0 1 10 /a=1
## crashes after runs change no report
+ a.log /a; crash 10000 255 track a.log; + a.log /b; crash 10000 0 track a.log; show; crash 10000 79 track a.log; crash 10000 - show => 00000 | 1 1 0 0 1 10 /a=1 | 2 2 0 0 1 20 /a=1 /b=1 | 2 2 0 0 1 20 /a=1 /b=1 | 2 2 0 0 1 20 /a=1 /b=1 | 2 2 0 0 1 20 /a=1 /b=1
## runs that can't open the disk, and runs that can't write, keep nothing
+ a.log /a; crash 0 0 track a.log; show; + a.log /b; crash 1 255 track a.log; crash 2 79 track a.log; show; track a.log; crash 3 - track a.log; show => 30330030 | 0 0 0 0 0 0 | 0 0 0 0 0 0 | 2 2 0 0 1 20 /a=1 /b=1 | 2 2 0 0 1 20 /a=1 /b=1
## two runs are cut one after the other
+ a.log /a; track a.log; + a.log /b; crash 5 255 track a.log; + a.log /c; crash 4 79 track a.log; track a.log => 0330 | 1 1 0 0 1 10 /a=1 | 3 3 0 0 1 30 /a=1 /b=1 /c=1
## the first call of the disk fails
disk 1: + a.log /a; track a.log; show; track a.log => 300 | 0 0 0 0 0 0 | 1 1 0 0 1 10 /a=1
## the first call of the files fails
files 1: + a.log /a; track a.log; show; track a.log => 200 | 0 0 0 0 0 0 | 1 1 0 0 1 10 /a=1
## the first write of a report fails, and its run is kept
outs 1: + a.log /a; track a.log; show; + a.log /b; track a.log => 400 | 1 1 0 0 1 10 /a=1 | 2 2 0 0 1 20 /a=1 /b=1
## an output has room for one report and a part of the next, and the runs are kept
room 1124: + a.log /a; track a.log; + a.log /b; track a.log; + a.log /c; track a.log => 044 | 1 1 0 0 1 10 /a=1 | 2 2 0 0 1 20 /a=1
## one call of the disk fails
disk *: + a.log /a; track a.log; > a.log a.log.1; + a.log /b; track a.log a.log.1 => 00 | 1 1 0 0 1 10 /a=1 | 2 2 0 0 1 20 /a=1 /b=1
## one call of the files fails
files *: + a.log /a; track a.log; > a.log a.log.1; + a.log /b; track a.log a.log.1 => 00 | 1 1 0 0 1 10 /a=1 | 2 2 0 0 1 20 /a=1 /b=1
## the first run is cut
+ a.log /a; crash * 0 track a.log; + a.log /b; track a.log => 00 | 1 1 0 0 1 10 /a=1 | 2 2 0 0 1 20 /a=1 /b=1
## a run over a renamed log is cut
+ a.log /a /b; track a.log; + a.log /c /d~; > a.log a.log.1; + a.log.1 ~; + a.log /e; crash * 255 track a.log.1 a.log; + a.log /f; track a.log a.log.1 => 000 | 2 2 0 0 1 20 /a=1 /b=1 | 5 5 0 0 1 50 /a=1 /b=1 /c=1 /d=1 /e=1 | 6 6 0 0 1 60 /a=1 /b=1 /c=1 /d=1 /e=1 /f=1
## a run with --persist alone is cut
+ a.log /a; track a.log; + b.log /b; crash * 79 anew a.log b.log; track b.log a.log => 000 | 1 1 0 0 1 10 /a=1 | 2 2 0 0 1 20 /a=1 /b=1 | 2 2 0 0 1 20 /a=1 /b=1
## a run behind a kept run with --persist alone is cut
+ a.log /a; anew a.log; + a.log /b; > a.log a.log.1; + a.log /c; crash * 0 track a.log.1 a.log; track a.log.1 a.log; show => 0000 | 1 1 0 0 1 10 /a=1 | 3 3 0 0 1 30 /a=1 /b=1 /c=1 | 3 3 0 0 1 30 /a=1 /b=1 /c=1 | 3 3 0 0 1 30 /a=1 /b=1 /c=1
+ a.log /a; anew a.log; + a.log /b; > a.log a.log.1; + a.log /c; crash * 255 track a.log.1 a.log; track a.log.1 a.log; show => 0000 | 1 1 0 0 1 10 /a=1 | 3 3 0 0 1 30 /a=1 /b=1 /c=1 | 3 3 0 0 1 30 /a=1 /b=1 /c=1 | 3 3 0 0 1 30 /a=1 /b=1 /c=1
+ a.log /a; anew a.log; + a.log /b; > a.log a.log.1; + a.log /c; crash * 79 track a.log.1 a.log; track a.log.1 a.log; show => 0000 | 1 1 0 0 1 10 /a=1 | 3 3 0 0 1 30 /a=1 /b=1 /c=1 | 3 3 0 0 1 30 /a=1 /b=1 /c=1 | 3 3 0 0 1 30 /a=1 /b=1 /c=1
## two days are kept, another number is refused before a log is opened, and a crash changes no report
+ a.log /a /b@2; track2 a.log; + a.log /c@3; track2 a.log; track3 gone.log; show; crash 10000 79 track2 a.log; show2 => 008800 | 2 2 0 0 2 20 /a=1 /b=1 | 3 2 0 0 2 20 /b=1 /c=1 | 3 2 0 0 2 20 /b=1 /c=1 | 3 2 0 0 2 20 /b=1 /c=1
## a day that was left out comes back in a later log, and is left out again
+ a.log /a@3 /b@4; track2 a.log; + b.log /c /d@2; track2 b.log; show2; + b.log /e@5 /f@4; track2 b.log a.log => 0000 | 2 2 0 0 2 20 /a=1 /b=1 | 4 2 0 0 2 20 /a=1 /b=1 | 4 2 0 0 2 20 /a=1 /b=1 | 6 3 0 0 2 30 /b=1 /e=1 /f=1
## a run with --persist alone takes another number
+ a.log /a /b@2 /c@3; track2 a.log; anew3 a.log; track2 a.log; + a.log /d@4; track3 a.log => 0080 | 3 2 0 0 2 20 /b=1 /c=1 | 3 3 0 0 3 30 /a=1 /b=1 /c=1 | 4 3 0 0 3 30 /b=1 /c=1 /d=1
## runs that keep all days, and one that keeps two
+ a.log /a /b@2 /c@3; track a.log; track2 a.log; show2; + a.log /d@4; track a.log => 0880 | 3 3 0 0 3 30 /a=1 /b=1 /c=1 | 4 4 0 0 4 40 /a=1 /b=1 /c=1 /d=1
## a run that keeps two days is cut
+ a.log /a /b@2; track2 a.log; + a.log /c@3 /d; crash * 0 track2 a.log; + a.log /e@4; track2 a.log; show2 => 0000 | 2 2 0 0 2 20 /a=1 /b=1 | 4 2 0 0 2 20 /b=1 /c=1 | 5 2 0 0 2 20 /c=1 /e=1 | 5 2 0 0 2 20 /c=1 /e=1
+ a.log /a /b@2; track2 a.log; + a.log /c@3 /d; crash * 255 track2 a.log; + a.log /e@4; track2 a.log; show2 => 0000 | 2 2 0 0 2 20 /a=1 /b=1 | 4 2 0 0 2 20 /b=1 /c=1 | 5 2 0 0 2 20 /c=1 /e=1 | 5 2 0 0 2 20 /c=1 /e=1
+ a.log /a /b@2; track2 a.log; + a.log /c@3 /d; crash * 79 track2 a.log; + a.log /e@4; track2 a.log; show2 => 0000 | 2 2 0 0 2 20 /a=1 /b=1 | 4 2 0 0 2 20 /b=1 /c=1 | 5 2 0 0 2 20 /c=1 /e=1 | 5 2 0 0 2 20 /c=1 /e=1
## a run with --persist alone that takes another number is cut
+ a.log /a /b@2 /c@3; anew3 a.log; crash * 79 anew3 a.log; + a.log /d@4; track3 a.log => 000 | 3 3 0 0 3 30 /a=1 /b=1 /c=1 | 3 3 0 0 3 30 /a=1 /b=1 /c=1 | 4 3 0 0 3 30 /b=1 /c=1 /d=1
";
