//! Written by tools/make_cases.py; don't edit by hand.

/// Runs whose words say no run, in the form of `REPORTS`.
pub const WORD_FAULTS: &str = "\
a line of a browsers file that is no rule
-----
--browsers-file=agents.txt|--log-format=COMMON|-o|csv|a.log
-----
192.0.2.1 - - [01/Jan/2024:00:00:00 +0000] \"GET /a HTTP/1.1\" 200 10

+++++

+++++
# x
Foo

-----
1
goaccess: browsers file, line 2: not a rule

=====
a bad format before a file that isn't there
-----
--log-format=COMMON|--date-format=%d|--browsers-file=nothing.txt|a.log
-----
192.0.2.1 - - [01/Jan/2024:00:00:00 +0000] \"GET /a HTTP/1.1\" 200 10

-----
1
goaccess: date format, byte 2: bad directive

=====
a time format without minutes
-----
--log-format=COMMON|--time-format=%H|a.log
-----
192.0.2.1 - - [01/Jan/2024:00:00:00 +0000] \"GET /a HTTP/1.1\" 200 10

-----
1
goaccess: time format, byte 2: bad directive

=====
a field directly followed by a field
-----
--log-format=%h%d \"%r\"|nothing.log
-----
192.0.2.1 - - [01/Jan/2024:00:00:00 +0000] \"GET /a HTTP/1.1\" 200 10

-----
1
goaccess: log format, byte 0: no delimiter

=====
a log format without a date
-----
--log-format=%h \"%r\"|a.log
-----
192.0.2.1 - - [01/Jan/2024:00:00:00 +0000] \"GET /a HTTP/1.1\" 200 10

-----
1
goaccess: log format: no date

=====
a JSON format with a field directly followed by a field
-----
--log-format={\"a\":\"%h%d\"}|a
-----

-----
1
goaccess: log format, leaf 0, byte 0: no delimiter

=====
a JSON format without a request
-----
--log-format={\"ip\":\"%h\",\"t\":\"%d\"}|a
-----

-----
1
goaccess: log format: no request

=====
a JSON format with a number
-----
--log-format={\"a\":1}|a
-----

-----
1
goaccess: log format, leaf 0: bad shape

=====
a JSON format with null after a leaf
-----
--log-format={\"b\":null,\"a\":\"%h\"}|a
-----

-----
1
goaccess: log format, leaf 1: bad shape

=====
a JSON format that gives a host twice, before what it doesn't know
-----
--log-format={\"b\":\"x%h%z\",\"a\":\"%h\"}|a
-----

-----
1
goaccess: log format, leaf 1, byte 1: repeated

=====
a JSON format that isn't closed
-----
--log-format={|a
-----

-----
1
goaccess: log format: not JSON

=====
an option that there isn't
-----
--bogus
-----

-----
1
goaccess: word 0: unknown option

=====
an option without its value
-----
--jobs
-----

-----
1
goaccess: word 0: value missing

=====
a value out of range
-----
--jobs=17|a
-----

-----
1
goaccess: word 0: bad value

=====
a value out of range, in the word after its option
-----
--jobs|17|a
-----

-----
1
goaccess: word 1: bad value

=====
a log without a format
-----
a
-----

-----
1
goaccess: no log format

=====
an empty word
-----

-----

-----
1
goaccess: word 0: bad value

=====
nothing to read
-----
-o|csv
-----

-----
1
goaccess: no input

=====
words that can't stand together
-----
--generate=5|--persist
-----

-----
1
goaccess: word 0: conflict

=====
days under another name
-----
--date-spec=day
-----

-----
1
goaccess: word 0: bad value

=====
hours in capitals, in the word after its option
-----
--date-spec|HR|a
-----

-----
1
goaccess: word 1: bad value

=====
no word for what VISITORS counts by
-----
--date-spec=|a
-----

-----
1
goaccess: word 0: bad value

=====
days for what VISIT_TIMES counts by
-----
--hour-spec=date|a
-----

-----
1
goaccess: word 0: bad value

=====
nothing after what VISIT_TIMES counts by
-----
--hour-spec
-----

-----
1
goaccess: word 0: value missing

=====
no days that are kept
-----
--keep-last=0|a
-----

-----
1
goaccess: word 0: bad value

=====
more days than may be kept, in the word after its option
-----
--keep-last|4294967296|a
-----

-----
1
goaccess: word 1: bad value

=====
a number of days below none
-----
--keep-last=-1|a
-----

-----
1
goaccess: word 0: bad value

=====
an empty number of days
-----
--keep-last=|a
-----

-----
1
goaccess: word 0: bad value

=====
a word for a number of days
-----
--keep-last=two|a
-----

-----
1
goaccess: word 0: bad value

=====
nothing after the option of days
-----
--keep-last
-----

-----
1
goaccess: word 0: value missing

=====
a format of the generator's lines without a date
-----
--generate=2|--log-format=%h
-----

-----
1
goaccess: log format: no date
";

/// Runs that fail over their files, in the same form.
pub const FILE_FAULTS: &str = "\
a log that isn't there, after one that is
-----
-o|nothing.csv|--log-format=COMMON|a.log|nothing.log
-----
192.0.2.1 - - [01/Jan/2024:00:00:00 +0000] \"GET /a HTTP/1.1\" 200 10

-----
2
goaccess: nothing.log: read failed

=====
a browsers file that isn't there
-----
--log-format=COMMON|-o|csv|--browsers-file=nothing.txt|a.log
-----
192.0.2.1 - - [01/Jan/2024:00:00:00 +0000] \"GET /a HTTP/1.1\" 200 10

-----
2
goaccess: nothing.txt: read failed

=====
a counter that is full before the next log is opened
-----
--log-format=COMMON|a.log|nothing.log
-----
192.0.2.1 - - [01/Jan/2024:00:00:00 +0000] \"GET /a HTTP/1.1\" 200 1000000000000000000
192.0.2.1 - - [01/Jan/2024:00:00:00 +0000] \"GET /a HTTP/1.1\" 200 1000000000000000000
192.0.2.1 - - [01/Jan/2024:00:00:00 +0000] \"GET /a HTTP/1.1\" 200 1000000000000000000
192.0.2.1 - - [01/Jan/2024:00:00:00 +0000] \"GET /a HTTP/1.1\" 200 1000000000000000000
192.0.2.1 - - [01/Jan/2024:00:00:00 +0000] \"GET /a HTTP/1.1\" 200 1000000000000000000

-----
5
goaccess: counter full: bytes 5000000000000000000

=====
a counter that is full in the second log
-----
--log-format=COMMON|a.log|b.log
-----
192.0.2.1 - - [01/Jan/2024:00:00:00 +0000] \"GET /a HTTP/1.1\" 200 1000000000000000000
192.0.2.1 - - [01/Jan/2024:00:00:00 +0000] \"GET /a HTTP/1.1\" 200 1000000000000000000
192.0.2.1 - - [01/Jan/2024:00:00:00 +0000] \"GET /a HTTP/1.1\" 200 1000000000000000000

+++++
192.0.2.1 - - [01/Jan/2024:00:00:00 +0000] \"GET /a HTTP/1.1\" 200 1000000000000000000
192.0.2.1 - - [01/Jan/2024:00:00:00 +0000] \"GET /a HTTP/1.1\" 200 1000000000000000000

-----
5
goaccess: counter full: bytes 5000000000000000000

=====
a counter that is full before the last line
-----
--log-format=COMMON|a.log
-----
192.0.2.1 - - [01/Jan/2024:00:00:00 +0000] \"GET /a HTTP/1.1\" 200 1000000000000000000
192.0.2.1 - - [01/Jan/2024:00:00:00 +0000] \"GET /a HTTP/1.1\" 200 1000000000000000000
192.0.2.1 - - [01/Jan/2024:00:00:00 +0000] \"GET /a HTTP/1.1\" 200 1000000000000000000
192.0.2.1 - - [01/Jan/2024:00:00:00 +0000] \"GET /a HTTP/1.1\" 200 1000000000000000000
192.0.2.1 - - [01/Jan/2024:00:00:00 +0000] \"GET /a HTTP/1.1\" 200 1000000000000000000
192.0.2.1 - - [01/Jan/2024:00:00:00 +0000] \"GET /a HTTP/1.1\" 200 1000000000000000000

-----
5
goaccess: counter full: bytes 5000000000000000000

=====
a counter that is full by the lines of days that are left out
-----
--keep-last=1|--log-format=COMMON|a.log
-----
192.0.2.1 - - [01/Jan/2024:00:00:00 +0000] \"GET /a HTTP/1.1\" 200 1000000000000000000
192.0.2.1 - - [02/Jan/2024:00:00:00 +0000] \"GET /a HTTP/1.1\" 200 1000000000000000000
192.0.2.1 - - [03/Jan/2024:00:00:00 +0000] \"GET /a HTTP/1.1\" 200 1000000000000000000
192.0.2.1 - - [04/Jan/2024:00:00:00 +0000] \"GET /a HTTP/1.1\" 200 1000000000000000000
192.0.2.1 - - [05/Jan/2024:00:00:00 +0000] \"GET /a HTTP/1.1\" 200 1000000000000000000

-----
5
goaccess: counter full: bytes 5000000000000000000

=====
microseconds past the limit
-----
--log-format=%h %^[%d:%t %^] \"%r\" %s %b %D|a.log
-----
192.0.2.1 - - [01/Jan/2024:00:00:00 +0000] \"GET /a HTTP/1.1\" 200 - 1000000000000000000
192.0.2.1 - - [01/Jan/2024:00:00:00 +0000] \"GET /a HTTP/1.1\" 200 - 1000000000000000000
192.0.2.1 - - [01/Jan/2024:00:00:00 +0000] \"GET /a HTTP/1.1\" 200 - 1000000000000000000
192.0.2.1 - - [01/Jan/2024:00:00:00 +0000] \"GET /a HTTP/1.1\" 200 - 1000000000000000000
192.0.2.1 - - [01/Jan/2024:00:00:00 +0000] \"GET /a HTTP/1.1\" 200 - 1000000000000000000

-----
5
goaccess: counter full: micros 5000000000000000000
";
