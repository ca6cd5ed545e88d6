//! Written by tools/make_cases.py; don't edit by hand.

/// Histories, a line of `=` between two: a name, and steps, with a line of `~` before each. A step appends to a log, which begins
/// with `+` and its name; renames one, which begins with `>` and both names; or is a run: its words with a bar between two, and
/// what it answers, which is its exit status and then what standard output, standard error and the report's file took. The
/// answers were worked out by a program in another language.
pub const HISTORIES: &str = "\
logs that are rotated between the runs
~~~~~
+a.log
-----
192.0.2.1 - - [01/Jan/2024:00:00:00 +0000] \"GET /a HTTP/1.1\" 200 10
192.0.2.1 - - [01/Jan/2024:00:00:00 +0000] \"GET /b HTTP/1.1\" 200 10

~~~~~
--log-format=COMMON|-o|csv|--restore|--persist|a.log
-----
0
id,parent_id,panel,hits,hits%,visitors,visitors%,bytes,bytes%,avgts,cumts,maxts,method,protocol,data
0,,general,2,,,,,,,,,,,total_requests
1,,general,2,,,,,,,,,,,valid_requests
2,,general,0,,,,,,,,,,,failed_requests
3,,general,0,,,,,,,,,,,excluded_hits
4,,general,1,,,,,,,,,,,unique_visitors
5,,general,20,,,,,,,,,,,bandwidth
0,,visitors,2,100.00,1,100.00,20,100.00,0,0,0,,,20240101
0,,requests,1,50.00,1,100.00,10,50.00,0,0,0,GET,HTTP/1.1,/a
1,,requests,1,50.00,1,100.00,10,50.00,0,0,0,GET,HTTP/1.1,/b
0,,hosts,2,100.00,1,100.00,20,100.00,0,0,0,,,192.0.2.1
0,,visit_times,2,100.00,1,100.00,20,100.00,0,0,0,,,00
0,,status_codes,2,100.00,1,100.00,20,100.00,0,0,0,,,2xx Success
1,0,status_codes,2,100.00,1,100.00,20,100.00,0,0,0,,,200

~~~~~
+a.log
-----
192.0.2.1 - - [01/Jan/2024:00:00:00 +0000] \"GET /c HTTP/1.1\" 200 10

~~~~~
>a.log|a.log.1
-----

~~~~~
+a.log
-----
192.0.2.1 - - [01/Jan/2024:00:00:00 +0000] \"GET /d HTTP/1.1\" 200 10

~~~~~
--log-format=COMMON|-o|csv|--restore|--persist|a.log.1|a.log
-----
0
id,parent_id,panel,hits,hits%,visitors,visitors%,bytes,bytes%,avgts,cumts,maxts,method,protocol,data
0,,general,4,,,,,,,,,,,total_requests
1,,general,4,,,,,,,,,,,valid_requests
2,,general,0,,,,,,,,,,,failed_requests
3,,general,0,,,,,,,,,,,excluded_hits
4,,general,1,,,,,,,,,,,unique_visitors
5,,general,40,,,,,,,,,,,bandwidth
0,,visitors,4,100.00,1,100.00,40,100.00,0,0,0,,,20240101
0,,requests,1,25.00,1,100.00,10,25.00,0,0,0,GET,HTTP/1.1,/a
1,,requests,1,25.00,1,100.00,10,25.00,0,0,0,GET,HTTP/1.1,/b
2,,requests,1,25.00,1,100.00,10,25.00,0,0,0,GET,HTTP/1.1,/c
3,,requests,1,25.00,1,100.00,10,25.00,0,0,0,GET,HTTP/1.1,/d
0,,hosts,4,100.00,1,100.00,40,100.00,0,0,0,,,192.0.2.1
0,,visit_times,4,100.00,1,100.00,40,100.00,0,0,0,,,00
0,,status_codes,4,100.00,1,100.00,40,100.00,0,0,0,,,2xx Success
1,0,status_codes,4,100.00,1,100.00,40,100.00,0,0,0,,,200

~~~~~
+a.log
-----
192.0.2.1 - - [01/Jan/2024:00:00:00 +0000] \"GET /e HTTP/1.1\" 200 10

~~~~~
--log-format=COMMON|-o|csv|--restore|--persist|a.log.1|a.log
-----
0
id,parent_id,panel,hits,hits%,visitors,visitors%,bytes,bytes%,avgts,cumts,maxts,method,protocol,data
0,,general,5,,,,,,,,,,,total_requests
1,,general,5,,,,,,,,,,,valid_requests
2,,general,0,,,,,,,,,,,failed_requests
3,,general,0,,,,,,,,,,,excluded_hits
4,,general,1,,,,,,,,,,,unique_visitors
5,,general,50,,,,,,,,,,,bandwidth
0,,visitors,5,100.00,1,100.00,50,100.00,0,0,0,,,20240101
0,,requests,1,20.00,1,100.00,10,20.00,0,0,0,GET,HTTP/1.1,/a
1,,requests,1,20.00,1,100.00,10,20.00,0,0,0,GET,HTTP/1.1,/b
2,,requests,1,20.00,1,100.00,10,20.00,0,0,0,GET,HTTP/1.1,/c
3,,requests,1,20.00,1,100.00,10,20.00,0,0,0,GET,HTTP/1.1,/d
4,,requests,1,20.00,1,100.00,10,20.00,0,0,0,GET,HTTP/1.1,/e
0,,hosts,5,100.00,1,100.00,50,100.00,0,0,0,,,192.0.2.1
0,,visit_times,5,100.00,1,100.00,50,100.00,0,0,0,,,00
0,,status_codes,5,100.00,1,100.00,50,100.00,0,0,0,,,2xx Success
1,0,status_codes,5,100.00,1,100.00,50,100.00,0,0,0,,,200

~~~~~
--log-format=COMMON|-o|csv|--restore
-----
0
id,parent_id,panel,hits,hits%,visitors,visitors%,bytes,bytes%,avgts,cumts,maxts,method,protocol,data
0,,general,5,,,,,,,,,,,total_requests
1,,general,5,,,,,,,,,,,valid_requests
2,,general,0,,,,,,,,,,,failed_requests
3,,general,0,,,,,,,,,,,excluded_hits
4,,general,1,,,,,,,,,,,unique_visitors
5,,general,50,,,,,,,,,,,bandwidth
0,,visitors,5,100.00,1,100.00,50,100.00,0,0,0,,,20240101
0,,requests,1,20.00,1,100.00,10,20.00,0,0,0,GET,HTTP/1.1,/a
1,,requests,1,20.00,1,100.00,10,20.00,0,0,0,GET,HTTP/1.1,/b
2,,requests,1,20.00,1,100.00,10,20.00,0,0,0,GET,HTTP/1.1,/c
3,,requests,1,20.00,1,100.00,10,20.00,0,0,0,GET,HTTP/1.1,/d
4,,requests,1,20.00,1,100.00,10,20.00,0,0,0,GET,HTTP/1.1,/e
0,,hosts,5,100.00,1,100.00,50,100.00,0,0,0,,,192.0.2.1
0,,visit_times,5,100.00,1,100.00,50,100.00,0,0,0,,,00
0,,status_codes,5,100.00,1,100.00,50,100.00,0,0,0,,,2xx Success
1,0,status_codes,5,100.00,1,100.00,50,100.00,0,0,0,,,200

~~~~~
--log-format=COMMON|-o|csv|--persist|a.log
-----
0
id,parent_id,panel,hits,hits%,visitors,visitors%,bytes,bytes%,avgts,cumts,maxts,method,protocol,data
0,,general,2,,,,,,,,,,,total_requests
1,,general,2,,,,,,,,,,,valid_requests
2,,general,0,,,,,,,,,,,failed_requests
3,,general,0,,,,,,,,,,,excluded_hits
4,,general,1,,,,,,,,,,,unique_visitors
5,,general,20,,,,,,,,,,,bandwidth
0,,visitors,2,100.00,1,100.00,20,100.00,0,0,0,,,20240101
0,,requests,1,50.00,1,100.00,10,50.00,0,0,0,GET,HTTP/1.1,/d
1,,requests,1,50.00,1,100.00,10,50.00,0,0,0,GET,HTTP/1.1,/e
0,,hosts,2,100.00,1,100.00,20,100.00,0,0,0,,,192.0.2.1
0,,visit_times,2,100.00,1,100.00,20,100.00,0,0,0,,,00
0,,status_codes,2,100.00,1,100.00,20,100.00,0,0,0,,,2xx Success
1,0,status_codes,2,100.00,1,100.00,20,100.00,0,0,0,,,200

~~~~~
--log-format=COMMON|-o|csv|--restore|--db-path=elsewhere
-----
0
id,parent_id,panel,hits,hits%,visitors,visitors%,bytes,bytes%,avgts,cumts,maxts,method,protocol,data
0,,general,2,,,,,,,,,,,total_requests
1,,general,2,,,,,,,,,,,valid_requests
2,,general,0,,,,,,,,,,,failed_requests
3,,general,0,,,,,,,,,,,excluded_hits
4,,general,1,,,,,,,,,,,unique_visitors
5,,general,20,,,,,,,,,,,bandwidth
0,,visitors,2,100.00,1,100.00,20,100.00,0,0,0,,,20240101
0,,requests,1,50.00,1,100.00,10,50.00,0,0,0,GET,HTTP/1.1,/d
1,,requests,1,50.00,1,100.00,10,50.00,0,0,0,GET,HTTP/1.1,/e
0,,hosts,2,100.00,1,100.00,20,100.00,0,0,0,,,192.0.2.1
0,,visit_times,2,100.00,1,100.00,20,100.00,0,0,0,,,00
0,,status_codes,2,100.00,1,100.00,20,100.00,0,0,0,,,2xx Success
1,0,status_codes,2,100.00,1,100.00,20,100.00,0,0,0,,,200

=====
a log that is named twice
~~~~~
+a.log
-----
192.0.2.1 - - [01/Jan/2024:00:00:00 +0000] \"GET /a HTTP/1.1\" 200 10

~~~~~
--log-format=COMMON|-o|csv|--restore|--persist|a.log|a.log
-----
0
id,parent_id,panel,hits,hits%,visitors,visitors%,bytes,bytes%,avgts,cumts,maxts,method,protocol,data
0,,general,1,,,,,,,,,,,total_requests
1,,general,1,,,,,,,,,,,valid_requests
2,,general,0,,,,,,,,,,,failed_requests
3,,general,0,,,,,,,,,,,excluded_hits
4,,general,1,,,,,,,,,,,unique_visitors
5,,general,10,,,,,,,,,,,bandwidth
0,,visitors,1,100.00,1,100.00,10,100.00,0,0,0,,,20240101
0,,requests,1,100.00,1,100.00,10,100.00,0,0,0,GET,HTTP/1.1,/a
0,,hosts,1,100.00,1,100.00,10,100.00,0,0,0,,,192.0.2.1
0,,visit_times,1,100.00,1,100.00,10,100.00,0,0,0,,,00
0,,status_codes,1,100.00,1,100.00,10,100.00,0,0,0,,,2xx Success
1,0,status_codes,1,100.00,1,100.00,10,100.00,0,0,0,,,200

~~~~~
--log-format=COMMON|-o|csv|a.log|a.log
-----
0
id,parent_id,panel,hits,hits%,visitors,visitors%,bytes,bytes%,avgts,cumts,maxts,method,protocol,data
0,,general,2,,,,,,,,,,,total_requests
1,,general,2,,,,,,,,,,,valid_requests
2,,general,0,,,,,,,,,,,failed_requests
3,,general,0,,,,,,,,,,,excluded_hits
4,,general,1,,,,,,,,,,,unique_visitors
5,,general,20,,,,,,,,,,,bandwidth
0,,visitors,2,100.00,1,100.00,20,100.00,0,0,0,,,20240101
0,,requests,2,100.00,1,100.00,20,100.00,0,0,0,GET,HTTP/1.1,/a
0,,hosts,2,100.00,1,100.00,20,100.00,0,0,0,,,192.0.2.1
0,,visit_times,2,100.00,1,100.00,20,100.00,0,0,0,,,00
0,,status_codes,2,100.00,1,100.00,20,100.00,0,0,0,,,2xx Success
1,0,status_codes,2,100.00,1,100.00,20,100.00,0,0,0,,,200

=====
a line that isn't ended yet
~~~~~
+a.log
-----
192.0.2.1 - - [01/Jan/2024:00:00:00 +0000] \"GET /a HTTP/1.1\" 200 10
192.0.2.1 - - [01/Jan/2024:00:0
~~~~~
--log-format=COMMON|-o|csv|--restore|--persist|a.log
-----
0
id,parent_id,panel,hits,hits%,visitors,visitors%,bytes,bytes%,avgts,cumts,maxts,method,protocol,data
0,,general,1,,,,,,,,,,,total_requests
1,,general,1,,,,,,,,,,,valid_requests
2,,general,0,,,,,,,,,,,failed_requests
3,,general,0,,,,,,,,,,,excluded_hits
4,,general,1,,,,,,,,,,,unique_visitors
5,,general,10,,,,,,,,,,,bandwidth
0,,visitors,1,100.00,1,100.00,10,100.00,0,0,0,,,20240101
0,,requests,1,100.00,1,100.00,10,100.00,0,0,0,GET,HTTP/1.1,/a
0,,hosts,1,100.00,1,100.00,10,100.00,0,0,0,,,192.0.2.1
0,,visit_times,1,100.00,1,100.00,10,100.00,0,0,0,,,00
0,,status_codes,1,100.00,1,100.00,10,100.00,0,0,0,,,2xx Success
1,0,status_codes,1,100.00,1,100.00,10,100.00,0,0,0,,,200

~~~~~
--log-format=COMMON|-o|csv|--restore|a.log
-----
0
id,parent_id,panel,hits,hits%,visitors,visitors%,bytes,bytes%,avgts,cumts,maxts,method,protocol,data
0,,general,2,,,,,,,,,,,total_requests
1,,general,1,,,,,,,,,,,valid_requests
2,,general,1,,,,,,,,,,,failed_requests
3,,general,0,,,,,,,,,,,excluded_hits
4,,general,1,,,,,,,,,,,unique_visitors
5,,general,10,,,,,,,,,,,bandwidth
0,,visitors,1,100.00,1,100.00,10,100.00,0,0,0,,,20240101
0,,requests,1,100.00,1,100.00,10,100.00,0,0,0,GET,HTTP/1.1,/a
0,,hosts,1,100.00,1,100.00,10,100.00,0,0,0,,,192.0.2.1
0,,visit_times,1,100.00,1,100.00,10,100.00,0,0,0,,,00
0,,status_codes,1,100.00,1,100.00,10,100.00,0,0,0,,,2xx Success
1,0,status_codes,1,100.00,1,100.00,10,100.00,0,0,0,,,200

~~~~~
+a.log
-----
0:00 +0000] \"GET /a HTTP/1.1\" 200 10

~~~~~
--log-format=COMMON|-o|csv|--restore|--persist|a.log
-----
0
id,parent_id,panel,hits,hits%,visitors,visitors%,bytes,bytes%,avgts,cumts,maxts,method,protocol,data
0,,general,2,,,,,,,,,,,total_requests
1,,general,2,,,,,,,,,,,valid_requests
2,,general,0,,,,,,,,,,,failed_requests
3,,general,0,,,,,,,,,,,excluded_hits
4,,general,1,,,,,,,,,,,unique_visitors
5,,general,20,,,,,,,,,,,bandwidth
0,,visitors,2,100.00,1,100.00,20,100.00,0,0,0,,,20240101
0,,requests,2,100.00,1,100.00,20,100.00,0,0,0,GET,HTTP/1.1,/a
0,,hosts,2,100.00,1,100.00,20,100.00,0,0,0,,,192.0.2.1
0,,visit_times,2,100.00,1,100.00,20,100.00,0,0,0,,,00
0,,status_codes,2,100.00,1,100.00,20,100.00,0,0,0,,,2xx Success
1,0,status_codes,2,100.00,1,100.00,20,100.00,0,0,0,,,200

~~~~~
--log-format=COMMON|-o|csv|--restore|--persist|a.log
-----
0
id,parent_id,panel,hits,hits%,visitors,visitors%,bytes,bytes%,avgts,cumts,maxts,method,protocol,data
0,,general,2,,,,,,,,,,,total_requests
1,,general,2,,,,,,,,,,,valid_requests
2,,general,0,,,,,,,,,,,failed_requests
3,,general,0,,,,,,,,,,,excluded_hits
4,,general,1,,,,,,,,,,,unique_visitors
5,,general,20,,,,,,,,,,,bandwidth
0,,visitors,2,100.00,1,100.00,20,100.00,0,0,0,,,20240101
0,,requests,2,100.00,1,100.00,20,100.00,0,0,0,GET,HTTP/1.1,/a
0,,hosts,2,100.00,1,100.00,20,100.00,0,0,0,,,192.0.2.1
0,,visit_times,2,100.00,1,100.00,20,100.00,0,0,0,,,00
0,,status_codes,2,100.00,1,100.00,20,100.00,0,0,0,,,2xx Success
1,0,status_codes,2,100.00,1,100.00,20,100.00,0,0,0,,,200

~~~~~
--log-format=COMMON|-o|csv|a.log
-----
0
id,parent_id,panel,hits,hits%,visitors,visitors%,bytes,bytes%,avgts,cumts,maxts,method,protocol,data
0,,general,2,,,,,,,,,,,total_requests
1,,general,2,,,,,,,,,,,valid_requests
2,,general,0,,,,,,,,,,,failed_requests
3,,general,0,,,,,,,,,,,excluded_hits
4,,general,1,,,,,,,,,,,unique_visitors
5,,general,20,,,,,,,,,,,bandwidth
0,,visitors,2,100.00,1,100.00,20,100.00,0,0,0,,,20240101
0,,requests,2,100.00,1,100.00,20,100.00,0,0,0,GET,HTTP/1.1,/a
0,,hosts,2,100.00,1,100.00,20,100.00,0,0,0,,,192.0.2.1
0,,visit_times,2,100.00,1,100.00,20,100.00,0,0,0,,,00
0,,status_codes,2,100.00,1,100.00,20,100.00,0,0,0,,,2xx Success
1,0,status_codes,2,100.00,1,100.00,20,100.00,0,0,0,,,200

=====
logs with one front of 4,096 bytes, and one that is shorter than what was counted of another
~~~~~
+a.log
-----
192.0.2.1 - - [01/Jan/2024:00:00:00 +0000] \"GET /xxxxxxxxxxxxxxxxxxxxxxxxxxxxxxxxxxxxxxxxxxxxxxxxxxxxxxxxxxxxxxxxxxxxxxxxxxxxxxxxxxxxxxxxxxxxxxxxxxxxxxxxxxxxxxxxxxxxxxxxxxxxxxxxxxxxxxxxxxxxxxxxxxxxxxxxxxxxxxxxxxxxxxxxxxxxxxxxxxxxxxxxxxxxxxxxxxxxxxxxxxxxxxxxxxxxxxxxxxxxxxxxxxxxxxxxxxxxxxxxxxxxxxxxxxxxxxxxxxxxxxxxxxxxxxxxxxxxxxxxxxxxxxxxxxxxxxxxxxxxxxxxxxxxxxxxxxxxxxxxxxxxxxxxxxxxxxxxxxxxxxxxxxxxxxxxxxxxxxxxxxxxxxxxxxxxxxxxxxxxxxxxxxxxxxxxxxxxxxxxxxxxxxxxxxxxxxxxxxxxxxxxxxxxxxxxxxxxxxxxxxxxxxxxxxxxxxxxxxxxxxxxxxxxxxxxxxxxxxxxxxxxxxxxxxxxxxxxxxxxxxxxxxxxxxxxxxxxxxxxxxxxxxxxxxxxxxxxxxxxxxxxxxxxxxxxxxxxxxxxxxxxxxxxxxxxxxxxxxxxxxxxxxxxxxxxxxxxxxxxxxxxxxxxxxxxxxxxxxxxxxxxxxxxxxxxxxxxxxxxxxxxxxxxxxxxxxxxxxxxxxxxxxxxxxxxxxxxxxxxxxxxxxxxxxxxxxxxxxxxxxxxxxxxxxxxxxxxxxxxxxxxxxxxxxxxxxxxxxxxxxxxxxxxxxxxxxxxxxxxxxxxxxxxxxxxxxxxxxxxxxxxxxxxxxxxxxxxxxxxxxxxxxxxxxxxxxxxxxxxxxxxxxxxxxxxxxxxxxxxxxxxxxxxxxxxxxxxxxxxxxxxxxxxxxxxxxxxxxxxxxxxxxxxxxxxxxxxxxxxxxxxxxxxxxxxxxxxxxxxxxxxxxxxxxxxxxxxxxxxxxxxxxxxxxxxxxxxxxxxxxxxxxxxxxxxxxxxxxxxxxxxxxxxxxxxxxxxxxxxxxxxxxxxxxxxxxxxxxxxxxxxxxxxxxxxxxxxxxxxxxxxxxxxxxxxxxxxxxxxxxxxxxxxxxxxxxxxxxxxxxxxxxxxxxxxxxxxxxxxxxxxxxxxxxxxxxxxxxxxxxxxxxxxxxxxxxxxxxxxxxxxxxxxxxxxxxxxxxxxxxxxxxxxxxxxxxxxxxxxxxxxxxxxxxxxxxxxxxxxxxxxxxxxxxxxxxxxxxxxxxxxxxxxxxxxxxxxxxxxxxxxxxxxxxxxxxxxxxxxxxxxxxxxxxxxxxxxxxxxxxxxxxxxxxxxxxxxxxxxxxxxxxxxxxxxxxxxxxxxxxxxxxxxxxxxxxxxxxxxxxxxxxxxxxxxxxxxxxxxxxxxxxxxxxxxxxxxxxxxxxxxxxxxxxxxxxxxxxxxxxxxxxxxxxxxxxxxxxxxxxxxxxxxxxxxxxxxxxxxxxxxxxxxxxxxxxxxxxxxxxxxxxxxxxxxxxxxxxxxxxxxxxxxxxxxxxxxxxxxxxxxxxxxxxxxxxxxxxxxxxxxxxxxxxxxxxxxxxxxxxxxxxxxxxxxxxxxxxxxxxxxxxxxxxxxxxxxxxxxxxxxxxxxxxxxxxxxxxxxxxxxxxxxxxxxxxxxxxxxxxxxxxxxxxxxxxxxxxxxxxxxxxxxxxxxxxxxxxxxxxxxxxxxxxxxxxxxxxxxxxxxxxxxxxxxxxxxxxxxxxxxxxxxxxxxxxxxxxxxxxxxxxxxxxxxxxxxxxxxxxxxxxxxxxxxxxxxxxxxxxxxxxxxxxxxxxxxxxxxxxxxxxxxxxxxxxxxxxxxxxxxxxxxxxxxxxxxxxxxxxxxxxxxxxxxxxxxxxxxxxxxxxxxxxxxxxxxxxxxxxxxxxxxxxxxxxxxxxxxxxxxxxxxxxxxxxxxxxxxxxxxxxxxxxxxxxxxxxxxxxxxxxxxxxxxxxxxxxxxxxxxxxxxxxxxxxxxxxxxxxxxxxxxxxxxxxxxxxxxxxxxxxxxxxxxxxxxxxxxxxxxxxxxxxxxxxxxxxxxxxxxxxxxxxxxxxxxxxxxxxxxxxxxxxxxxxxxxxxxxxxxxxxxxxxxxxxxxxxxxxxxxxxxxxxxxxxxxxxxxxxxxxxxxxxxxxxxxxxxxxxxxxxxxxxxxxxxxxxxxxxxxxxxxxxxxxxxxxxxxxxxxxxxxxxxxxxxxxxxxxxxxxxxxxxxxxxxxxxxxxxxxxxxxxxxxxxxxxxxxxxxxxxxxxxxxxxxxxxxxxxxxxxxxxxxxxxxxxxxxxxxxxxxxxxxxxxxxxxxxxxxxxxxxxxxxxxxxxxxxxxxxxxxxxxxxxxxxxxxxxxxxxxxxxxxxxxxxxxxxxxxxxxxxxxxxxxxxxxxxxxxxxxxxxxxxxxxxxxxxxxxxxxxxxxxxxxxxxxxxxxxxxxxxxxxxxxxxxxxxxxxxxxxxxxxxxxxxxxxxxxxxxxxxxxxxxxxxxxxxxxxxxxxxxxxxxxxxxxxxxxxxxxxxxxxxxxxxxxxxxxxxxxxxxxxxxxxxxxxxxxxxxxxxxxxxxxxxxxxxxxxxxxxxxxxxxxxxxxxxxxxxxxxxxxxxxxxxxxxxxxxxxxxxxxxxxxxxxxxxxxxxxxxxxxxxxxxxxxxxxxxxxxxxxxxxxxxxxxxxxxxxxxxxxxxxxxxxxxxxxxxxxxxxxxxxxxxxxxxxxxxxxxxxxxxxxxxxxxxxxxxxxxxxxxxxxxxxxxxxxxxxxxxxxxxxxxxxxxxxxxxxxxxxxxxxxxxxxxxxxxxxxxxxxxxxxxxxxxxxxxxxxxxxxxxxxxxxxxxxxxxxxxxxxxxxxxxxxxxxxxxxxxxxxxxxxxxxxxxxxxxxxxxxxxxxxxxxxxxxxxxxxxxxxxxxxxxxxxxxxxxxxxxxxxxxxxxxxxxxxxxxxxxxxxxxxxxxxxxxxxxxxxxxxxxxxxxxxxxxxxxxxxxxxxxxxxxxxxxxxxxxxxxxxxxxxxxxxxxxxxxxxxxxxxxxxxxxxxxxxxxxxxxxxxxxxxxxxxxxxxxxxxxxxxxxxxxxxxxxxxxxxxxxxxxxxxxxxxxxxxxxxxxxxxxxxxxxxxxxxxxxxxxxxxxxxxxxxxxxxxxxxxxxxxxxxxxxxxxxxxxxxxxxxxxxxxxxxxxxxxxxxxxxxxxxxxxxxxxxxxxxxxxxxxxxxxxxxxxxxxxxxxxxxxxxxxxxxxxxxxxxxxxxxxxxxxxxxxxxxxxxxxxxxxxxxxxxxxxxxxxxxxxxxxxxxxxxxxxxxxxxxxxxxxxxxxxxxxxxxxxxxxxxxxxxxxxxxxxxxxxxxxxxxxxxxxxxxxxxxxxxxxxxxxxxxxxxxxxxxxxxxxxxxxxxxxxxxxxxxxxxxxxxxxxxxxxxxxxxxxxxxxxxxxxxxxxxxxxxxxxxxxxxxxxxxxxxxxxxxxxxxxxxxxxxxxxxxxxxxxxxxxxxxxxxxxxxxxxxxxxxxxxxxxxxxxxxxxxxxxxxxxxxxxxxxxxxxxxxxxxxxxxxxxxxxxxxxxxxxxxxxxxxxxxxxxxxxxxxxxxxxxxxxxxxxxxxxxxxxxxxxxxxxxxxxxxxxxxxxxxxxxxxxxxxxxxxxxxxxxxxxxxxxxxxxxxxxxxxxxxxxxxxxxxxxxxxxxxxxxxxxxxxxxxxxxxxxxxxxxxxxxxxxxxxxxxxxxxxxxxxxxxxxxxxxxxxxxxxxxxxxxxxxxxxxxxxxxxxxxxxxxxxxxxxxxxxxxxxxxxxxxxxxxxxxxxxxxxxxxxxxxxxxxxxxxxxxxxxxxxxxxxxxxxxxxxxxxxxxxxxxxxxxxxxxxxxxxxxxxxxxxxxxxxxxxxxxxxxxxxxxxxxxxxxxxxxxxxxxxxxxxxxxxxxxxxxxxxxxxxxxxxxxxxxxxxxxxxxxxxxxxxxxxxxxxxxxxxxxxxxxxxxxxxxxxxxxxxxxxxxxxxxxxxxxxxxxxxxxxxxxxxxxxxxxxxxxxxxxxxxxxxxxxxxxxxxxxxxxxxxxxxxxxxxxxxxxxxxxxxxxxxxxxxxxxxxxxxxxxxxxxxxxxxxxxxxxxxxxxxxxxxxxxxxxxxxxxxxxxxxxxxxxxxxxxxxxxxxxxxxxxxxxxxxxxxxxxxxxxxxxxxxxxxxxxxxxxxxxxxxxxxxxxxxxxxxxxxxxxxxxxxxxxxxxxxxxxxxxxxxxxxxxxxxxxxxxxxxxxxxxxxxxxxxxxxxxxxxxxxxxxxxxxxxxxxxxxxxxxxxxxxxxxxxxxxxxxxxxxxxxxxxxxxxxxxxxxxxxxxxxxxxxxxxxxxxxxxxxxxxxxxxxxxxxxxxxxxxxxxxxxxxxxxxxxxxxxxxxxxxxxxxxxxxxxxxxxxxxxxxxxxxxxxxxxxxxxxxxxxxxxxxxxxxxxxxxxxxxxxxxxxxxxxxxxxxxxxxxxxxxxxxxxxxxxxxxxxxxxxxxxxxxxxxxxxxxxxxxxxxxxxxxxxxxxxxxxxxxxxxxxxxxxxxxxxxxxxxxxxxxxxxxxxxxxxxxxxxxxxxxxxxxxxxxxxxxxxxxxxxxxxxxxxxxxxxxxxxxxxxxxxxxxxxxxxxxxxxxxxxxxxxxxxxxxxxxxxxxxxxxxxxxxxxxxxxxxxxxxxxxxxxxxxxxxxxxxxxxxxxxxxxxxxxxxxxxxxxxxxxxxxxxxxxxxxxxxxxxxxxxxxxxxxxxxxxxxxxxxxxxxxxxxxxxxxxxxxxxxxxxxxxxxxxxxxxxxxxxxxxxxxxxxxxxxxxxxxxxxxxxxxxxxxxxxxxxxxxxxxxxxxxxxxxxxxxxxxxxxxxxxxxxxxxxxxxxxxxxxxxxxxxxxxxxxxxxxxxxxxxxxxxxxxxxxxxxxxxxxxxxxxxxxxxxxxxxxxxxxxxxxxxxxxxxxxxxxxxxxxxxxxxxxxxxxxxxxxxxxxxxxxxxxxxxxxxxxxxxxxxxxxxxxxxxxxxxxxxxxxxxxxxxxxxxxxxxxxxxxxxxxxxxxxxxxxxxxx HTTP/1.1\" 200 10
192.0.2.1 - - [01/Jan/2024:00:00:00 +0000] \"GET /a HTTP/1.1\" 200 1

~~~~~
+b.log
-----
192.0.2.1 - - [01/Jan/2024:00:00:00 +0000] \"GET /xxxxxxxxxxxxxxxxxxxxxxxxxxxxxxxxxxxxxxxxxxxxxxxxxxxxxxxxxxxxxxxxxxxxxxxxxxxxxxxxxxxxxxxxxxxxxxxxxxxxxxxxxxxxxxxxxxxxxxxxxxxxxxxxxxxxxxxxxxxxxxxxxxxxxxxxxxxxxxxxxxxxxxxxxxxxxxxxxxxxxxxxxxxxxxxxxxxxxxxxxxxxxxxxxxxxxxxxxxxxxxxxxxxxxxxxxxxxxxxxxxxxxxxxxxxxxxxxxxxxxxxxxxxxxxxxxxxxxxxxxxxxxxxxxxxxxxxxxxxxxxxxxxxxxxxxxxxxxxxxxxxxxxxxxxxxxxxxxxxxxxxxxxxxxxxxxxxxxxxxxxxxxxxxxxxxxxxxxxxxxxxxxxxxxxxxxxxxxxxxxxxxxxxxxxxxxxxxxxxxxxxxxxxxxxxxxxxxxxxxxxxxxxxxxxxxxxxxxxxxxxxxxxxxxxxxxxxxxxxxxxxxxxxxxxxxxxxxxxxxxxxxxxxxxxxxxxxxxxxxxxxxxxxxxxxxxxxxxxxxxxxxxxxxxxxxxxxxxxxxxxxxxxxxxxxxxxxxxxxxxxxxxxxxxxxxxxxxxxxxxxxxxxxxxxxxxxxxxxxxxxxxxxxxxxxxxxxxxxxxxxxxxxxxxxxxxxxxxxxxxxxxxxxxxxxxxxxxxxxxxxxxxxxxxxxxxxxxxxxxxxxxxxxxxxxxxxxxxxxxxxxxxxxxxxxxxxxxxxxxxxxxxxxxxxxxxxxxxxxxxxxxxxxxxxxxxxxxxxxxxxxxxxxxxxxxxxxxxxxxxxxxxxxxxxxxxxxxxxxxxxxxxxxxxxxxxxxxxxxxxxxxxxxxxxxxxxxxxxxxxxxxxxxxxxxxxxxxxxxxxxxxxxxxxxxxxxxxxxxxxxxxxxxxxxxxxxxxxxxxxxxxxxxxxxxxxxxxxxxxxxxxxxxxxxxxxxxxxxxxxxxxxxxxxxxxxxxxxxxxxxxxxxxxxxxxxxxxxxxxxxxxxxxxxxxxxxxxxxxxxxxxxxxxxxxxxxxxxxxxxxxxxxxxxxxxxxxxxxxxxxxxxxxxxxxxxxxxxxxxxxxxxxxxxxxxxxxxxxxxxxxxxxxxxxxxxxxxxxxxxxxxxxxxxxxxxxxxxxxxxxxxxxxxxxxxxxxxxxxxxxxxxxxxxxxxxxxxxxxxxxxxxxxxxxxxxxxxxxxxxxxxxxxxxxxxxxxxxxxxxxxxxxxxxxxxxxxxxxxxxxxxxxxxxxxxxxxxxxxxxxxxxxxxxxxxxxxxxxxxxxxxxxxxxxxxxxxxxxxxxxxxxxxxxxxxxxxxxxxxxxxxxxxxxxxxxxxxxxxxxxxxxxxxxxxxxxxxxxxxxxxxxxxxxxxxxxxxxxxxxxxxxxxxxxxxxxxxxxxxxxxxxxxxxxxxxxxxxxxxxxxxxxxxxxxxxxxxxxxxxxxxxxxxxxxxxxxxxxxxxxxxxxxxxxxxxxxxxxxxxxxxxxxxxxxxxxxxxxxxxxxxxxxxxxxxxxxxxxxxxxxxxxxxxxxxxxxxxxxxxxxxxxxxxxxxxxxxxxxxxxxxxxxxxxxxxxxxxxxxxxxxxxxxxxxxxxxxxxxxxxxxxxxxxxxxxxxxxxxxxxxxxxxxxxxxxxxxxxxxxxxxxxxxxxxxxxxxxxxxxxxxxxxxxxxxxxxxxxxxxxxxxxxxxxxxxxxxxxxxxxxxxxxxxxxxxxxxxxxxxxxxxxxxxxxxxxxxxxxxxxxxxxxxxxxxxxxxxxxxxxxxxxxxxxxxxxxxxxxxxxxxxxxxxxxxxxxxxxxxxxxxxxxxxxxxxxxxxxxxxxxxxxxxxxxxxxxxxxxxxxxxxxxxxxxxxxxxxxxxxxxxxxxxxxxxxxxxxxxxxxxxxxxxxxxxxxxxxxxxxxxxxxxxxxxxxxxxxxxxxxxxxxxxxxxxxxxxxxxxxxxxxxxxxxxxxxxxxxxxxxxxxxxxxxxxxxxxxxxxxxxxxxxxxxxxxxxxxxxxxxxxxxxxxxxxxxxxxxxxxxxxxxxxxxxxxxxxxxxxxxxxxxxxxxxxxxxxxxxxxxxxxxxxxxxxxxxxxxxxxxxxxxxxxxxxxxxxxxxxxxxxxxxxxxxxxxxxxxxxxxxxxxxxxxxxxxxxxxxxxxxxxxxxxxxxxxxxxxxxxxxxxxxxxxxxxxxxxxxxxxxxxxxxxxxxxxxxxxxxxxxxxxxxxxxxxxxxxxxxxxxxxxxxxxxxxxxxxxxxxxxxxxxxxxxxxxxxxxxxxxxxxxxxxxxxxxxxxxxxxxxxxxxxxxxxxxxxxxxxxxxxxxxxxxxxxxxxxxxxxxxxxxxxxxxxxxxxxxxxxxxxxxxxxxxxxxxxxxxxxxxxxxxxxxxxxxxxxxxxxxxxxxxxxxxxxxxxxxxxxxxxxxxxxxxxxxxxxxxxxxxxxxxxxxxxxxxxxxxxxxxxxxxxxxxxxxxxxxxxxxxxxxxxxxxxxxxxxxxxxxxxxxxxxxxxxxxxxxxxxxxxxxxxxxxxxxxxxxxxxxxxxxxxxxxxxxxxxxxxxxxxxxxxxxxxxxxxxxxxxxxxxxxxxxxxxxxxxxxxxxxxxxxxxxxxxxxxxxxxxxxxxxxxxxxxxxxxxxxxxxxxxxxxxxxxxxxxxxxxxxxxxxxxxxxxxxxxxxxxxxxxxxxxxxxxxxxxxxxxxxxxxxxxxxxxxxxxxxxxxxxxxxxxxxxxxxxxxxxxxxxxxxxxxxxxxxxxxxxxxxxxxxxxxxxxxxxxxxxxxxxxxxxxxxxxxxxxxxxxxxxxxxxxxxxxxxxxxxxxxxxxxxxxxxxxxxxxxxxxxxxxxxxxxxxxxxxxxxxxxxxxxxxxxxxxxxxxxxxxxxxxxxxxxxxxxxxxxxxxxxxxxxxxxxxxxxxxxxxxxxxxxxxxxxxxxxxxxxxxxxxxxxxxxxxxxxxxxxxxxxxxxxxxxxxxxxxxxxxxxxxxxxxxxxxxxxxxxxxxxxxxxxxxxxxxxxxxxxxxxxxxxxxxxxxxxxxxxxxxxxxxxxxxxxxxxxxxxxxxxxxxxxxxxxxxxxxxxxxxxxxxxxxxxxxxxxxxxxxxxxxxxxxxxxxxxxxxxxxxxxxxxxxxxxxxxxxxxxxxxxxxxxxxxxxxxxxxxxxxxxxxxxxxxxxxxxxxxxxxxxxxxxxxxxxxxxxxxxxxxxxxxxxxxxxxxxxxxxxxxxxxxxxxxxxxxxxxxxxxxxxxxxxxxxxxxxxxxxxxxxxxxxxxxxxxxxxxxxxxxxxxxxxxxxxxxxxxxxxxxxxxxxxxxxxxxxxxxxxxxxxxxxxxxxxxxxxxxxxxxxxxxxxxxxxxxxxxxxxxxxxxxxxxxxxxxxxxxxxxxxxxxxxxxxxxxxxxxxxxxxxxxxxxxxxxxxxxxxxxxxxxxxxxxxxxxxxxxxxxxxxxxxxxxxxxxxxxxxxxxxxxxxxxxxxxxxxxxxxxxxxxxxxxxxxxxxxxxxxxxxxxxxxxxxxxxxxxxxxxxxxxxxxxxxxxxxxxxxxxxxxxxxxxxxxxxxxxxxxxxxxxxxxxxxxxxxxxxxxxxxxxxxxxxxxxxxxxxxxxxxxxxxxxxxxxxxxxxxxxxxxxxxxxxxxxxxxxxxxxxxxxxxxxxxxxxxxxxxxxxxxxxxxxxxxxxxxxxxxxxxxxxxxxxxxxxxxxxxxxxxxxxxxxxxxxxxxxxxxxxxxxxxxxxxxxxxxxxxxxxxxxxxxxxxxxxxxxxxxxxxxxxxxxxxxxxxxxxxxxxxxxxxxxxxxxxxxxxxxxxxxxxxxxxxxxxxxxxxxxxxxxxxxxxxxxxxxxxxxxxxxxxxxxxxxxxxxxxxxxxxxxxxxxxxxxxxxxxxxxxxxxxxxxxxxxxxxxxxxxxxxxxxxxxxxxxxxxxxxxxxxxxxxxxxxxxxxxxxxxxxxxxxxxxxxxxxxxxxxxxxxxxxxxxxxxxxxxxxxxxxxxxxxxxxxxxxxxxxxxxxxxxxxxxxxxxxxxxxxxxxxxxxxxxxxxxxxxxxxxxxxxxxxxxxxxxxxxxxxxxxxxxxxxxxxxxxxxxxxxxxxxxxxxxxxxxxxxxxxxxxxxxxxxxxxxxxxxxxxxxxxxxxxxxxxxxxxxxxxxxxxxxxxxxxxxxxxxxxxxxxxxxxxxxxxxxxxxxxxxxxxxxxxxxxxxxxxxxxxxxxxxxxxxxxxxxxxxxxxxxxxxxxxxxxxxxxxxxxxxxxxxxxxxxxxxxxxxxxxxxxxxxxxxxxxxxxxxxxxxxxxxxxxxxxxxxxxxxxxxxxxxxxxxxxxxxxxxxxxxxxxxxxxxxxxxxxxxxxxxxxxxxxxxxxxxxxxxxxxxxxxxxxxxxxxxxxxxxxxxxxxxxxxxxxxxxxxxxxxxxxxxxxxxxxxxxxxxxxxxxxxxxxxxxxxxxxxxxxxxxxxxxxxxxxxxxxxxxxxxxxxxxxxxxxxxxxxxxxxxxxxxxxxxxxxxxxxxxxxxxxxxxxxxxxxxxxxxxxxxxxxxxxxxxxxxxxxxxxxxxxxxxxxxxxxxxxxxxxxxxxxxxxxxxxxxxxxxxxxxxxxxxxxxxxxxxxxxxxxxxxxxxxxxxxxxxxxxxxxxxxxxxxxxxxxxxxxxxxxxxxxxxxxxxxxxxxxxxxxxxxxxxxxxxxxxxxxxxxxxxxxxxxxxxxxxxxxxxxxxxxxxxxxxxxxxxxxxxxxxxxxxxxxxxxxxxxxxxxxxxxxxxxxxxxxxxxxxxxxxxxxxxxxxxxxxxxxxxxxxxxxxxxxxxxxxxxxxxxxxxxxxxxxxxxxxxxxxxxxxxxxxxxxxxxxxxxxxxxxxxxxxxxxxxxxxxxxxxxxxxxxxxxxxxxxxxxxxxxxxxxxxxxxxxxxxxxxxxxxxxxxxxxxxxxxxxxxxxxxxxxxxxxxxxxxxxxxxxxxxxxxxxxxxxxxxxxxxxxxxxxxxxxxxxxxxxxxxxxxxxxxxxxxxxxxxxxxxxxxxxxxxxxxxxxxxxxxxxxxx HTTP/1.1\" 200 10

~~~~~
--log-format=COMMON|-o|csv|--restore|--persist|--ignore-panel=REQUESTS|a.log
-----
0
id,parent_id,panel,hits,hits%,visitors,visitors%,bytes,bytes%,avgts,cumts,maxts,method,protocol,data
0,,general,2,,,,,,,,,,,total_requests
1,,general,2,,,,,,,,,,,valid_requests
2,,general,0,,,,,,,,,,,failed_requests
3,,general,0,,,,,,,,,,,excluded_hits
4,,general,1,,,,,,,,,,,unique_visitors
5,,general,11,,,,,,,,,,,bandwidth
0,,visitors,2,100.00,1,100.00,11,100.00,0,0,0,,,20240101
0,,hosts,2,100.00,1,100.00,11,100.00,0,0,0,,,192.0.2.1
0,,visit_times,2,100.00,1,100.00,11,100.00,0,0,0,,,00
0,,status_codes,2,100.00,1,100.00,11,100.00,0,0,0,,,2xx Success
1,0,status_codes,2,100.00,1,100.00,11,100.00,0,0,0,,,200

~~~~~
--log-format=COMMON|-o|csv|--restore|--persist|--ignore-panel=REQUESTS|b.log
-----
0
id,parent_id,panel,hits,hits%,visitors,visitors%,bytes,bytes%,avgts,cumts,maxts,method,protocol,data
0,,general,3,,,,,,,,,,,total_requests
1,,general,3,,,,,,,,,,,valid_requests
2,,general,0,,,,,,,,,,,failed_requests
3,,general,0,,,,,,,,,,,excluded_hits
4,,general,1,,,,,,,,,,,unique_visitors
5,,general,21,,,,,,,,,,,bandwidth
0,,visitors,3,100.00,1,100.00,21,100.00,0,0,0,,,20240101
0,,hosts,3,100.00,1,100.00,21,100.00,0,0,0,,,192.0.2.1
0,,visit_times,3,100.00,1,100.00,21,100.00,0,0,0,,,00
0,,status_codes,3,100.00,1,100.00,21,100.00,0,0,0,,,2xx Success
1,0,status_codes,3,100.00,1,100.00,21,100.00,0,0,0,,,200

~~~~~
+b.log
-----
192.0.2.1 - - [01/Jan/2024:00:00:00 +0000] \"GET /a HTTP/1.1\" 200 3

~~~~~
--log-format=COMMON|-o|csv|--restore|--persist|--ignore-panel=REQUESTS|b.log|a.log
-----
0
id,parent_id,panel,hits,hits%,visitors,visitors%,bytes,bytes%,avgts,cumts,maxts,method,protocol,data
0,,general,3,,,,,,,,,,,total_requests
1,,general,3,,,,,,,,,,,valid_requests
2,,general,0,,,,,,,,,,,failed_requests
3,,general,0,,,,,,,,,,,excluded_hits
4,,general,1,,,,,,,,,,,unique_visitors
5,,general,21,,,,,,,,,,,bandwidth
0,,visitors,3,100.00,1,100.00,21,100.00,0,0,0,,,20240101
0,,hosts,3,100.00,1,100.00,21,100.00,0,0,0,,,192.0.2.1
0,,visit_times,3,100.00,1,100.00,21,100.00,0,0,0,,,00
0,,status_codes,3,100.00,1,100.00,21,100.00,0,0,0,,,2xx Success
1,0,status_codes,3,100.00,1,100.00,21,100.00,0,0,0,,,200

=====
a run that stops keeps nothing
~~~~~
+a.log
-----
192.0.2.1 - - [01/Jan/2024:00:00:00 +0000] \"GET /a HTTP/1.1\" 200 10

~~~~~
--log-format=COMMON|-o|csv|--restore|--persist|a.log|gone.log
-----
2
goaccess: gone.log: read failed

~~~~~
--log-format=COMMON|-o|csv|--restore|--persist|a.log
-----
0
id,parent_id,panel,hits,hits%,visitors,visitors%,bytes,bytes%,avgts,cumts,maxts,method,protocol,data
0,,general,1,,,,,,,,,,,total_requests
1,,general,1,,,,,,,,,,,valid_requests
2,,general,0,,,,,,,,,,,failed_requests
3,,general,0,,,,,,,,,,,excluded_hits
4,,general,1,,,,,,,,,,,unique_visitors
5,,general,10,,,,,,,,,,,bandwidth
0,,visitors,1,100.00,1,100.00,10,100.00,0,0,0,,,20240101
0,,requests,1,100.00,1,100.00,10,100.00,0,0,0,GET,HTTP/1.1,/a
0,,hosts,1,100.00,1,100.00,10,100.00,0,0,0,,,192.0.2.1
0,,visit_times,1,100.00,1,100.00,10,100.00,0,0,0,,,00
0,,status_codes,1,100.00,1,100.00,10,100.00,0,0,0,,,2xx Success
1,0,status_codes,1,100.00,1,100.00,10,100.00,0,0,0,,,200

~~~~~
+a.log
-----
192.0.2.1 - - [01/Jan/2024:00:00:00 +0000] \"GET /a HTTP/1.1\" 200 1000000000000000000
192.0.2.1 - - [01/Jan/2024:00:00:00 +0000] \"GET /a HTTP/1.1\" 200 1000000000000000000
192.0.2.1 - - [01/Jan/2024:00:00:00 +0000] \"GET /a HTTP/1.1\" 200 1000000000000000000
192.0.2.1 - - [01/Jan/2024:00:00:00 +0000] \"GET /a HTTP/1.1\" 200 1000000000000000000
192.0.2.1 - - [01/Jan/2024:00:00:00 +0000] \"GET /a HTTP/1.1\" 200 1000000000000000000

~~~~~
--log-format=COMMON|-o|csv|--restore|--persist|a.log
-----
5
goaccess: counter full: bytes 5000000000000000010

~~~~~
--log-format=COMMON|-o|csv|--restore
-----
0
id,parent_id,panel,hits,hits%,visitors,visitors%,bytes,bytes%,avgts,cumts,maxts,method,protocol,data
0,,general,1,,,,,,,,,,,total_requests
1,,general,1,,,,,,,,,,,valid_requests
2,,general,0,,,,,,,,,,,failed_requests
3,,general,0,,,,,,,,,,,excluded_hits
4,,general,1,,,,,,,,,,,unique_visitors
5,,general,10,,,,,,,,,,,bandwidth
0,,visitors,1,100.00,1,100.00,10,100.00,0,0,0,,,20240101
0,,requests,1,100.00,1,100.00,10,100.00,0,0,0,GET,HTTP/1.1,/a
0,,hosts,1,100.00,1,100.00,10,100.00,0,0,0,,,192.0.2.1
0,,visit_times,1,100.00,1,100.00,10,100.00,0,0,0,,,00
0,,status_codes,1,100.00,1,100.00,10,100.00,0,0,0,,,2xx Success
1,0,status_codes,1,100.00,1,100.00,10,100.00,0,0,0,,,200

~~~~~
--log-format=COMMON|--date-format=%d|--restore
-----
1
goaccess: date format, byte 2: bad directive

~~~~~
--log-format=COMMON|-o|csv|--restore|--persist|--browsers-file=gone.txt
-----
2
goaccess: gone.txt: read failed

=====
days that were kept, shown by hours
~~~~~
+a.log
-----
192.0.2.1 - - [01/Jan/2024:08:05:00 +0000] \"GET /a HTTP/1.1\" 200 10
192.0.2.1 - - [01/Jan/2024:08:55:00 +0000] \"GET /a HTTP/1.1\" 200 10
192.0.2.1 - - [01/Jan/2024:09:10:00 +0000] \"GET /a HTTP/1.1\" 200 10

~~~~~
--log-format=COMMON|-o|csv|--restore|--persist|a.log
-----
0
id,parent_id,panel,hits,hits%,visitors,visitors%,bytes,bytes%,avgts,cumts,maxts,method,protocol,data
0,,general,3,,,,,,,,,,,total_requests
1,,general,3,,,,,,,,,,,valid_requests
2,,general,0,,,,,,,,,,,failed_requests
3,,general,0,,,,,,,,,,,excluded_hits
4,,general,1,,,,,,,,,,,unique_visitors
5,,general,30,,,,,,,,,,,bandwidth
0,,visitors,3,100.00,1,100.00,30,100.00,0,0,0,,,20240101
0,,requests,3,100.00,1,100.00,30,100.00,0,0,0,GET,HTTP/1.1,/a
0,,hosts,3,100.00,1,100.00,30,100.00,0,0,0,,,192.0.2.1
0,,visit_times,2,66.67,1,100.00,20,66.67,0,0,0,,,08
1,,visit_times,1,33.33,1,100.00,10,33.33,0,0,0,,,09
0,,status_codes,3,100.00,1,100.00,30,100.00,0,0,0,,,2xx Success
1,0,status_codes,3,100.00,1,100.00,30,100.00,0,0,0,,,200

~~~~~
-o|csv|--restore|--ignore-panel=REQUESTS|--ignore-panel=REQUESTS_STATIC|--ignore-panel=NOT_FOUND|--ignore-panel=HOSTS|--ignore-panel=OS|--ignore-panel=BROWSERS|--ignore-panel=VIRTUAL_HOSTS|--ignore-panel=REFERRERS|--ignore-panel=REFERRING_SITES|--ignore-panel=KEYPHRASES|--ignore-panel=STATUS_CODES|--ignore-panel=REMOTE_USER|--ignore-panel=CACHE_STATUS|--ignore-panel=MIME_TYPE|--ignore-panel=TLS_TYPE|--date-spec=hr
-----
0
id,parent_id,panel,hits,hits%,visitors,visitors%,bytes,bytes%,avgts,cumts,maxts,method,protocol,data
0,,general,3,,,,,,,,,,,total_requests
1,,general,3,,,,,,,,,,,valid_requests
2,,general,0,,,,,,,,,,,failed_requests
3,,general,0,,,,,,,,,,,excluded_hits
4,,general,1,,,,,,,,,,,unique_visitors
5,,general,30,,,,,,,,,,,bandwidth
0,,visit_times,2,66.67,1,100.00,20,66.67,0,0,0,,,08
1,,visit_times,1,33.33,1,100.00,10,33.33,0,0,0,,,09

~~~~~
-o|csv|--restore|--ignore-panel=REQUESTS|--ignore-panel=REQUESTS_STATIC|--ignore-panel=NOT_FOUND|--ignore-panel=HOSTS|--ignore-panel=OS|--ignore-panel=BROWSERS|--ignore-panel=VIRTUAL_HOSTS|--ignore-panel=REFERRERS|--ignore-panel=REFERRING_SITES|--ignore-panel=KEYPHRASES|--ignore-panel=STATUS_CODES|--ignore-panel=REMOTE_USER|--ignore-panel=CACHE_STATUS|--ignore-panel=MIME_TYPE|--ignore-panel=TLS_TYPE|--hour-spec=min
-----
0
id,parent_id,panel,hits,hits%,visitors,visitors%,bytes,bytes%,avgts,cumts,maxts,method,protocol,data
0,,general,3,,,,,,,,,,,total_requests
1,,general,3,,,,,,,,,,,valid_requests
2,,general,0,,,,,,,,,,,failed_requests
3,,general,0,,,,,,,,,,,excluded_hits
4,,general,1,,,,,,,,,,,unique_visitors
5,,general,30,,,,,,,,,,,bandwidth
0,,visitors,3,100.00,1,100.00,30,100.00,0,0,0,,,20240101
0,,visit_times,2,66.67,1,100.00,20,66.67,0,0,0,,,08
1,,visit_times,1,33.33,1,100.00,10,33.33,0,0,0,,,09

~~~~~
-o|csv|--restore|--ignore-panel=REQUESTS|--ignore-panel=REQUESTS_STATIC|--ignore-panel=NOT_FOUND|--ignore-panel=HOSTS|--ignore-panel=OS|--ignore-panel=BROWSERS|--ignore-panel=VIRTUAL_HOSTS|--ignore-panel=REFERRERS|--ignore-panel=REFERRING_SITES|--ignore-panel=KEYPHRASES|--ignore-panel=STATUS_CODES|--ignore-panel=REMOTE_USER|--ignore-panel=CACHE_STATUS|--ignore-panel=MIME_TYPE|--ignore-panel=TLS_TYPE|--date-spec=date
-----
0
id,parent_id,panel,hits,hits%,visitors,visitors%,bytes,bytes%,avgts,cumts,maxts,method,protocol,data
0,,general,3,,,,,,,,,,,total_requests
1,,general,3,,,,,,,,,,,valid_requests
2,,general,0,,,,,,,,,,,failed_requests
3,,general,0,,,,,,,,,,,excluded_hits
4,,general,1,,,,,,,,,,,unique_visitors
5,,general,30,,,,,,,,,,,bandwidth
0,,visitors,3,100.00,1,100.00,30,100.00,0,0,0,,,20240101
0,,visit_times,2,66.67,1,100.00,20,66.67,0,0,0,,,08
1,,visit_times,1,33.33,1,100.00,10,33.33,0,0,0,,,09

=====
hours, minutes and days that were kept, each shown by itself
~~~~~
+a.log
-----
192.0.2.1 - - [01/Jan/2024:08:05:00 +0000] \"GET /a HTTP/1.1\" 200 10
192.0.2.1 - - [01/Jan/2024:08:55:00 +0000] \"GET /a HTTP/1.1\" 200 10
192.0.2.1 - - [01/Jan/2024:09:10:00 +0000] \"GET /a HTTP/1.1\" 200 10

~~~~~
--log-format=COMMON|-o|csv|--restore|--persist|--ignore-panel=REQUESTS|--ignore-panel=REQUESTS_STATIC|--ignore-panel=NOT_FOUND|--ignore-panel=HOSTS|--ignore-panel=OS|--ignore-panel=BROWSERS|--ignore-panel=VIRTUAL_HOSTS|--ignore-panel=REFERRERS|--ignore-panel=REFERRING_SITES|--ignore-panel=KEYPHRASES|--ignore-panel=STATUS_CODES|--ignore-panel=REMOTE_USER|--ignore-panel=CACHE_STATUS|--ignore-panel=MIME_TYPE|--ignore-panel=TLS_TYPE|--date-spec=hr|a.log
-----
0
id,parent_id,panel,hits,hits%,visitors,visitors%,bytes,bytes%,avgts,cumts,maxts,method,protocol,data
0,,general,3,,,,,,,,,,,total_requests
1,,general,3,,,,,,,,,,,valid_requests
2,,general,0,,,,,,,,,,,failed_requests
3,,general,0,,,,,,,,,,,excluded_hits
4,,general,1,,,,,,,,,,,unique_visitors
5,,general,30,,,,,,,,,,,bandwidth
0,,visitors,1,33.33,1,100.00,10,33.33,0,0,0,,,2024010109
1,,visitors,2,66.67,1,100.00,20,66.67,0,0,0,,,2024010108
0,,visit_times,2,66.67,1,100.00,20,66.67,0,0,0,,,08
1,,visit_times,1,33.33,1,100.00,10,33.33,0,0,0,,,09

~~~~~
+b.log
-----
192.0.2.1 - - [01/Jan/2024:08:05:00 +0000] \"GET /a HTTP/1.1\" 200 10
192.0.2.1 - - [01/Jan/2024:08:55:00 +0000] \"GET /a HTTP/1.1\" 200 10
192.0.2.1 - - [01/Jan/2024:09:10:00 +0000] \"GET /a HTTP/1.1\" 200 10
192.0.2.2 - - [01/Jan/2024:08:55:59 +0000] \"GET /a HTTP/1.1\" 200 10
192.0.2.1 - - [01/Jan/2024:23:59:60 +0000] \"GET /x HTTP/1.1\" 404 5
192.0.2.1 - - [02/Jan/2024:08:05:00 +0000] \"GET /a HTTP/1.1\" 200 10

~~~~~
--log-format=COMMON|-o|csv|--restore|--persist|--ignore-panel=REQUESTS|--ignore-panel=REQUESTS_STATIC|--ignore-panel=NOT_FOUND|--ignore-panel=HOSTS|--ignore-panel=OS|--ignore-panel=BROWSERS|--ignore-panel=VIRTUAL_HOSTS|--ignore-panel=REFERRERS|--ignore-panel=REFERRING_SITES|--ignore-panel=KEYPHRASES|--ignore-panel=STATUS_CODES|--ignore-panel=REMOTE_USER|--ignore-panel=CACHE_STATUS|--ignore-panel=MIME_TYPE|--ignore-panel=TLS_TYPE|--date-spec=min|--hour-spec=min|b.log
-----
0
id,parent_id,panel,hits,hits%,visitors,visitors%,bytes,bytes%,avgts,cumts,maxts,method,protocol,data
0,,general,6,,,,,,,,,,,total_requests
1,,general,6,,,,,,,,,,,valid_requests
2,,general,0,,,,,,,,,,,failed_requests
3,,general,0,,,,,,,,,,,excluded_hits
4,,general,3,,,,,,,,,,,unique_visitors
5,,general,55,,,,,,,,,,,bandwidth
0,,visitors,1,16.67,1,33.33,10,18.18,0,0,0,,,202401020805
1,,visitors,1,16.67,0,0.00,5,9.09,0,0,0,,,202401012359
2,,visitors,1,16.67,1,33.33,10,18.18,0,0,0,,,202401010855
0,,visit_times,2,33.33,1,33.33,20,36.36,0,0,0,,,08
1,,visit_times,1,16.67,1,33.33,10,18.18,0,0,0,,,08:00
2,,visit_times,1,16.67,1,33.33,10,18.18,0,0,0,,,08:50
3,,visit_times,1,16.67,1,33.33,10,18.18,0,0,0,,,09
4,,visit_times,1,16.67,0,0.00,5,9.09,0,0,0,,,23:50

~~~~~
+a.log
-----
192.0.2.1 - - [01/Jan/2024:00:00:00 +0000] \"GET /a HTTP/1.1\" 200 10

~~~~~
--log-format=COMMON|-o|csv|--restore|--persist|--ignore-panel=REQUESTS|--ignore-panel=REQUESTS_STATIC|--ignore-panel=NOT_FOUND|--ignore-panel=HOSTS|--ignore-panel=OS|--ignore-panel=BROWSERS|--ignore-panel=VIRTUAL_HOSTS|--ignore-panel=REFERRERS|--ignore-panel=REFERRING_SITES|--ignore-panel=KEYPHRASES|--ignore-panel=STATUS_CODES|--ignore-panel=REMOTE_USER|--ignore-panel=CACHE_STATUS|--ignore-panel=MIME_TYPE|--ignore-panel=TLS_TYPE|a.log
-----
0
id,parent_id,panel,hits,hits%,visitors,visitors%,bytes,bytes%,avgts,cumts,maxts,method,protocol,data
0,,general,10,,,,,,,,,,,total_requests
1,,general,10,,,,,,,,,,,valid_requests
2,,general,0,,,,,,,,,,,failed_requests
3,,general,0,,,,,,,,,,,excluded_hits
4,,general,3,,,,,,,,,,,unique_visitors
5,,general,95,,,,,,,,,,,bandwidth
0,,visitors,1,10.00,1,33.33,10,10.53,0,0,0,,,20240102
1,,visitors,9,90.00,2,66.67,85,89.47,0,0,0,,,20240101
0,,visit_times,1,10.00,1,33.33,10,10.53,0,0,0,,,00
1,,visit_times,4,40.00,1,33.33,40,42.11,0,0,0,,,08
2,,visit_times,1,10.00,1,33.33,10,10.53,0,0,0,,,08:00
3,,visit_times,1,10.00,1,33.33,10,10.53,0,0,0,,,08:50
4,,visit_times,2,20.00,1,33.33,20,21.05,0,0,0,,,09
5,,visit_times,1,10.00,0,0.00,5,5.26,0,0,0,,,23:50

~~~~~
-o|csv|--restore|--ignore-panel=REQUESTS|--ignore-panel=REQUESTS_STATIC|--ignore-panel=NOT_FOUND|--ignore-panel=HOSTS|--ignore-panel=OS|--ignore-panel=BROWSERS|--ignore-panel=VIRTUAL_HOSTS|--ignore-panel=REFERRERS|--ignore-panel=REFERRING_SITES|--ignore-panel=KEYPHRASES|--ignore-panel=STATUS_CODES|--ignore-panel=REMOTE_USER|--ignore-panel=CACHE_STATUS|--ignore-panel=MIME_TYPE|--ignore-panel=TLS_TYPE|--date-spec=date
-----
0
id,parent_id,panel,hits,hits%,visitors,visitors%,bytes,bytes%,avgts,cumts,maxts,method,protocol,data
0,,general,10,,,,,,,,,,,total_requests
1,,general,10,,,,,,,,,,,valid_requests
2,,general,0,,,,,,,,,,,failed_requests
3,,general,0,,,,,,,,,,,excluded_hits
4,,general,3,,,,,,,,,,,unique_visitors
5,,general,95,,,,,,,,,,,bandwidth
0,,visitors,1,10.00,1,33.33,10,10.53,0,0,0,,,20240102
1,,visitors,9,90.00,2,66.67,85,89.47,0,0,0,,,20240101
0,,visit_times,1,10.00,1,33.33,10,10.53,0,0,0,,,00
1,,visit_times,4,40.00,1,33.33,40,42.11,0,0,0,,,08
2,,visit_times,1,10.00,1,33.33,10,10.53,0,0,0,,,08:00
3,,visit_times,1,10.00,1,33.33,10,10.53,0,0,0,,,08:50
4,,visit_times,2,20.00,1,33.33,20,21.05,0,0,0,,,09
5,,visit_times,1,10.00,0,0.00,5,5.26,0,0,0,,,23:50

~~~~~
-o|csv|--restore|--ignore-panel=REQUESTS|--ignore-panel=REQUESTS_STATIC|--ignore-panel=NOT_FOUND|--ignore-panel=HOSTS|--ignore-panel=OS|--ignore-panel=BROWSERS|--ignore-panel=VIRTUAL_HOSTS|--ignore-panel=REFERRERS|--ignore-panel=REFERRING_SITES|--ignore-panel=KEYPHRASES|--ignore-panel=STATUS_CODES|--ignore-panel=REMOTE_USER|--ignore-panel=CACHE_STATUS|--ignore-panel=MIME_TYPE|--ignore-panel=TLS_TYPE|--date-spec=hr
-----
0
id,parent_id,panel,hits,hits%,visitors,visitors%,bytes,bytes%,avgts,cumts,maxts,method,protocol,data
0,,general,10,,,,,,,,,,,total_requests
1,,general,10,,,,,,,,,,,valid_requests
2,,general,0,,,,,,,,,,,failed_requests
3,,general,0,,,,,,,,,,,excluded_hits
4,,general,3,,,,,,,,,,,unique_visitors
5,,general,95,,,,,,,,,,,bandwidth
0,,visitors,1,10.00,1,33.33,10,10.53,0,0,0,,,2024010109
1,,visitors,2,20.00,1,33.33,20,21.05,0,0,0,,,2024010108
0,,visit_times,1,10.00,1,33.33,10,10.53,0,0,0,,,00
1,,visit_times,4,40.00,1,33.33,40,42.11,0,0,0,,,08
2,,visit_times,1,10.00,1,33.33,10,10.53,0,0,0,,,08:00
3,,visit_times,1,10.00,1,33.33,10,10.53,0,0,0,,,08:50
4,,visit_times,2,20.00,1,33.33,20,21.05,0,0,0,,,09
5,,visit_times,1,10.00,0,0.00,5,5.26,0,0,0,,,23:50

~~~~~
-o|csv|--restore|--ignore-panel=REQUESTS|--ignore-panel=REQUESTS_STATIC|--ignore-panel=NOT_FOUND|--ignore-panel=HOSTS|--ignore-panel=OS|--ignore-panel=BROWSERS|--ignore-panel=VIRTUAL_HOSTS|--ignore-panel=REFERRERS|--ignore-panel=REFERRING_SITES|--ignore-panel=KEYPHRASES|--ignore-panel=STATUS_CODES|--ignore-panel=REMOTE_USER|--ignore-panel=CACHE_STATUS|--ignore-panel=MIME_TYPE|--ignore-panel=TLS_TYPE|--date-spec=min
-----
0
id,parent_id,panel,hits,hits%,visitors,visitors%,bytes,bytes%,avgts,cumts,maxts,method,protocol,data
0,,general,10,,,,,,,,,,,total_requests
1,,general,10,,,,,,,,,,,valid_requests
2,,general,0,,,,,,,,,,,failed_requests
3,,general,0,,,,,,,,,,,excluded_hits
4,,general,3,,,,,,,,,,,unique_visitors
5,,general,95,,,,,,,,,,,bandwidth
0,,visitors,1,10.00,1,33.33,10,10.53,0,0,0,,,202401020805
1,,visitors,1,10.00,0,0.00,5,5.26,0,0,0,,,202401012359
2,,visitors,1,10.00,1,33.33,10,10.53,0,0,0,,,202401010855
0,,visit_times,1,10.00,1,33.33,10,10.53,0,0,0,,,00
1,,visit_times,4,40.00,1,33.33,40,42.11,0,0,0,,,08
2,,visit_times,1,10.00,1,33.33,10,10.53,0,0,0,,,08:00
3,,visit_times,1,10.00,1,33.33,10,10.53,0,0,0,,,08:50
4,,visit_times,2,20.00,1,33.33,20,21.05,0,0,0,,,09
5,,visit_times,1,10.00,0,0.00,5,5.26,0,0,0,,,23:50

~~~~~
--log-format=COMMON|-o|csv|--restore|--persist|--date-spec=hr|--ignore-panel=VISITORS
-----
0
id,parent_id,panel,hits,hits%,visitors,visitors%,bytes,bytes%,avgts,cumts,maxts,method,protocol,data
0,,general,10,,,,,,,,,,,total_requests
1,,general,10,,,,,,,,,,,valid_requests
2,,general,0,,,,,,,,,,,failed_requests
3,,general,0,,,,,,,,,,,excluded_hits
4,,general,3,,,,,,,,,,,unique_visitors
5,,general,95,,,,,,,,,,,bandwidth
0,,visit_times,1,10.00,1,33.33,10,10.53,0,0,0,,,00
1,,visit_times,4,40.00,1,33.33,40,42.11,0,0,0,,,08
2,,visit_times,1,10.00,1,33.33,10,10.53,0,0,0,,,08:00
3,,visit_times,1,10.00,1,33.33,10,10.53,0,0,0,,,08:50
4,,visit_times,2,20.00,1,33.33,20,21.05,0,0,0,,,09
5,,visit_times,1,10.00,0,0.00,5,5.26,0,0,0,,,23:50

~~~~~
--log-format=COMMON|-o|csv|--persist|--date-spec=hr|b.log
-----
0
id,parent_id,panel,hits,hits%,visitors,visitors%,bytes,bytes%,avgts,cumts,maxts,method,protocol,data
0,,general,6,,,,,,,,,,,total_requests
1,,general,6,,,,,,,,,,,valid_requests
2,,general,0,,,,,,,,,,,failed_requests
3,,general,0,,,,,,,,,,,excluded_hits
4,,general,3,,,,,,,,,,,unique_visitors
5,,general,55,,,,,,,,,,,bandwidth
0,,visitors,1,16.67,1,33.33,10,18.18,0,0,0,,,2024010208
1,,visitors,1,16.67,0,0.00,5,9.09,0,0,0,,,2024010123
2,,visitors,1,16.67,1,33.33,10,18.18,0,0,0,,,2024010109
3,,visitors,3,50.00,2,66.67,30,54.55,0,0,0,,,2024010108
0,,requests,5,83.33,3,100.00,50,90.91,0,0,0,GET,HTTP/1.1,/a
0,,not_found,1,16.67,0,0.00,5,9.09,0,0,0,GET,HTTP/1.1,/x
0,,hosts,5,83.33,2,66.67,45,81.82,0,0,0,,,192.0.2.1
1,,hosts,1,16.67,1,33.33,10,18.18,0,0,0,,,192.0.2.2
0,,visit_times,4,66.67,3,100.00,40,72.73,0,0,0,,,08
1,,visit_times,1,16.67,1,33.33,10,18.18,0,0,0,,,09
2,,visit_times,1,16.67,0,0.00,5,9.09,0,0,0,,,23
0,,status_codes,5,83.33,3,100.00,50,90.91,0,0,0,,,2xx Success
1,0,status_codes,5,83.33,3,100.00,50,90.91,0,0,0,,,200
2,,status_codes,1,16.67,0,0.00,5,9.09,0,0,0,,,4xx Client Errors
3,2,status_codes,1,16.67,0,0.00,5,9.09,0,0,0,,,404

~~~~~
-o|csv|--restore|--ignore-panel=REQUESTS|--ignore-panel=REQUESTS_STATIC|--ignore-panel=NOT_FOUND|--ignore-panel=HOSTS|--ignore-panel=OS|--ignore-panel=BROWSERS|--ignore-panel=VIRTUAL_HOSTS|--ignore-panel=REFERRERS|--ignore-panel=REFERRING_SITES|--ignore-panel=KEYPHRASES|--ignore-panel=STATUS_CODES|--ignore-panel=REMOTE_USER|--ignore-panel=CACHE_STATUS|--ignore-panel=MIME_TYPE|--ignore-panel=TLS_TYPE|--date-spec=min
-----
0
id,parent_id,panel,hits,hits%,visitors,visitors%,bytes,bytes%,avgts,cumts,maxts,method,protocol,data
0,,general,6,,,,,,,,,,,total_requests
1,,general,6,,,,,,,,,,,valid_requests
2,,general,0,,,,,,,,,,,failed_requests
3,,general,0,,,,,,,,,,,excluded_hits
4,,general,3,,,,,,,,,,,unique_visitors
5,,general,55,,,,,,,,,,,bandwidth
0,,visit_times,4,66.67,3,100.00,40,72.73,0,0,0,,,08
1,,visit_times,1,16.67,1,33.33,10,18.18,0,0,0,,,09
2,,visit_times,1,16.67,0,0.00,5,9.09,0,0,0,,,23

=====
the last two days, and runs with other numbers of them
~~~~~
+a.log
-----
192.0.2.1 - - [01/Jan/2024:00:00:00 +0000] \"GET /a HTTP/1.1\" 200 10
192.0.2.1 - - [02/Jan/2024:00:00:00 +0000] \"GET /a HTTP/1.1\" 200 10

~~~~~
--log-format=COMMON|-o|csv|--restore|--persist|--keep-last=2|a.log
-----
0
id,parent_id,panel,hits,hits%,visitors,visitors%,bytes,bytes%,avgts,cumts,maxts,method,protocol,data
0,,general,2,,,,,,,,,,,total_requests
1,,general,2,,,,,,,,,,,valid_requests
2,,general,0,,,,,,,,,,,failed_requests
3,,general,0,,,,,,,,,,,excluded_hits
4,,general,2,,,,,,,,,,,unique_visitors
5,,general,20,,,,,,,,,,,bandwidth
0,,visitors,1,50.00,1,50.00,10,50.00,0,0,0,,,20240102
1,,visitors,1,50.00,1,50.00,10,50.00,0,0,0,,,20240101
0,,requests,2,100.00,2,100.00,20,100.00,0,0,0,GET,HTTP/1.1,/a
0,,hosts,2,100.00,2,100.00,20,100.00,0,0,0,,,192.0.2.1
0,,visit_times,2,100.00,2,100.00,20,100.00,0,0,0,,,00
0,,status_codes,2,100.00,2,100.00,20,100.00,0,0,0,,,2xx Success
1,0,status_codes,2,100.00,2,100.00,20,100.00,0,0,0,,,200

~~~~~
+a.log
-----
192.0.2.1 - - [03/Jan/2024:00:00:00 +0000] \"GET /a HTTP/1.1\" 200 10

~~~~~
--log-format=COMMON|-o|csv|--restore|--persist|--keep-last=2|a.log
-----
0
id,parent_id,panel,hits,hits%,visitors,visitors%,bytes,bytes%,avgts,cumts,maxts,method,protocol,data
0,,general,3,,,,,,,,,,,total_requests
1,,general,2,,,,,,,,,,,valid_requests
2,,general,0,,,,,,,,,,,failed_requests
3,,general,0,,,,,,,,,,,excluded_hits
4,,general,2,,,,,,,,,,,unique_visitors
5,,general,20,,,,,,,,,,,bandwidth
0,,visitors,1,50.00,1,50.00,10,50.00,0,0,0,,,20240103
1,,visitors,1,50.00,1,50.00,10,50.00,0,0,0,,,20240102
0,,requests,2,100.00,2,100.00,20,100.00,0,0,0,GET,HTTP/1.1,/a
0,,hosts,2,100.00,2,100.00,20,100.00,0,0,0,,,192.0.2.1
0,,visit_times,2,100.00,2,100.00,20,100.00,0,0,0,,,00
0,,status_codes,2,100.00,2,100.00,20,100.00,0,0,0,,,2xx Success
1,0,status_codes,2,100.00,2,100.00,20,100.00,0,0,0,,,200

~~~~~
--log-format=COMMON|-o|csv|--restore|--persist|--keep-last=3|gone.log
-----
8
goaccess: keep-last: stored 2, given 3

~~~~~
--log-format=COMMON|-o|csv|--restore
-----
8
goaccess: keep-last: stored 2, given 0

~~~~~
+b.log
-----
192.0.2.1 - - [01/Jan/2024:00:00:00 +0000] \"GET /a HTTP/1.1\" 200 10
192.0.2.1 - - [03/Jan/2024:00:00:00 +0000] \"GET /a HTTP/1.1\" 200 10

~~~~~
--log-format=COMMON|-o|csv|--restore|--persist|--keep-last=2|b.log
-----
0
id,parent_id,panel,hits,hits%,visitors,visitors%,bytes,bytes%,avgts,cumts,maxts,method,protocol,data
0,,general,5,,,,,,,,,,,total_requests
1,,general,3,,,,,,,,,,,valid_requests
2,,general,0,,,,,,,,,,,failed_requests
3,,general,0,,,,,,,,,,,excluded_hits
4,,general,2,,,,,,,,,,,unique_visitors
5,,general,30,,,,,,,,,,,bandwidth
0,,visitors,2,66.67,1,50.00,20,66.67,0,0,0,,,20240103
1,,visitors,1,33.33,1,50.00,10,33.33,0,0,0,,,20240102
0,,requests,3,100.00,2,100.00,30,100.00,0,0,0,GET,HTTP/1.1,/a
0,,hosts,3,100.00,2,100.00,30,100.00,0,0,0,,,192.0.2.1
0,,visit_times,3,100.00,2,100.00,30,100.00,0,0,0,,,00
0,,status_codes,3,100.00,2,100.00,30,100.00,0,0,0,,,2xx Success
1,0,status_codes,3,100.00,2,100.00,30,100.00,0,0,0,,,200

~~~~~
--log-format=COMMON|-o|csv|--restore|--keep-last=2
-----
0
id,parent_id,panel,hits,hits%,visitors,visitors%,bytes,bytes%,avgts,cumts,maxts,method,protocol,data
0,,general,5,,,,,,,,,,,total_requests
1,,general,3,,,,,,,,,,,valid_requests
2,,general,0,,,,,,,,,,,failed_requests
3,,general,0,,,,,,,,,,,excluded_hits
4,,general,2,,,,,,,,,,,unique_visitors
5,,general,30,,,,,,,,,,,bandwidth
0,,visitors,2,66.67,1,50.00,20,66.67,0,0,0,,,20240103
1,,visitors,1,33.33,1,50.00,10,33.33,0,0,0,,,20240102
0,,requests,3,100.00,2,100.00,30,100.00,0,0,0,GET,HTTP/1.1,/a
0,,hosts,3,100.00,2,100.00,30,100.00,0,0,0,,,192.0.2.1
0,,visit_times,3,100.00,2,100.00,30,100.00,0,0,0,,,00
0,,status_codes,3,100.00,2,100.00,30,100.00,0,0,0,,,2xx Success
1,0,status_codes,3,100.00,2,100.00,30,100.00,0,0,0,,,200

~~~~~
--log-format=COMMON|-o|csv|--persist|--keep-last=3|a.log
-----
0
id,parent_id,panel,hits,hits%,visitors,visitors%,bytes,bytes%,avgts,cumts,maxts,method,protocol,data
0,,general,3,,,,,,,,,,,total_requests
1,,general,3,,,,,,,,,,,valid_requests
2,,general,0,,,,,,,,,,,failed_requests
3,,general,0,,,,,,,,,,,excluded_hits
4,,general,3,,,,,,,,,,,unique_visitors
5,,general,30,,,,,,,,,,,bandwidth
0,,visitors,1,33.33,1,33.33,10,33.33,0,0,0,,,20240103
1,,visitors,1,33.33,1,33.33,10,33.33,0,0,0,,,20240102
2,,visitors,1,33.33,1,33.33,10,33.33,0,0,0,,,20240101
0,,requests,3,100.00,3,100.00,30,100.00,0,0,0,GET,HTTP/1.1,/a
0,,hosts,3,100.00,3,100.00,30,100.00,0,0,0,,,192.0.2.1
0,,visit_times,3,100.00,3,100.00,30,100.00,0,0,0,,,00
0,,status_codes,3,100.00,3,100.00,30,100.00,0,0,0,,,2xx Success
1,0,status_codes,3,100.00,3,100.00,30,100.00,0,0,0,,,200

~~~~~
-o|csv|--restore|--ignore-panel=REQUESTS|--ignore-panel=REQUESTS_STATIC|--ignore-panel=NOT_FOUND|--ignore-panel=HOSTS|--ignore-panel=OS|--ignore-panel=BROWSERS|--ignore-panel=VIRTUAL_HOSTS|--ignore-panel=REFERRERS|--ignore-panel=REFERRING_SITES|--ignore-panel=KEYPHRASES|--ignore-panel=STATUS_CODES|--ignore-panel=REMOTE_USER|--ignore-panel=CACHE_STATUS|--ignore-panel=MIME_TYPE|--ignore-panel=TLS_TYPE|--keep-last=3
-----
0
id,parent_id,panel,hits,hits%,visitors,visitors%,bytes,bytes%,avgts,cumts,maxts,method,protocol,data
0,,general,3,,,,,,,,,,,total_requests
1,,general,3,,,,,,,,,,,valid_requests
2,,general,0,,,,,,,,,,,failed_requests
3,,general,0,,,,,,,,,,,excluded_hits
4,,general,3,,,,,,,,,,,unique_visitors
5,,general,30,,,,,,,,,,,bandwidth
0,,visitors,1,33.33,1,33.33,10,33.33,0,0,0,,,20240103
1,,visitors,1,33.33,1,33.33,10,33.33,0,0,0,,,20240102
2,,visitors,1,33.33,1,33.33,10,33.33,0,0,0,,,20240101
0,,visit_times,3,100.00,3,100.00,30,100.00,0,0,0,,,00

~~~~~
-o|csv|--restore|--ignore-panel=REQUESTS|--ignore-panel=REQUESTS_STATIC|--ignore-panel=NOT_FOUND|--ignore-panel=HOSTS|--ignore-panel=OS|--ignore-panel=BROWSERS|--ignore-panel=VIRTUAL_HOSTS|--ignore-panel=REFERRERS|--ignore-panel=REFERRING_SITES|--ignore-panel=KEYPHRASES|--ignore-panel=STATUS_CODES|--ignore-panel=REMOTE_USER|--ignore-panel=CACHE_STATUS|--ignore-panel=MIME_TYPE|--ignore-panel=TLS_TYPE|--keep-last=2
-----
8
goaccess: keep-last: stored 3, given 2

=====
all days are kept, and a number of them is refused
~~~~~
+a.log
-----
192.0.2.1 - - [01/Jan/2024:00:00:00 +0000] \"GET /a HTTP/1.1\" 200 10
192.0.2.1 - - [02/Jan/2024:00:00:00 +0000] \"GET /a HTTP/1.1\" 200 10
192.0.2.1 - - [03/Jan/2024:00:00:00 +0000] \"GET /a HTTP/1.1\" 200 10

~~~~~
--log-format=COMMON|-o|csv|--restore|--keep-last=1|a.log
-----
0
id,parent_id,panel,hits,hits%,visitors,visitors%,bytes,bytes%,avgts,cumts,maxts,method,protocol,data
0,,general,3,,,,,,,,,,,total_requests
1,,general,1,,,,,,,,,,,valid_requests
2,,general,0,,,,,,,,,,,failed_requests
3,,general,0,,,,,,,,,,,excluded_hits
4,,general,1,,,,,,,,,,,unique_visitors
5,,general,10,,,,,,,,,,,bandwidth
0,,visitors,1,100.00,1,100.00,10,100.00,0,0,0,,,20240103
0,,requests,1,100.00,1,100.00,10,100.00,0,0,0,GET,HTTP/1.1,/a
0,,hosts,1,100.00,1,100.00,10,100.00,0,0,0,,,192.0.2.1
0,,visit_times,1,100.00,1,100.00,10,100.00,0,0,0,,,00
0,,status_codes,1,100.00,1,100.00,10,100.00,0,0,0,,,2xx Success
1,0,status_codes,1,100.00,1,100.00,10,100.00,0,0,0,,,200

~~~~~
--log-format=COMMON|-o|csv|--restore|--persist|a.log
-----
0
id,parent_id,panel,hits,hits%,visitors,visitors%,bytes,bytes%,avgts,cumts,maxts,method,protocol,data
0,,general,3,,,,,,,,,,,total_requests
1,,general,3,,,,,,,,,,,valid_requests
2,,general,0,,,,,,,,,,,failed_requests
3,,general,0,,,,,,,,,,,excluded_hits
4,,general,3,,,,,,,,,,,unique_visitors
5,,general,30,,,,,,,,,,,bandwidth
0,,visitors,1,33.33,1,33.33,10,33.33,0,0,0,,,20240103
1,,visitors,1,33.33,1,33.33,10,33.33,0,0,0,,,20240102
2,,visitors,1,33.33,1,33.33,10,33.33,0,0,0,,,20240101
0,,requests,3,100.00,3,100.00,30,100.00,0,0,0,GET,HTTP/1.1,/a
0,,hosts,3,100.00,3,100.00,30,100.00,0,0,0,,,192.0.2.1
0,,visit_times,3,100.00,3,100.00,30,100.00,0,0,0,,,00
0,,status_codes,3,100.00,3,100.00,30,100.00,0,0,0,,,2xx Success
1,0,status_codes,3,100.00,3,100.00,30,100.00,0,0,0,,,200

~~~~~
--log-format=COMMON|-o|csv|--restore|--persist|--keep-last=3|a.log
-----
8
goaccess: keep-last: stored 0, given 3

~~~~~
-o|csv|--restore|--ignore-panel=REQUESTS|--ignore-panel=REQUESTS_STATIC|--ignore-panel=NOT_FOUND|--ignore-panel=HOSTS|--ignore-panel=OS|--ignore-panel=BROWSERS|--ignore-panel=VIRTUAL_HOSTS|--ignore-panel=REFERRERS|--ignore-panel=REFERRING_SITES|--ignore-panel=KEYPHRASES|--ignore-panel=STATUS_CODES|--ignore-panel=REMOTE_USER|--ignore-panel=CACHE_STATUS|--ignore-panel=MIME_TYPE|--ignore-panel=TLS_TYPE|--keep-last=1|--time-format=%H
-----
1
goaccess: time format, byte 2: bad directive

~~~~~
-o|csv|--restore|--ignore-panel=REQUESTS|--ignore-panel=REQUESTS_STATIC|--ignore-panel=NOT_FOUND|--ignore-panel=HOSTS|--ignore-panel=OS|--ignore-panel=BROWSERS|--ignore-panel=VIRTUAL_HOSTS|--ignore-panel=REFERRERS|--ignore-panel=REFERRING_SITES|--ignore-panel=KEYPHRASES|--ignore-panel=STATUS_CODES|--ignore-panel=REMOTE_USER|--ignore-panel=CACHE_STATUS|--ignore-panel=MIME_TYPE|--ignore-panel=TLS_TYPE
-----
0
id,parent_id,panel,hits,hits%,visitors,visitors%,bytes,bytes%,avgts,cumts,maxts,method,protocol,data
0,,general,3,,,,,,,,,,,total_requests
1,,general,3,,,,,,,,,,,valid_requests
2,,general,0,,,,,,,,,,,failed_requests
3,,general,0,,,,,,,,,,,excluded_hits
4,,general,3,,,,,,,,,,,unique_visitors
5,,general,30,,,,,,,,,,,bandwidth
0,,visitors,1,33.33,1,33.33,10,33.33,0,0,0,,,20240103
1,,visitors,1,33.33,1,33.33,10,33.33,0,0,0,,,20240102
2,,visitors,1,33.33,1,33.33,10,33.33,0,0,0,,,20240101
0,,visit_times,3,100.00,3,100.00,30,100.00,0,0,0,,,00

=====
tracked runs without a log
~~~~~
--log-format=COMMON|-o|csv|--restore|--persist
-----
0
id,parent_id,panel,hits,hits%,visitors,visitors%,bytes,bytes%,avgts,cumts,maxts,method,protocol,data
0,,general,0,,,,,,,,,,,total_requests
1,,general,0,,,,,,,,,,,valid_requests
2,,general,0,,,,,,,,,,,failed_requests
3,,general,0,,,,,,,,,,,excluded_hits
4,,general,0,,,,,,,,,,,unique_visitors
5,,general,0,,,,,,,,,,,bandwidth

~~~~~
+a.log
-----
192.0.2.1 - - [01/Jan/2024:00:00:00 +0000] \"GET /a HTTP/1.1\" 200 10

~~~~~
--log-format=COMMON|-o|csv|--restore|--persist|a.log
-----
0
id,parent_id,panel,hits,hits%,visitors,visitors%,bytes,bytes%,avgts,cumts,maxts,method,protocol,data
0,,general,1,,,,,,,,,,,total_requests
1,,general,1,,,,,,,,,,,valid_requests
2,,general,0,,,,,,,,,,,failed_requests
3,,general,0,,,,,,,,,,,excluded_hits
4,,general,1,,,,,,,,,,,unique_visitors
5,,general,10,,,,,,,,,,,bandwidth
0,,visitors,1,100.00,1,100.00,10,100.00,0,0,0,,,20240101
0,,requests,1,100.00,1,100.00,10,100.00,0,0,0,GET,HTTP/1.1,/a
0,,hosts,1,100.00,1,100.00,10,100.00,0,0,0,,,192.0.2.1
0,,visit_times,1,100.00,1,100.00,10,100.00,0,0,0,,,00
0,,status_codes,1,100.00,1,100.00,10,100.00,0,0,0,,,2xx Success
1,0,status_codes,1,100.00,1,100.00,10,100.00,0,0,0,,,200

~~~~~
--log-format=COMMON|-o|csv|--restore|--persist
-----
0
id,parent_id,panel,hits,hits%,visitors,visitors%,bytes,bytes%,avgts,cumts,maxts,method,protocol,data
0,,general,1,,,,,,,,,,,total_requests
1,,general,1,,,,,,,,,,,valid_requests
2,,general,0,,,,,,,,,,,failed_requests
3,,general,0,,,,,,,,,,,excluded_hits
4,,general,1,,,,,,,,,,,unique_visitors
5,,general,10,,,,,,,,,,,bandwidth
0,,visitors,1,100.00,1,100.00,10,100.00,0,0,0,,,20240101
0,,requests,1,100.00,1,100.00,10,100.00,0,0,0,GET,HTTP/1.1,/a
0,,hosts,1,100.00,1,100.00,10,100.00,0,0,0,,,192.0.2.1
0,,visit_times,1,100.00,1,100.00,10,100.00,0,0,0,,,00
0,,status_codes,1,100.00,1,100.00,10,100.00,0,0,0,,,2xx Success
1,0,status_codes,1,100.00,1,100.00,10,100.00,0,0,0,,,200

~~~~~
--log-format=COMMON|-o|csv|--restore
-----
0
id,parent_id,panel,hits,hits%,visitors,visitors%,bytes,bytes%,avgts,cumts,maxts,method,protocol,data
0,,general,1,,,,,,,,,,,total_requests
1,,general,1,,,,,,,,,,,valid_requests
2,,general,0,,,,,,,,,,,failed_requests
3,,general,0,,,,,,,,,,,excluded_hits
4,,general,1,,,,,,,,,,,unique_visitors
5,,general,10,,,,,,,,,,,bandwidth
0,,visitors,1,100.00,1,100.00,10,100.00,0,0,0,,,20240101
0,,requests,1,100.00,1,100.00,10,100.00,0,0,0,GET,HTTP/1.1,/a
0,,hosts,1,100.00,1,100.00,10,100.00,0,0,0,,,192.0.2.1
0,,visit_times,1,100.00,1,100.00,10,100.00,0,0,0,,,00
0,,status_codes,1,100.00,1,100.00,10,100.00,0,0,0,,,2xx Success
1,0,status_codes,1,100.00,1,100.00,10,100.00,0,0,0,,,200

=====
nothing stored, and logs of which no line was ended
~~~~~
--log-format=COMMON|-o|json|--restore|--ignore-panel=HOSTS
-----
0
{\"browsers\":{\"data\":[]},\"cache_status\":{\"data\":[]},\"general\":{\"bandwidth\":0,\"excluded_hits\":0,\"failed_requests\":0,\"total_requests\":0,\"unique_visitors\":0,\"valid_requests\":0},\"keyphrases\":{\"data\":[]},\"mime_type\":{\"data\":[]},\"not_found\":{\"data\":[]},\"os\":{\"data\":[]},\"referrers\":{\"data\":[]},\"referring_sites\":{\"data\":[]},\"remote_user\":{\"data\":[]},\"requests\":{\"data\":[]},\"requests_static\":{\"data\":[]},\"status_codes\":{\"data\":[]},\"tls_type\":{\"data\":[]},\"virtual_hosts\":{\"data\":[]},\"visit_times\":{\"data\":[]},\"visitors\":{\"data\":[]}}

~~~~~
+a.log
-----
broken
~~~~~
--log-format=COMMON|-o|csv|--restore|--persist|a.log
-----
0
id,parent_id,panel,hits,hits%,visitors,visitors%,bytes,bytes%,avgts,cumts,maxts,method,protocol,data
0,,general,0,,,,,,,,,,,total_requests
1,,general,0,,,,,,,,,,,valid_requests
2,,general,0,,,,,,,,,,,failed_requests
3,,general,0,,,,,,,,,,,excluded_hits
4,,general,0,,,,,,,,,,,unique_visitors
5,,general,0,,,,,,,,,,,bandwidth

~~~~~
+a.log
-----


~~~~~
--log-format=COMMON|-o|csv|--restore|--persist|a.log
-----
0
id,parent_id,panel,hits,hits%,visitors,visitors%,bytes,bytes%,avgts,cumts,maxts,method,protocol,data
0,,general,1,,,,,,,,,,,total_requests
1,,general,0,,,,,,,,,,,valid_requests
2,,general,1,,,,,,,,,,,failed_requests
3,,general,0,,,,,,,,,,,excluded_hits
4,,general,0,,,,,,,,,,,unique_visitors
5,,general,0,,,,,,,,,,,bandwidth
";
