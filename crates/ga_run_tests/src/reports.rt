//! Written by tools/make_cases.py; don't edit by hand.

/// Runs that print, a line of `=` between two. A run has four parts, with a line of `-` between two: its name; its words, with a
/// bar between two; the files `a.log`, `b.log` and `agents.txt`, as many as are there, with a line of `+` between two; and what it
/// answers, which is its exit status and then what standard output, standard error and the report's file took. The answers were
/// worked out by a program in another language.
pub const REPORTS: &str = "\
an empty log
-----
--log-format=COMMON|a.log
-----

-----
0
{\"browsers\":{\"data\":[]},\"cache_status\":{\"data\":[]},\"general\":{\"bandwidth\":0,\"excluded_hits\":0,\"failed_requests\":0,\"total_requests\":0,\"unique_visitors\":0,\"valid_requests\":0},\"hosts\":{\"data\":[]},\"keyphrases\":{\"data\":[]},\"mime_type\":{\"data\":[]},\"not_found\":{\"data\":[]},\"os\":{\"data\":[]},\"referrers\":{\"data\":[]},\"referring_sites\":{\"data\":[]},\"remote_user\":{\"data\":[]},\"requests\":{\"data\":[]},\"requests_static\":{\"data\":[]},\"status_codes\":{\"data\":[]},\"tls_type\":{\"data\":[]},\"virtual_hosts\":{\"data\":[]},\"visit_times\":{\"data\":[]},\"visitors\":{\"data\":[]}}

=====
one line in the combined format
-----
--log-format=COMBINED|-o|csv|a.log
-----
203.0.113.7 - - [12/Mar/2024:08:05:09 +0000] \"GET /index.html HTTP/1.1\" 200 512 \"https://www.example.org/start\" \"Mozilla/5.0 (X11; Linux x86_64; rv:124.0) Gecko/20100101 Firefox/124.0\"

-----
0
id,parent_id,panel,hits,hits%,visitors,visitors%,bytes,bytes%,avgts,cumts,maxts,method,protocol,data
0,,general,1,,,,,,,,,,,total_requests
1,,general,1,,,,,,,,,,,valid_requests
2,,general,0,,,,,,,,,,,failed_requests
3,,general,0,,,,,,,,,,,excluded_hits
4,,general,1,,,,,,,,,,,unique_visitors
5,,general,512,,,,,,,,,,,bandwidth
0,,visitors,1,100.00,1,100.00,512,100.00,0,0,0,,,20240312
0,,requests,1,100.00,1,100.00,512,100.00,0,0,0,GET,HTTP/1.1,/index.html
0,,hosts,1,100.00,1,100.00,512,100.00,0,0,0,,,203.0.113.7
0,,os,1,100.00,1,100.00,512,100.00,0,0,0,,,Linux
1,0,os,1,100.00,1,100.00,512,100.00,0,0,0,,,Linux
0,,browsers,1,100.00,1,100.00,512,100.00,0,0,0,,,Firefox
1,0,browsers,1,100.00,1,100.00,512,100.00,0,0,0,,,Firefox/124.0
0,,visit_times,1,100.00,1,100.00,512,100.00,0,0,0,,,08
0,,referrers,1,100.00,1,100.00,512,100.00,0,0,0,,,https://www.example.org/start
0,,referring_sites,1,100.00,1,100.00,512,100.00,0,0,0,,,www.example.org
0,,status_codes,1,100.00,1,100.00,512,100.00,0,0,0,,,2xx Success
1,0,status_codes,1,100.00,1,100.00,512,100.00,0,0,0,,,200

=====
the same as JSON
-----
--log-format=COMBINED|a.log
-----
203.0.113.7 - - [12/Mar/2024:08:05:09 +0000] \"GET /index.html HTTP/1.1\" 200 512 \"https://www.example.org/start\" \"Mozilla/5.0 (X11; Linux x86_64; rv:124.0) Gecko/20100101 Firefox/124.0\"

-----
0
{\"browsers\":{\"data\":[{\"avgts\":0,\"bytes\":{\"count\":512,\"percent\":\"100.00\"},\"cumts\":0,\"data\":\"Firefox\",\"hits\":{\"count\":1,\"percent\":\"100.00\"},\"items\":[{\"avgts\":0,\"bytes\":{\"count\":512,\"percent\":\"100.00\"},\"cumts\":0,\"data\":\"Firefox/124.0\",\"hits\":{\"count\":1,\"percent\":\"100.00\"},\"maxts\":0,\"visitors\":{\"count\":1,\"percent\":\"100.00\"}}],\"maxts\":0,\"visitors\":{\"count\":1,\"percent\":\"100.00\"}}]},\"cache_status\":{\"data\":[]},\"general\":{\"bandwidth\":512,\"excluded_hits\":0,\"failed_requests\":0,\"total_requests\":1,\"unique_visitors\":1,\"valid_requests\":1},\"hosts\":{\"data\":[{\"avgts\":0,\"bytes\":{\"count\":512,\"percent\":\"100.00\"},\"cumts\":0,\"data\":\"203.0.113.7\",\"hits\":{\"count\":1,\"percent\":\"100.00\"},\"maxts\":0,\"visitors\":{\"count\":1,\"percent\":\"100.00\"}}]},\"keyphrases\":{\"data\":[]},\"mime_type\":{\"data\":[]},\"not_found\":{\"data\":[]},\"os\":{\"data\":[{\"avgts\":0,\"bytes\":{\"count\":512,\"percent\":\"100.00\"},\"cumts\":0,\"data\":\"Linux\",\"hits\":{\"count\":1,\"percent\":\"100.00\"},\"items\":[{\"avgts\":0,\"bytes\":{\"count\":512,\"percent\":\"100.00\"},\"cumts\":0,\"data\":\"Linux\",\"hits\":{\"count\":1,\"percent\":\"100.00\"},\"maxts\":0,\"visitors\":{\"count\":1,\"percent\":\"100.00\"}}],\"maxts\":0,\"visitors\":{\"count\":1,\"percent\":\"100.00\"}}]},\"referrers\":{\"data\":[{\"avgts\":0,\"bytes\":{\"count\":512,\"percent\":\"100.00\"},\"cumts\":0,\"data\":\"https://www.example.org/start\",\"hits\":{\"count\":1,\"percent\":\"100.00\"},\"maxts\":0,\"visitors\":{\"count\":1,\"percent\":\"100.00\"}}]},\"referring_sites\":{\"data\":[{\"avgts\":0,\"bytes\":{\"count\":512,\"percent\":\"100.00\"},\"cumts\":0,\"data\":\"www.example.org\",\"hits\":{\"count\":1,\"percent\":\"100.00\"},\"maxts\":0,\"visitors\":{\"count\":1,\"percent\":\"100.00\"}}]},\"remote_user\":{\"data\":[]},\"requests\":{\"data\":[{\"avgts\":0,\"bytes\":{\"count\":512,\"percent\":\"100.00\"},\"cumts\":0,\"data\":\"/index.html\",\"hits\":{\"count\":1,\"percent\":\"100.00\"},\"maxts\":0,\"method\":\"GET\",\"protocol\":\"HTTP/1.1\",\"visitors\":{\"count\":1,\"percent\":\"100.00\"}}]},\"requests_static\":{\"data\":[]},\"status_codes\":{\"data\":[{\"avgts\":0,\"bytes\":{\"count\":512,\"percent\":\"100.00\"},\"cumts\":0,\"data\":\"2xx Success\",\"hits\":{\"count\":1,\"percent\":\"100.00\"},\"items\":[{\"avgts\":0,\"bytes\":{\"count\":512,\"percent\":\"100.00\"},\"cumts\":0,\"data\":\"200\",\"hits\":{\"count\":1,\"percent\":\"100.00\"},\"maxts\":0,\"visitors\":{\"count\":1,\"percent\":\"100.00\"}}],\"maxts\":0,\"visitors\":{\"count\":1,\"percent\":\"100.00\"}}]},\"tls_type\":{\"data\":[]},\"virtual_hosts\":{\"data\":[]},\"visit_times\":{\"data\":[{\"avgts\":0,\"bytes\":{\"count\":512,\"percent\":\"100.00\"},\"cumts\":0,\"data\":\"08\",\"hits\":{\"count\":1,\"percent\":\"100.00\"},\"maxts\":0,\"visitors\":{\"count\":1,\"percent\":\"100.00\"}}]},\"visitors\":{\"data\":[{\"avgts\":0,\"bytes\":{\"count\":512,\"percent\":\"100.00\"},\"cumts\":0,\"data\":\"20240312\",\"hits\":{\"count\":1,\"percent\":\"100.00\"},\"maxts\":0,\"visitors\":{\"count\":1,\"percent\":\"100.00\"}}]}}

=====
two days, and two logs
-----
--log-format=COMMON|-o|csv|a.log|b.log
-----
192.0.2.1 - - [01/Jan/2024:00:00:00 +0000] \"GET /a HTTP/1.1\" 200 10
192.0.2.1 - - [01/Jan/2024:00:00:00 +0000] \"GET /x HTTP/1.1\" 404 5
192.0.2.2 - - [01/Jan/2024:00:00:00 +0000] \"GET /b.css HTTP/1.1\" 304 -
192.0.2.1 - - [02/Jan/2024:23:00:00 +0000] \"POST /a HTTP/1.1\" 500 7

+++++
192.0.2.1 - - [01/Jan/2024:00:00:00 +0000] \"GET /a HTTP/1.1\" 200 10
192.0.2.1 - - [01/Jan/2024:00:00:00 +0000] \"GET /x HTTP/1.1\" 404 5
192.0.2.2 - - [01/Jan/2024:00:00:00 +0000] \"GET /b.css HTTP/1.1\" 304 -
192.0.2.1 - - [02/Jan/2024:23:00:00 +0000] \"POST /a HTTP/1.1\" 500 7
2001:db8::1 - - [03/Jan/2024:00:00:00 +0000] \"GET /a HTTP/1.1\" 200 10
broken

-----
0
id,parent_id,panel,hits,hits%,visitors,visitors%,bytes,bytes%,avgts,cumts,maxts,method,protocol,data
0,,general,10,,,,,,,,,,,total_requests
1,,general,9,,,,,,,,,,,valid_requests
2,,general,1,,,,,,,,,,,failed_requests
3,,general,0,,,,,,,,,,,excluded_hits
4,,general,4,,,,,,,,,,,unique_visitors
5,,general,54,,,,,,,,,,,bandwidth
0,,visitors,1,11.11,1,25.00,10,18.52,0,0,0,,,20240103
1,,visitors,2,22.22,1,25.00,14,25.93,0,0,0,,,20240102
2,,visitors,6,66.67,2,50.00,30,55.56,0,0,0,,,20240101
0,,requests,3,33.33,2,50.00,30,55.56,0,0,0,GET,HTTP/1.1,/a
1,,requests,2,22.22,1,25.00,14,25.93,0,0,0,POST,HTTP/1.1,/a
0,,requests_static,2,22.22,1,25.00,0,0.00,0,0,0,GET,HTTP/1.1,/b.css
0,,not_found,2,22.22,0,0.00,10,18.52,0,0,0,GET,HTTP/1.1,/x
0,,hosts,6,66.67,2,50.00,44,81.48,0,0,0,,,192.0.2.1
1,,hosts,2,22.22,1,25.00,0,0.00,0,0,0,,,192.0.2.2
2,,hosts,1,11.11,1,25.00,10,18.52,0,0,0,,,2001:db8::1
0,,visit_times,7,77.78,3,75.00,40,74.07,0,0,0,,,00
1,,visit_times,2,22.22,1,25.00,14,25.93,0,0,0,,,23
0,,status_codes,3,33.33,2,50.00,30,55.56,0,0,0,,,2xx Success
1,0,status_codes,3,33.33,2,50.00,30,55.56,0,0,0,,,200
2,,status_codes,2,22.22,1,25.00,0,0.00,0,0,0,,,3xx Redirection
3,2,status_codes,2,22.22,1,25.00,0,0.00,0,0,0,,,304
4,,status_codes,2,22.22,0,0.00,10,18.52,0,0,0,,,4xx Client Errors
5,4,status_codes,2,22.22,0,0.00,10,18.52,0,0,0,,,404
6,,status_codes,2,22.22,1,25.00,14,25.93,0,0,0,,,5xx Server Errors
7,6,status_codes,2,22.22,1,25.00,14,25.93,0,0,0,,,500

=====
two days of two lines each
-----
--log-format=COMMON|-o|csv|a.log
-----
192.0.2.1 - - [01/Jan/2024:00:00:00 +0000] \"GET /a HTTP/1.1\" 200 10
192.0.2.1 - - [01/Jan/2024:00:00:00 +0000] \"GET /a HTTP/1.1\" 200 10
192.0.2.1 - - [02/Jan/2024:00:00:00 +0000] \"GET /a HTTP/1.1\" 200 10
192.0.2.1 - - [02/Jan/2024:00:00:00 +0000] \"GET /a HTTP/1.1\" 200 10

-----
0
id,parent_id,panel,hits,hits%,visitors,visitors%,bytes,bytes%,avgts,cumts,maxts,method,protocol,data
0,,general,4,,,,,,,,,,,total_requests
1,,general,4,,,,,,,,,,,valid_requests
2,,general,0,,,,,,,,,,,failed_requests
3,,general,0,,,,,,,,,,,excluded_hits
4,,general,2,,,,,,,,,,,unique_visitors
5,,general,40,,,,,,,,,,,bandwidth
0,,visitors,2,50.00,1,50.00,20,50.00,0,0,0,,,20240102
1,,visitors,2,50.00,1,50.00,20,50.00,0,0,0,,,20240101
0,,requests,4,100.00,2,100.00,40,100.00,0,0,0,GET,HTTP/1.1,/a
0,,hosts,4,100.00,2,100.00,40,100.00,0,0,0,,,192.0.2.1
0,,visit_times,4,100.00,2,100.00,40,100.00,0,0,0,,,00
0,,status_codes,4,100.00,2,100.00,40,100.00,0,0,0,,,2xx Success
1,0,status_codes,4,100.00,2,100.00,40,100.00,0,0,0,,,200

=====
a log that is named twice, once after two dashes
-----
a.log|-o|r.json|--log-format|COMMON|--|a.log
-----
192.0.2.1 - - [01/Jan/2024:00:00:00 +0000] \"GET /a HTTP/1.1\" 200 10

-----
0
{\"browsers\":{\"data\":[]},\"cache_status\":{\"data\":[]},\"general\":{\"bandwidth\":20,\"excluded_hits\":0,\"failed_requests\":0,\"total_requests\":2,\"unique_visitors\":1,\"valid_requests\":2},\"hosts\":{\"data\":[{\"avgts\":0,\"bytes\":{\"count\":20,\"percent\":\"100.00\"},\"cumts\":0,\"data\":\"192.0.2.1\",\"hits\":{\"count\":2,\"percent\":\"100.00\"},\"maxts\":0,\"visitors\":{\"count\":1,\"percent\":\"100.00\"}}]},\"keyphrases\":{\"data\":[]},\"mime_type\":{\"data\":[]},\"not_found\":{\"data\":[]},\"os\":{\"data\":[]},\"referrers\":{\"data\":[]},\"referring_sites\":{\"data\":[]},\"remote_user\":{\"data\":[]},\"requests\":{\"data\":[{\"avgts\":0,\"bytes\":{\"count\":20,\"percent\":\"100.00\"},\"cumts\":0,\"data\":\"/a\",\"hits\":{\"count\":2,\"percent\":\"100.00\"},\"maxts\":0,\"method\":\"GET\",\"protocol\":\"HTTP/1.1\",\"visitors\":{\"count\":1,\"percent\":\"100.00\"}}]},\"requests_static\":{\"data\":[]},\"status_codes\":{\"data\":[{\"avgts\":0,\"bytes\":{\"count\":20,\"percent\":\"100.00\"},\"cumts\":0,\"data\":\"2xx Success\",\"hits\":{\"count\":2,\"percent\":\"100.00\"},\"items\":[{\"avgts\":0,\"bytes\":{\"count\":20,\"percent\":\"100.00\"},\"cumts\":0,\"data\":\"200\",\"hits\":{\"count\":2,\"percent\":\"100.00\"},\"maxts\":0,\"visitors\":{\"count\":1,\"percent\":\"100.00\"}}],\"maxts\":0,\"visitors\":{\"count\":1,\"percent\":\"100.00\"}}]},\"tls_type\":{\"data\":[]},\"virtual_hosts\":{\"data\":[]},\"visit_times\":{\"data\":[{\"avgts\":0,\"bytes\":{\"count\":20,\"percent\":\"100.00\"},\"cumts\":0,\"data\":\"00\",\"hits\":{\"count\":2,\"percent\":\"100.00\"},\"maxts\":0,\"visitors\":{\"count\":1,\"percent\":\"100.00\"}}]},\"visitors\":{\"data\":[{\"avgts\":0,\"bytes\":{\"count\":20,\"percent\":\"100.00\"},\"cumts\":0,\"data\":\"20240101\",\"hits\":{\"count\":2,\"percent\":\"100.00\"},\"maxts\":0,\"visitors\":{\"count\":1,\"percent\":\"100.00\"}}]}}

=====
a line that isn't ended
-----
--log-format=COMMON|-o|csv|a.log
-----
192.0.2.1 - - [01/Jan/2024:00:00:00 +0000] \"GET /a HTTP/1.1\" 200 10
192.0.2.1 - - [01/Jan/2024:00:00:0
-----
0
id,parent_id,panel,hits,hits%,visitors,visitors%,bytes,bytes%,avgts,cumts,maxts,method,protocol,data
0,,general,2,,,,,,,,,,,total_requests
1,,general,1,,,,,,,,,,,valid_requests
2,,general,1,,,,,,,,,,,failed_requests
3,,general,0,,,,,,,,,,,excluded_hits
4,,general,1,,,,,,,,,,,unique_visitors
5,,general,10,,,,,,,,,,,bandwidth
0,,visitors,1,100.00,1,100.00,10,100.00,0,0,0,,,20240101
0,,requests,1,100.00,1,100.00,10,100.00,0,0,0,GET,HTTP/1.1,/a
0,,hosts,1,100.00,1,100.00,10,100.00,0,0,0,,,192.0.2.1
0,,visit_times,1,100.00,1,100.00,10,100.00,0,0,0,,,00
0,,status_codes,1,100.00,1,100.00,10,100.00,0,0,0,,,2xx Success
1,0,status_codes,1,100.00,1,100.00,10,100.00,0,0,0,,,200

=====
line ends of two bytes, a comment and an empty line
-----
--log-format=COMMON|-o|csv|a.log
-----
192.0.2.1 - - [01/Jan/2024:00:00:00 +0000] \"GET /a HTTP/1.1\" 200 10\r
# note


-----
0
id,parent_id,panel,hits,hits%,visitors,visitors%,bytes,bytes%,avgts,cumts,maxts,method,protocol,data
0,,general,1,,,,,,,,,,,total_requests
1,,general,1,,,,,,,,,,,valid_requests
2,,general,0,,,,,,,,,,,failed_requests
3,,general,0,,,,,,,,,,,excluded_hits
4,,general,1,,,,,,,,,,,unique_visitors
5,,general,10,,,,,,,,,,,bandwidth
0,,visitors,1,100.00,1,100.00,10,100.00,0,0,0,,,20240101
0,,requests,1,100.00,1,100.00,10,100.00,0,0,0,GET,HTTP/1.1,/a
0,,hosts,1,100.00,1,100.00,10,100.00,0,0,0,,,192.0.2.1
0,,visit_times,1,100.00,1,100.00,10,100.00,0,0,0,,,00
0,,status_codes,1,100.00,1,100.00,10,100.00,0,0,0,,,2xx Success
1,0,status_codes,1,100.00,1,100.00,10,100.00,0,0,0,,,200

=====
lines that fail, each for a cause of its own
-----
--log-format=COMMON|-o|csv|a.log
-----
192.0.2.1 - - [01/Jan/2024:00:00:00 z] \"r\" 200 7\r
# note

nothing fits
2001:db8::b - - [02/Jan/2024:00:00:00 z] \"r\" 200 5 more
2001:db8::b - - [02/Jan/2024:00:00:00 z] \"\" 200 5
 - - [01/Jan/2024:00:00:00 z] \"r\" 200 5
::ffff:192.0.2.3 - - [01/Jan/2024:00:00:00 z] \"r\" 404 1000000000000000000
192.0.2.3 - - [01/Jan/2024:00:00:00 z] \"r\" 200 1000000000000000001
192.0.2.3 - - [31/Feb/2024:00:00:00 z] \"r\" 200 5
192.0.2.3 - - [01/Jan/2024:24:00:00 z] \"r\" 200 5
192.0.2.3 - - [01/Jan/2024:00:00:00 z] \"r\" 99 5
192.0.2.03 - - [01/Jan/2024:00:00:00 z] \"r\" 200 5
h - - [01/Jan/2024:00:00:00 z] \"r\" 200 5
192.0.2.1 - - [02/Jan/2024:23:59:60 z] \"r\\\"s\" 200 3

-----
0
id,parent_id,panel,hits,hits%,visitors,visitors%,bytes,bytes%,avgts,cumts,maxts,method,protocol,data
0,,general,13,,,,,,,,,,,total_requests
1,,general,4,,,,,,,,,,,valid_requests
2,,general,9,,,,,,,,,,,failed_requests
3,,general,0,,,,,,,,,,,excluded_hits
4,,general,3,,,,,,,,,,,unique_visitors
5,,general,1000000000000000010,,,,,,,,,,,bandwidth
0,,visitors,2,50.00,2,66.67,3,0.00,0,0,0,,,20240102
1,,visitors,2,50.00,1,33.33,1000000000000000007,100.00,0,0,0,,,20240101
0,,requests,2,50.00,2,66.67,7,0.00,0,0,0,,,r
1,,requests,1,25.00,1,33.33,3,0.00,0,0,0,,,\"r\\\"\"s\"
0,,not_found,1,25.00,0,0.00,1000000000000000000,100.00,0,0,0,,,r
0,,hosts,2,50.00,2,66.67,10,0.00,0,0,0,,,192.0.2.1
1,,hosts,1,25.00,1,33.33,0,0.00,0,0,0,,,2001:db8::b
2,,hosts,1,25.00,0,0.00,1000000000000000000,100.00,0,0,0,,,::ffff:192.0.2.3
0,,visit_times,3,75.00,2,66.67,1000000000000000007,100.00,0,0,0,,,00
1,,visit_times,1,25.00,1,33.33,3,0.00,0,0,0,,,23
0,,status_codes,3,75.00,3,100.00,10,0.00,0,0,0,,,2xx Success
1,0,status_codes,3,75.00,3,100.00,10,0.00,0,0,0,,,200
2,,status_codes,1,25.00,0,0.00,1000000000000000000,100.00,0,0,0,,,4xx Client Errors
3,2,status_codes,1,25.00,0,0.00,1000000000000000000,100.00,0,0,0,,,404

=====
lines without referrer and agent in the combined format
-----
--log-format=COMBINED|-o|csv|a.log
-----
192.0.2.1 - - [01/Jan/2024:00:00:00 +0000] \"GET /a HTTP/1.1\" 200 10

-----
0
id,parent_id,panel,hits,hits%,visitors,visitors%,bytes,bytes%,avgts,cumts,maxts,method,protocol,data
0,,general,1,,,,,,,,,,,total_requests
1,,general,1,,,,,,,,,,,valid_requests
2,,general,0,,,,,,,,,,,failed_requests
3,,general,0,,,,,,,,,,,excluded_hits
4,,general,1,,,,,,,,,,,unique_visitors
5,,general,10,,,,,,,,,,,bandwidth
0,,visitors,1,100.00,1,100.00,10,100.00,0,0,0,,,20240101
0,,requests,1,100.00,1,100.00,10,100.00,0,0,0,GET,HTTP/1.1,/a
0,,hosts,1,100.00,1,100.00,10,100.00,0,0,0,,,192.0.2.1
0,,visit_times,1,100.00,1,100.00,10,100.00,0,0,0,,,00
0,,status_codes,1,100.00,1,100.00,10,100.00,0,0,0,,,2xx Success
1,0,status_codes,1,100.00,1,100.00,10,100.00,0,0,0,,,200

=====
lines that are JSON objects, one without its request
-----
--log-format={\"ip\":\"%h\",\"t\":\"%d:%t %^\",\"req\":{\"m\":\"%m\",\"u\":\"%U\"},\"st\":\"%s\",\"ua\":[\"%u\"]}|-o|csv|a.log
-----
{\"ip\":\"192.0.2.1\",\"t\":\"01/Jan/2024:00:00:00 +0000\",\"req\":{\"m\":\"GET\",\"u\":\"/a\"},\"st\":200,\"ua\":[\"curl/8.0\"]}
{\"ip\":\"192.0.2.1\",\"t\":\"01/Jan/2024:00:00:00 +0000\",\"st\":200,\"ua\":[\"curl/8.0\"]}

-----
0
id,parent_id,panel,hits,hits%,visitors,visitors%,bytes,bytes%,avgts,cumts,maxts,method,protocol,data
0,,general,2,,,,,,,,,,,total_requests
1,,general,1,,,,,,,,,,,valid_requests
2,,general,1,,,,,,,,,,,failed_requests
3,,general,0,,,,,,,,,,,excluded_hits
4,,general,1,,,,,,,,,,,unique_visitors
5,,general,0,,,,,,,,,,,bandwidth
0,,visitors,1,100.00,1,100.00,0,0.00,0,0,0,,,20240101
0,,requests,1,100.00,1,100.00,0,0.00,0,0,0,GET,,/a
0,,hosts,1,100.00,1,100.00,0,0.00,0,0,0,,,192.0.2.1
0,,os,1,100.00,1,100.00,0,0.00,0,0,0,,,Unknown
1,0,os,1,100.00,1,100.00,0,0.00,0,0,0,,,Unknown
0,,browsers,1,100.00,1,100.00,0,0.00,0,0,0,,,Others
1,0,browsers,1,100.00,1,100.00,0,0.00,0,0,0,,,curl/8.0
0,,visit_times,1,100.00,1,100.00,0,0.00,0,0,0,,,00
0,,status_codes,1,100.00,1,100.00,0,0.00,0,0,0,,,2xx Success
1,0,status_codes,1,100.00,1,100.00,0,0.00,0,0,0,,,200

=====
JSON objects with members in any order, and what is none
-----
--log-format={\"ip\":\"%h\",\"t\":\"%d:%t %^\",\"req\":{\"m\":\"%m\",\"u\":\"%U\"},\"st\":\"%s\",\"ua\":[\"%u\"]}|-o|csv|a.log
-----
{\"ip\":\"192.0.2.9\",\"ua\":[\"Foo \\\"x\\\"\\u00e9\",\"y\"],\"req\":{\"u\":\"\\/b?c\",\"m\":\"GET\",\"more\":null},\"st\":404.0,\"t\":\"01/Jan/2024:00:00:00 +0000\",\"ip\":\"192.0.2.2\"}
{\"ip\":\"192.0.2.3\",\"t\":\"01/Jan/2024:00:00:00 +0000\",\"req\":{\"m\":null,\"u\":\"/c\"},\"ua\":[]}
{\"ip\":\"192.0.2.4\",\"t\":\"01/Jan/2024:00:00:00 +0000\",\"req\":[{\"u\":\"/d\"}]}
{\"ip\":\"192.0.2.5\",\"t\":\"01/Jan/2024:00:00:00 +0000\",\"req\":{\"u\":\"/e\"},\"st\":\"600\"}
{\"ip\":\"192.0.2.6\",\"t\":\"01/Jan/2024:00:00:00 +0000\",\"req\":{\"u\":\"/f\"},\"n\":1e400}
[\"192.0.2.7\"]

-----
0
id,parent_id,panel,hits,hits%,visitors,visitors%,bytes,bytes%,avgts,cumts,maxts,method,protocol,data
0,,general,6,,,,,,,,,,,total_requests
1,,general,2,,,,,,,,,,,valid_requests
2,,general,4,,,,,,,,,,,failed_requests
3,,general,0,,,,,,,,,,,excluded_hits
4,,general,2,,,,,,,,,,,unique_visitors
5,,general,0,,,,,,,,,,,bandwidth
0,,visitors,2,100.00,2,100.00,0,0.00,0,0,0,,,20240101
0,,requests,1,50.00,1,50.00,0,0.00,0,0,0,GET,,/b?c
1,,requests,1,50.00,1,50.00,0,0.00,0,0,0,,,/c
0,,hosts,1,50.00,1,50.00,0,0.00,0,0,0,,,192.0.2.2
1,,hosts,1,50.00,1,50.00,0,0.00,0,0,0,,,192.0.2.3
0,,os,1,50.00,1,50.00,0,0.00,0,0,0,,,Unknown
1,0,os,1,50.00,1,50.00,0,0.00,0,0,0,,,Unknown
0,,browsers,1,50.00,1,50.00,0,0.00,0,0,0,,,Unknown
1,0,browsers,1,50.00,1,50.00,0,0.00,0,0,0,,,Unknown
0,,visit_times,2,100.00,2,100.00,0,0.00,0,0,0,,,00

=====
an agent with quotes
-----
--log-format=COMBINED|-o|csv|a.log
-----
192.0.2.1 - - [01/Jan/2024:00:00:00 +0000] \"GET /a HTTP/1.1\" 200 5 \"-\" \"Foo \\\"bar\\\" Baz\"

-----
0
id,parent_id,panel,hits,hits%,visitors,visitors%,bytes,bytes%,avgts,cumts,maxts,method,protocol,data
0,,general,1,,,,,,,,,,,total_requests
1,,general,1,,,,,,,,,,,valid_requests
2,,general,0,,,,,,,,,,,failed_requests
3,,general,0,,,,,,,,,,,excluded_hits
4,,general,1,,,,,,,,,,,unique_visitors
5,,general,5,,,,,,,,,,,bandwidth
0,,visitors,1,100.00,1,100.00,5,100.00,0,0,0,,,20240101
0,,requests,1,100.00,1,100.00,5,100.00,0,0,0,GET,HTTP/1.1,/a
0,,hosts,1,100.00,1,100.00,5,100.00,0,0,0,,,192.0.2.1
0,,os,1,100.00,1,100.00,5,100.00,0,0,0,,,Unknown
1,0,os,1,100.00,1,100.00,5,100.00,0,0,0,,,Unknown
0,,browsers,1,100.00,1,100.00,5,100.00,0,0,0,,,Unknown
1,0,browsers,1,100.00,1,100.00,5,100.00,0,0,0,,,Unknown
0,,visit_times,1,100.00,1,100.00,5,100.00,0,0,0,,,00
0,,status_codes,1,100.00,1,100.00,5,100.00,0,0,0,,,2xx Success
1,0,status_codes,1,100.00,1,100.00,5,100.00,0,0,0,,,200

=====
a request that is a dash
-----
--log-format=COMMON|a.log
-----
192.0.2.1 - - [01/Jan/2024:00:00:00 +0000] \"-\" 408 -

-----
0
{\"browsers\":{\"data\":[]},\"cache_status\":{\"data\":[]},\"general\":{\"bandwidth\":0,\"excluded_hits\":0,\"failed_requests\":0,\"total_requests\":1,\"unique_visitors\":0,\"valid_requests\":1},\"hosts\":{\"data\":[{\"avgts\":0,\"bytes\":{\"count\":0,\"percent\":\"0.00\"},\"cumts\":0,\"data\":\"192.0.2.1\",\"hits\":{\"count\":1,\"percent\":\"100.00\"},\"maxts\":0,\"visitors\":{\"count\":0,\"percent\":\"0.00\"}}]},\"keyphrases\":{\"data\":[]},\"mime_type\":{\"data\":[]},\"not_found\":{\"data\":[]},\"os\":{\"data\":[]},\"referrers\":{\"data\":[]},\"referring_sites\":{\"data\":[]},\"remote_user\":{\"data\":[]},\"requests\":{\"data\":[{\"avgts\":0,\"bytes\":{\"count\":0,\"percent\":\"0.00\"},\"cumts\":0,\"data\":\"-\",\"hits\":{\"count\":1,\"percent\":\"100.00\"},\"maxts\":0,\"visitors\":{\"count\":0,\"percent\":\"0.00\"}}]},\"requests_static\":{\"data\":[]},\"status_codes\":{\"data\":[{\"avgts\":0,\"bytes\":{\"count\":0,\"percent\":\"0.00\"},\"cumts\":0,\"data\":\"4xx Client Errors\",\"hits\":{\"count\":1,\"percent\":\"100.00\"},\"items\":[{\"avgts\":0,\"bytes\":{\"count\":0,\"percent\":\"0.00\"},\"cumts\":0,\"data\":\"408\",\"hits\":{\"count\":1,\"percent\":\"100.00\"},\"maxts\":0,\"visitors\":{\"count\":0,\"percent\":\"0.00\"}}],\"maxts\":0,\"visitors\":{\"count\":0,\"percent\":\"0.00\"}}]},\"tls_type\":{\"data\":[]},\"virtual_hosts\":{\"data\":[]},\"visit_times\":{\"data\":[{\"avgts\":0,\"bytes\":{\"count\":0,\"percent\":\"0.00\"},\"cumts\":0,\"data\":\"00\",\"hits\":{\"count\":1,\"percent\":\"100.00\"},\"maxts\":0,\"visitors\":{\"count\":0,\"percent\":\"0.00\"}}]},\"visitors\":{\"data\":[{\"avgts\":0,\"bytes\":{\"count\":0,\"percent\":\"0.00\"},\"cumts\":0,\"data\":\"20240101\",\"hits\":{\"count\":1,\"percent\":\"100.00\"},\"maxts\":0,\"visitors\":{\"count\":0,\"percent\":\"0.00\"}}]}}

=====
a comma in a URL
-----
--log-format=COMMON|-o|csv|a.log
-----
192.0.2.1 - - [01/Jan/2024:00:00:00 +0000] \"GET /a,b HTTP/1.1\" 200 1

-----
0
id,parent_id,panel,hits,hits%,visitors,visitors%,bytes,bytes%,avgts,cumts,maxts,method,protocol,data
0,,general,1,,,,,,,,,,,total_requests
1,,general,1,,,,,,,,,,,valid_requests
2,,general,0,,,,,,,,,,,failed_requests
3,,general,0,,,,,,,,,,,excluded_hits
4,,general,1,,,,,,,,,,,unique_visitors
5,,general,1,,,,,,,,,,,bandwidth
0,,visitors,1,100.00,1,100.00,1,100.00,0,0,0,,,20240101
0,,requests,1,100.00,1,100.00,1,100.00,0,0,0,GET,HTTP/1.1,\"/a,b\"
0,,hosts,1,100.00,1,100.00,1,100.00,0,0,0,,,192.0.2.1
0,,visit_times,1,100.00,1,100.00,1,100.00,0,0,0,,,00
0,,status_codes,1,100.00,1,100.00,1,100.00,0,0,0,,,2xx Success
1,0,status_codes,1,100.00,1,100.00,1,100.00,0,0,0,,,200

=====
a name with all that CSV quotes
-----
--log-format=COMMON|-o|csv|a.log
-----
192.0.2.1 - - [01/Jan/2024:00:00:00 +0000] \"GET /%22a,b%0D%00%C3%A9%22?\\%09%0A%08%0C%1F%7F/ HTTP/1.1\" 200 10

-----
0
id,parent_id,panel,hits,hits%,visitors,visitors%,bytes,bytes%,avgts,cumts,maxts,method,protocol,data
0,,general,1,,,,,,,,,,,total_requests
1,,general,1,,,,,,,,,,,valid_requests
2,,general,0,,,,,,,,,,,failed_requests
3,,general,0,,,,,,,,,,,excluded_hits
4,,general,1,,,,,,,,,,,unique_visitors
5,,general,10,,,,,,,,,,,bandwidth
0,,visitors,1,100.00,1,100.00,10,100.00,0,0,0,,,20240101
0,,requests,1,100.00,1,100.00,10,100.00,0,0,0,GET,HTTP/1.1,\"/\"\"a,b\r\0\u{e9}\"\"?\\\t
\x08\x0c\x1f\x7f/\"
0,,hosts,1,100.00,1,100.00,10,100.00,0,0,0,,,192.0.2.1
0,,visit_times,1,100.00,1,100.00,10,100.00,0,0,0,,,00
0,,status_codes,1,100.00,1,100.00,10,100.00,0,0,0,,,2xx Success
1,0,status_codes,1,100.00,1,100.00,10,100.00,0,0,0,,,200

=====
a name with all that JSON escapes
-----
--log-format=COMMON|-o|r.json|a.log
-----
192.0.2.1 - - [01/Jan/2024:00:00:00 +0000] \"GET /%22a,b%0D%00%C3%A9%22?\\%09%0A%08%0C%1F%7F/ HTTP/1.1\" 200 10

-----
0
{\"browsers\":{\"data\":[]},\"cache_status\":{\"data\":[]},\"general\":{\"bandwidth\":10,\"excluded_hits\":0,\"failed_requests\":0,\"total_requests\":1,\"unique_visitors\":1,\"valid_requests\":1},\"hosts\":{\"data\":[{\"avgts\":0,\"bytes\":{\"count\":10,\"percent\":\"100.00\"},\"cumts\":0,\"data\":\"192.0.2.1\",\"hits\":{\"count\":1,\"percent\":\"100.00\"},\"maxts\":0,\"visitors\":{\"count\":1,\"percent\":\"100.00\"}}]},\"keyphrases\":{\"data\":[]},\"mime_type\":{\"data\":[]},\"not_found\":{\"data\":[]},\"os\":{\"data\":[]},\"referrers\":{\"data\":[]},\"referring_sites\":{\"data\":[]},\"remote_user\":{\"data\":[]},\"requests\":{\"data\":[{\"avgts\":0,\"bytes\":{\"count\":10,\"percent\":\"100.00\"},\"cumts\":0,\"data\":\"/\\\"a,b\\r\\u0000\u{e9}\\\"?\\\\\\t\\n\\b\\f\\u001f\x7f/\",\"hits\":{\"count\":1,\"percent\":\"100.00\"},\"maxts\":0,\"method\":\"GET\",\"protocol\":\"HTTP/1.1\",\"visitors\":{\"count\":1,\"percent\":\"100.00\"}}]},\"requests_static\":{\"data\":[]},\"status_codes\":{\"data\":[{\"avgts\":0,\"bytes\":{\"count\":10,\"percent\":\"100.00\"},\"cumts\":0,\"data\":\"2xx Success\",\"hits\":{\"count\":1,\"percent\":\"100.00\"},\"items\":[{\"avgts\":0,\"bytes\":{\"count\":10,\"percent\":\"100.00\"},\"cumts\":0,\"data\":\"200\",\"hits\":{\"count\":1,\"percent\":\"100.00\"},\"maxts\":0,\"visitors\":{\"count\":1,\"percent\":\"100.00\"}}],\"maxts\":0,\"visitors\":{\"count\":1,\"percent\":\"100.00\"}}]},\"tls_type\":{\"data\":[]},\"virtual_hosts\":{\"data\":[]},\"visit_times\":{\"data\":[{\"avgts\":0,\"bytes\":{\"count\":10,\"percent\":\"100.00\"},\"cumts\":0,\"data\":\"00\",\"hits\":{\"count\":1,\"percent\":\"100.00\"},\"maxts\":0,\"visitors\":{\"count\":1,\"percent\":\"100.00\"}}]},\"visitors\":{\"data\":[{\"avgts\":0,\"bytes\":{\"count\":10,\"percent\":\"100.00\"},\"cumts\":0,\"data\":\"20240101\",\"hits\":{\"count\":1,\"percent\":\"100.00\"},\"maxts\":0,\"visitors\":{\"count\":1,\"percent\":\"100.00\"}}]}}

=====
seconds that an answer took
-----
--log-format=%h %^[%d:%t %^] \"%r\" %s %b %T|-o|csv|a.log
-----
192.0.2.1 - - [01/Jan/2024:00:00:00 +0000] \"GET /a HTTP/1.1\" 200 10 0.1234567
192.0.2.1 - - [01/Jan/2024:00:00:00 +0000] \"GET /a HTTP/1.1\" 200 10 -
192.0.2.1 - - [01/Jan/2024:00:00:00 +0000] \"GET /a HTTP/1.1\" 200 10 1000000000000
192.0.2.1 - - [01/Jan/2024:00:00:00 +0000] \"GET /a HTTP/1.1\" 200 10 1000000000001

-----
0
id,parent_id,panel,hits,hits%,visitors,visitors%,bytes,bytes%,avgts,cumts,maxts,method,protocol,data
0,,general,4,,,,,,,,,,,total_requests
1,,general,3,,,,,,,,,,,valid_requests
2,,general,1,,,,,,,,,,,failed_requests
3,,general,0,,,,,,,,,,,excluded_hits
4,,general,1,,,,,,,,,,,unique_visitors
5,,general,30,,,,,,,,,,,bandwidth
0,,visitors,3,100.00,1,100.00,30,100.00,333333333333374485,1000000000000123456,1000000000000000000,,,20240101
0,,requests,3,100.00,1,100.00,30,100.00,333333333333374485,1000000000000123456,1000000000000000000,GET,HTTP/1.1,/a
0,,hosts,3,100.00,1,100.00,30,100.00,333333333333374485,1000000000000123456,1000000000000000000,,,192.0.2.1
0,,visit_times,3,100.00,1,100.00,30,100.00,333333333333374485,1000000000000123456,1000000000000000000,,,00
0,,status_codes,3,100.00,1,100.00,30,100.00,333333333333374485,1000000000000123456,1000000000000000000,,,2xx Success
1,0,status_codes,3,100.00,1,100.00,30,100.00,333333333333374485,1000000000000123456,1000000000000000000,,,200

=====
milliseconds before microseconds
-----
--log-format=%h %^[%d:%t %^] \"%r\" %s %b %L %D|-o|json|a.log
-----
192.0.2.1 - - [01/Jan/2024:00:00:00 +0000] \"GET /a HTTP/1.1\" 200 10 1.5 9
192.0.2.1 - - [01/Jan/2024:00:00:00 +0000] \"GET /a HTTP/1.1\" 200 10 17 9

-----
0
{\"browsers\":{\"data\":[]},\"cache_status\":{\"data\":[]},\"general\":{\"bandwidth\":20,\"excluded_hits\":0,\"failed_requests\":0,\"total_requests\":2,\"unique_visitors\":1,\"valid_requests\":2},\"hosts\":{\"data\":[{\"avgts\":9250,\"bytes\":{\"count\":20,\"percent\":\"100.00\"},\"cumts\":18500,\"data\":\"192.0.2.1\",\"hits\":{\"count\":2,\"percent\":\"100.00\"},\"maxts\":17000,\"visitors\":{\"count\":1,\"percent\":\"100.00\"}}]},\"keyphrases\":{\"data\":[]},\"mime_type\":{\"data\":[]},\"not_found\":{\"data\":[]},\"os\":{\"data\":[]},\"referrers\":{\"data\":[]},\"referring_sites\":{\"data\":[]},\"remote_user\":{\"data\":[]},\"requests\":{\"data\":[{\"avgts\":9250,\"bytes\":{\"count\":20,\"percent\":\"100.00\"},\"cumts\":18500,\"data\":\"/a\",\"hits\":{\"count\":2,\"percent\":\"100.00\"},\"maxts\":17000,\"method\":\"GET\",\"protocol\":\"HTTP/1.1\",\"visitors\":{\"count\":1,\"percent\":\"100.00\"}}]},\"requests_static\":{\"data\":[]},\"status_codes\":{\"data\":[{\"avgts\":9250,\"bytes\":{\"count\":20,\"percent\":\"100.00\"},\"cumts\":18500,\"data\":\"2xx Success\",\"hits\":{\"count\":2,\"percent\":\"100.00\"},\"items\":[{\"avgts\":9250,\"bytes\":{\"count\":20,\"percent\":\"100.00\"},\"cumts\":18500,\"data\":\"200\",\"hits\":{\"count\":2,\"percent\":\"100.00\"},\"maxts\":17000,\"visitors\":{\"count\":1,\"percent\":\"100.00\"}}],\"maxts\":17000,\"visitors\":{\"count\":1,\"percent\":\"100.00\"}}]},\"tls_type\":{\"data\":[]},\"virtual_hosts\":{\"data\":[]},\"visit_times\":{\"data\":[{\"avgts\":9250,\"bytes\":{\"count\":20,\"percent\":\"100.00\"},\"cumts\":18500,\"data\":\"00\",\"hits\":{\"count\":2,\"percent\":\"100.00\"},\"maxts\":17000,\"visitors\":{\"count\":1,\"percent\":\"100.00\"}}]},\"visitors\":{\"data\":[{\"avgts\":9250,\"bytes\":{\"count\":20,\"percent\":\"100.00\"},\"cumts\":18500,\"data\":\"20240101\",\"hits\":{\"count\":2,\"percent\":\"100.00\"},\"maxts\":17000,\"visitors\":{\"count\":1,\"percent\":\"100.00\"}}]}}

=====
forwarded hosts
-----
--log-format=~h{, }\" [%d:%t %^] \"%r\" %s %b %D|-o|csv|a.log
-----
unknown, 192.0.2.7, 2001:db8::7\" [01/Jan/2024:08:00:00 +0000] \"GET /a HTTP/2\" 200 10 17
x\\\" 10.0.0.1\" [01/Jan/2024:09:00:00 +0000] \"GET /b HTTP/2\" 200 5 3
192.0.2.7\" [01/Jan/2024:10:00:00 +0000] \"GET /c HTTP/2\" 200 5 -
unknown, 192.0.2\" [01/Jan/2024:08:00:00 +0000] \"GET /d HTTP/2\" 200 10 17

-----
0
id,parent_id,panel,hits,hits%,visitors,visitors%,bytes,bytes%,avgts,cumts,maxts,method,protocol,data
0,,general,4,,,,,,,,,,,total_requests
1,,general,3,,,,,,,,,,,valid_requests
2,,general,1,,,,,,,,,,,failed_requests
3,,general,0,,,,,,,,,,,excluded_hits
4,,general,2,,,,,,,,,,,unique_visitors
5,,general,20,,,,,,,,,,,bandwidth
0,,visitors,3,100.00,2,100.00,20,100.00,6,20,17,,,20240101
0,,requests,1,33.33,1,50.00,10,50.00,17,17,17,GET,HTTP/2,/a
1,,requests,1,33.33,1,50.00,5,25.00,3,3,3,GET,HTTP/2,/b
2,,requests,1,33.33,1,50.00,5,25.00,0,0,0,GET,HTTP/2,/c
0,,hosts,2,66.67,1,50.00,15,75.00,8,17,17,,,192.0.2.7
1,,hosts,1,33.33,1,50.00,5,25.00,3,3,3,,,10.0.0.1
0,,visit_times,1,33.33,1,50.00,10,50.00,17,17,17,,,08
1,,visit_times,1,33.33,1,50.00,5,25.00,3,3,3,,,09
2,,visit_times,1,33.33,1,50.00,5,25.00,0,0,0,,,10
0,,status_codes,3,100.00,2,100.00,20,100.00,6,20,17,,,2xx Success
1,0,status_codes,3,100.00,2,100.00,20,100.00,6,20,17,,,200

=====
a chain of forwarded hosts
-----
--log-format=~h{, } %^[%d:%t %^] \"%r\" %s %b|-o|csv|a.log
-----
10.0.0.1, 192.0.2.7 - [01/Jan/2024:00:00:00 +0000] \"GET / HTTP/1.0\" 200 0

-----
0
id,parent_id,panel,hits,hits%,visitors,visitors%,bytes,bytes%,avgts,cumts,maxts,method,protocol,data
0,,general,1,,,,,,,,,,,total_requests
1,,general,1,,,,,,,,,,,valid_requests
2,,general,0,,,,,,,,,,,failed_requests
3,,general,0,,,,,,,,,,,excluded_hits
4,,general,1,,,,,,,,,,,unique_visitors
5,,general,0,,,,,,,,,,,bandwidth
0,,visitors,1,100.00,1,100.00,0,0.00,0,0,0,,,20240101
0,,requests,1,100.00,1,100.00,0,0.00,0,0,0,GET,HTTP/1.0,/
0,,hosts,1,100.00,1,100.00,0,0.00,0,0,0,,,10.0.0.1
0,,visit_times,1,100.00,1,100.00,0,0.00,0,0,0,,,00
0,,status_codes,1,100.00,1,100.00,0,0.00,0,0,0,,,2xx Success
1,0,status_codes,1,100.00,1,100.00,0,0.00,0,0,0,,,200

=====
another date and another time format
-----
--log-format=COMMON|--date-format=%F|--time-format=%R|-o|r.csv|a.log
-----
192.0.2.1 - - [2024-01-01:13:05 z] \"GET /b HTTP/1.0\" 200 7
192.0.2.1 - - [01/Jan/2024:00:00:00 +0000] \"GET /a HTTP/1.1\" 200 10

-----
0
id,parent_id,panel,hits,hits%,visitors,visitors%,bytes,bytes%,avgts,cumts,maxts,method,protocol,data
0,,general,2,,,,,,,,,,,total_requests
1,,general,1,,,,,,,,,,,valid_requests
2,,general,1,,,,,,,,,,,failed_requests
3,,general,0,,,,,,,,,,,excluded_hits
4,,general,1,,,,,,,,,,,unique_visitors
5,,general,7,,,,,,,,,,,bandwidth
0,,visitors,1,100.00,1,100.00,7,100.00,0,0,0,,,20240101
0,,requests,1,100.00,1,100.00,7,100.00,0,0,0,GET,HTTP/1.0,/b
0,,hosts,1,100.00,1,100.00,7,100.00,0,0,0,,,192.0.2.1
0,,visit_times,1,100.00,1,100.00,7,100.00,0,0,0,,,13
0,,status_codes,1,100.00,1,100.00,7,100.00,0,0,0,,,2xx Success
1,0,status_codes,1,100.00,1,100.00,7,100.00,0,0,0,,,200

=====
visitors of answers 400 to 499
-----
--4xx-to-unique-count|--log-format=COMMON|-o|csv|a.log
-----
192.0.2.1 - - [01/Jan/2024:00:00:00 +0000] \"GET /x HTTP/1.1\" 404 5
192.0.2.1 - - [01/Jan/2024:00:00:00 +0000] \"GET /a HTTP/1.1\" 200 10

-----
0
id,parent_id,panel,hits,hits%,visitors,visitors%,bytes,bytes%,avgts,cumts,maxts,method,protocol,data
0,,general,2,,,,,,,,,,,total_requests
1,,general,2,,,,,,,,,,,valid_requests
2,,general,0,,,,,,,,,,,failed_requests
3,,general,0,,,,,,,,,,,excluded_hits
4,,general,1,,,,,,,,,,,unique_visitors
5,,general,15,,,,,,,,,,,bandwidth
0,,visitors,2,100.00,1,100.00,15,100.00,0,0,0,,,20240101
0,,requests,1,50.00,1,100.00,10,66.67,0,0,0,GET,HTTP/1.1,/a
0,,not_found,1,50.00,1,100.00,5,33.33,0,0,0,GET,HTTP/1.1,/x
0,,hosts,2,100.00,1,100.00,15,100.00,0,0,0,,,192.0.2.1
0,,visit_times,2,100.00,1,100.00,15,100.00,0,0,0,,,00
0,,status_codes,1,50.00,1,100.00,10,66.67,0,0,0,,,2xx Success
1,0,status_codes,1,50.00,1,100.00,10,66.67,0,0,0,,,200
2,,status_codes,1,50.00,1,100.00,5,33.33,0,0,0,,,4xx Client Errors
3,2,status_codes,1,50.00,1,100.00,5,33.33,0,0,0,,,404

=====
no visitors of answers 400 to 499
-----
--log-format=COMMON|-o|csv|a.log
-----
192.0.2.1 - - [01/Jan/2024:00:00:00 +0000] \"GET /x HTTP/1.1\" 404 5
192.0.2.1 - - [01/Jan/2024:00:00:00 +0000] \"GET /a HTTP/1.1\" 200 10

-----
0
id,parent_id,panel,hits,hits%,visitors,visitors%,bytes,bytes%,avgts,cumts,maxts,method,protocol,data
0,,general,2,,,,,,,,,,,total_requests
1,,general,2,,,,,,,,,,,valid_requests
2,,general,0,,,,,,,,,,,failed_requests
3,,general,0,,,,,,,,,,,excluded_hits
4,,general,1,,,,,,,,,,,unique_visitors
5,,general,15,,,,,,,,,,,bandwidth
0,,visitors,2,100.00,1,100.00,15,100.00,0,0,0,,,20240101
0,,requests,1,50.00,1,100.00,10,66.67,0,0,0,GET,HTTP/1.1,/a
0,,not_found,1,50.00,0,0.00,5,33.33,0,0,0,GET,HTTP/1.1,/x
0,,hosts,2,100.00,1,100.00,15,100.00,0,0,0,,,192.0.2.1
0,,visit_times,2,100.00,1,100.00,15,100.00,0,0,0,,,00
0,,status_codes,1,50.00,1,100.00,10,66.67,0,0,0,,,2xx Success
1,0,status_codes,1,50.00,1,100.00,10,66.67,0,0,0,,,200
2,,status_codes,1,50.00,0,0.00,5,33.33,0,0,0,,,4xx Client Errors
3,2,status_codes,1,50.00,0,0.00,5,33.33,0,0,0,,,404

=====
static files with a query
-----
--all-static-files|--log-format=COMMON|-o|csv|a.log
-----
192.0.2.1 - - [01/Jan/2024:00:00:00 +0000] \"GET /a.css?v=1 HTTP/1.1\" 200 10

-----
0
id,parent_id,panel,hits,hits%,visitors,visitors%,bytes,bytes%,avgts,cumts,maxts,method,protocol,data
0,,general,1,,,,,,,,,,,total_requests
1,,general,1,,,,,,,,,,,valid_requests
2,,general,0,,,,,,,,,,,failed_requests
3,,general,0,,,,,,,,,,,excluded_hits
4,,general,1,,,,,,,,,,,unique_visitors
5,,general,10,,,,,,,,,,,bandwidth
0,,visitors,1,100.00,1,100.00,10,100.00,0,0,0,,,20240101
0,,requests_static,1,100.00,1,100.00,10,100.00,0,0,0,GET,HTTP/1.1,/a.css?v=1
0,,hosts,1,100.00,1,100.00,10,100.00,0,0,0,,,192.0.2.1
0,,visit_times,1,100.00,1,100.00,10,100.00,0,0,0,,,00
0,,status_codes,1,100.00,1,100.00,10,100.00,0,0,0,,,2xx Success
1,0,status_codes,1,100.00,1,100.00,10,100.00,0,0,0,,,200

=====
queries that are cut off
-----
--no-query-string|--log-format=COMMON|-o|csv|a.log
-----
192.0.2.1 - - [01/Jan/2024:00:00:00 +0000] \"GET /a.css?v=1 HTTP/1.1\" 200 10
192.0.2.1 - - [01/Jan/2024:00:00:00 +0000] \"GET ?x HTTP/1.1\" 200 10

-----
0
id,parent_id,panel,hits,hits%,visitors,visitors%,bytes,bytes%,avgts,cumts,maxts,method,protocol,data
0,,general,2,,,,,,,,,,,total_requests
1,,general,2,,,,,,,,,,,valid_requests
2,,general,0,,,,,,,,,,,failed_requests
3,,general,0,,,,,,,,,,,excluded_hits
4,,general,1,,,,,,,,,,,unique_visitors
5,,general,20,,,,,,,,,,,bandwidth
0,,visitors,2,100.00,1,100.00,20,100.00,0,0,0,,,20240101
0,,requests,1,50.00,1,100.00,10,50.00,0,0,0,GET,HTTP/1.1,
0,,requests_static,1,50.00,1,100.00,10,50.00,0,0,0,GET,HTTP/1.1,/a.css
0,,hosts,2,100.00,1,100.00,20,100.00,0,0,0,,,192.0.2.1
0,,visit_times,2,100.00,1,100.00,20,100.00,0,0,0,,,00
0,,status_codes,2,100.00,1,100.00,20,100.00,0,0,0,,,2xx Success
1,0,status_codes,2,100.00,1,100.00,20,100.00,0,0,0,,,200

=====
URLs that are decoded twice
-----
--double-decode-url|--ignore-panel=VISITORS|--ignore-panel=NOT_FOUND|--ignore-panel=HOSTS|--ignore-panel=OS|--ignore-panel=BROWSERS|--ignore-panel=VISIT_TIMES|--ignore-panel=VIRTUAL_HOSTS|--ignore-panel=REFERRERS|--ignore-panel=REFERRING_SITES|--ignore-panel=KEYPHRASES|--ignore-panel=STATUS_CODES|--ignore-panel=REMOTE_USER|--ignore-panel=CACHE_STATUS|--ignore-panel=MIME_TYPE|--ignore-panel=TLS_TYPE|--log-format=COMMON|-o|csv|a.log
-----
192.0.2.1 - - [01/Jan/2024:00:00:00 +0000] \"GET /%2541 HTTP/1.1\" 200 10
192.0.2.1 - - [01/Jan/2024:00:00:00 +0000] \"GET /b%252Ecss HTTP/1.1\" 200 10
192.0.2.1 - - [01/Jan/2024:00:00:00 +0000] \"GET /c%253Fx.css HTTP/1.1\" 200 10

-----
0
id,parent_id,panel,hits,hits%,visitors,visitors%,bytes,bytes%,avgts,cumts,maxts,method,protocol,data
0,,general,3,,,,,,,,,,,total_requests
1,,general,3,,,,,,,,,,,valid_requests
2,,general,0,,,,,,,,,,,failed_requests
3,,general,0,,,,,,,,,,,excluded_hits
4,,general,1,,,,,,,,,,,unique_visitors
5,,general,30,,,,,,,,,,,bandwidth
0,,requests,1,33.33,1,100.00,10,33.33,0,0,0,GET,HTTP/1.1,/A
1,,requests,1,33.33,1,100.00,10,33.33,0,0,0,GET,HTTP/1.1,/c?x.css
0,,requests_static,1,33.33,1,100.00,10,33.33,0,0,0,GET,HTTP/1.1,/b.css

=====
status 444 as not found
-----
--ignore-panel=VISITORS|--ignore-panel=REQUESTS_STATIC|--ignore-panel=HOSTS|--ignore-panel=OS|--ignore-panel=BROWSERS|--ignore-panel=VISIT_TIMES|--ignore-panel=VIRTUAL_HOSTS|--ignore-panel=REFERRERS|--ignore-panel=REFERRING_SITES|--ignore-panel=KEYPHRASES|--ignore-panel=REMOTE_USER|--ignore-panel=CACHE_STATUS|--ignore-panel=MIME_TYPE|--ignore-panel=TLS_TYPE|--444-as-404|--log-format=COMMON|-o|csv|a.log
-----
192.0.2.1 - - [01/Jan/2024:00:00:00 +0000] \"GET /x HTTP/1.1\" 444 1
192.0.2.1 - - [01/Jan/2024:00:00:00 +0000] \"GET /y HTTP/1.1\" 404 2

-----
0
id,parent_id,panel,hits,hits%,visitors,visitors%,bytes,bytes%,avgts,cumts,maxts,method,protocol,data
0,,general,2,,,,,,,,,,,total_requests
1,,general,2,,,,,,,,,,,valid_requests
2,,general,0,,,,,,,,,,,failed_requests
3,,general,0,,,,,,,,,,,excluded_hits
4,,general,0,,,,,,,,,,,unique_visitors
5,,general,3,,,,,,,,,,,bandwidth
0,,not_found,1,50.00,0,0.00,1,33.33,0,0,0,GET,HTTP/1.1,/x
1,,not_found,1,50.00,0,0.00,2,66.67,0,0,0,GET,HTTP/1.1,/y
0,,status_codes,2,100.00,0,0.00,3,100.00,0,0,0,,,4xx Client Errors
1,0,status_codes,1,50.00,0,0.00,2,66.67,0,0,0,,,404
2,0,status_codes,1,50.00,0,0.00,1,33.33,0,0,0,,,444

=====
status 444 as any other
-----
--ignore-panel=VISITORS|--ignore-panel=REQUESTS_STATIC|--ignore-panel=HOSTS|--ignore-panel=OS|--ignore-panel=BROWSERS|--ignore-panel=VISIT_TIMES|--ignore-panel=VIRTUAL_HOSTS|--ignore-panel=REFERRERS|--ignore-panel=REFERRING_SITES|--ignore-panel=KEYPHRASES|--ignore-panel=REMOTE_USER|--ignore-panel=CACHE_STATUS|--ignore-panel=MIME_TYPE|--ignore-panel=TLS_TYPE|--log-format=COMMON|-o|csv|a.log
-----
192.0.2.1 - - [01/Jan/2024:00:00:00 +0000] \"GET /x HTTP/1.1\" 444 1
192.0.2.1 - - [01/Jan/2024:00:00:00 +0000] \"GET /y HTTP/1.1\" 404 2

-----
0
id,parent_id,panel,hits,hits%,visitors,visitors%,bytes,bytes%,avgts,cumts,maxts,method,protocol,data
0,,general,2,,,,,,,,,,,total_requests
1,,general,2,,,,,,,,,,,valid_requests
2,,general,0,,,,,,,,,,,failed_requests
3,,general,0,,,,,,,,,,,excluded_hits
4,,general,0,,,,,,,,,,,unique_visitors
5,,general,3,,,,,,,,,,,bandwidth
0,,requests,1,50.00,0,0.00,1,33.33,0,0,0,GET,HTTP/1.1,/x
0,,not_found,1,50.00,0,0.00,2,66.67,0,0,0,GET,HTTP/1.1,/y
0,,status_codes,2,100.00,0,0.00,3,100.00,0,0,0,,,4xx Client Errors
1,0,status_codes,1,50.00,0,0.00,2,66.67,0,0,0,,,404
2,0,status_codes,1,50.00,0,0.00,1,33.33,0,0,0,,,444

=====
one row a panel
-----
--max-items=1|--log-format=COMMON|-o|csv|a.log
-----
192.0.2.1 - - [01/Jan/2024:00:00:00 +0000] \"GET /a HTTP/1.1\" 200 10
192.0.2.1 - - [01/Jan/2024:00:00:00 +0000] \"GET /x HTTP/1.1\" 404 5
192.0.2.2 - - [01/Jan/2024:00:00:00 +0000] \"GET /b.css HTTP/1.1\" 304 -
192.0.2.1 - - [02/Jan/2024:23:00:00 +0000] \"POST /a HTTP/1.1\" 500 7

-----
0
id,parent_id,panel,hits,hits%,visitors,visitors%,bytes,bytes%,avgts,cumts,maxts,method,protocol,data
0,,general,4,,,,,,,,,,,total_requests
1,,general,4,,,,,,,,,,,valid_requests
2,,general,0,,,,,,,,,,,failed_requests
3,,general,0,,,,,,,,,,,excluded_hits
4,,general,3,,,,,,,,,,,unique_visitors
5,,general,22,,,,,,,,,,,bandwidth
0,,visitors,1,25.00,1,33.33,7,31.82,0,0,0,,,20240102
0,,requests,1,25.00,1,33.33,10,45.45,0,0,0,GET,HTTP/1.1,/a
0,,requests_static,1,25.00,1,33.33,0,0.00,0,0,0,GET,HTTP/1.1,/b.css
0,,not_found,1,25.00,0,0.00,5,22.73,0,0,0,GET,HTTP/1.1,/x
0,,hosts,3,75.00,2,66.67,22,100.00,0,0,0,,,192.0.2.1
0,,visit_times,3,75.00,2,66.67,15,68.18,0,0,0,,,00
0,,status_codes,1,25.00,1,33.33,10,45.45,0,0,0,,,2xx Success
1,0,status_codes,1,25.00,1,33.33,10,45.45,0,0,0,,,200

=====
two rows a panel, and the order of rows
-----
--max-items|0000000002|--ignore-panel=VISITORS|--ignore-panel=REQUESTS|--ignore-panel=REQUESTS_STATIC|--ignore-panel=NOT_FOUND|--ignore-panel=OS|--ignore-panel=BROWSERS|--ignore-panel=VISIT_TIMES|--ignore-panel=VIRTUAL_HOSTS|--ignore-panel=REFERRERS|--ignore-panel=REFERRING_SITES|--ignore-panel=KEYPHRASES|--ignore-panel=REMOTE_USER|--ignore-panel=CACHE_STATUS|--ignore-panel=MIME_TYPE|--ignore-panel=TLS_TYPE|--log-format=COMMON|-o|json|a.log
-----
192.0.2.3 - - [01/Jan/2024:00:00:00 +0000] \"GET /a HTTP/1.1\" 200 10
192.0.2.20 - - [01/Jan/2024:00:00:00 +0000] \"GET /a HTTP/1.1\" 200 10
192.0.2.100 - - [01/Jan/2024:00:00:00 +0000] \"GET /a HTTP/1.1\" 200 10
192.0.2.1 - - [01/Jan/2024:00:00:00 +0000] \"GET /a HTTP/1.1\" 301 10
192.0.2.1 - - [01/Jan/2024:00:00:00 +0000] \"GET /a HTTP/1.1\" 302 10
192.0.2.1 - - [01/Jan/2024:00:00:00 +0000] \"GET /a HTTP/1.1\" 303 10
192.0.2.1 - - [01/Jan/2024:00:00:00 +0000] \"GET /a HTTP/1.1\" 303 10

-----
0
{\"general\":{\"bandwidth\":70,\"excluded_hits\":0,\"failed_requests\":0,\"total_requests\":7,\"unique_visitors\":4,\"valid_requests\":7},\"hosts\":{\"data\":[{\"avgts\":0,\"bytes\":{\"count\":40,\"percent\":\"57.14\"},\"cumts\":0,\"data\":\"192.0.2.1\",\"hits\":{\"count\":4,\"percent\":\"57.14\"},\"maxts\":0,\"visitors\":{\"count\":1,\"percent\":\"25.00\"}},{\"avgts\":0,\"bytes\":{\"count\":10,\"percent\":\"14.29\"},\"cumts\":0,\"data\":\"192.0.2.100\",\"hits\":{\"count\":1,\"percent\":\"14.29\"},\"maxts\":0,\"visitors\":{\"count\":1,\"percent\":\"25.00\"}}]},\"status_codes\":{\"data\":[{\"avgts\":0,\"bytes\":{\"count\":40,\"percent\":\"57.14\"},\"cumts\":0,\"data\":\"3xx Redirection\",\"hits\":{\"count\":4,\"percent\":\"57.14\"},\"items\":[{\"avgts\":0,\"bytes\":{\"count\":20,\"percent\":\"28.57\"},\"cumts\":0,\"data\":\"303\",\"hits\":{\"count\":2,\"percent\":\"28.57\"},\"maxts\":0,\"visitors\":{\"count\":1,\"percent\":\"25.00\"}},{\"avgts\":0,\"bytes\":{\"count\":10,\"percent\":\"14.29\"},\"cumts\":0,\"data\":\"301\",\"hits\":{\"count\":1,\"percent\":\"14.29\"},\"maxts\":0,\"visitors\":{\"count\":1,\"percent\":\"25.00\"}}],\"maxts\":0,\"visitors\":{\"count\":1,\"percent\":\"25.00\"}},{\"avgts\":0,\"bytes\":{\"count\":30,\"percent\":\"42.86\"},\"cumts\":0,\"data\":\"2xx Success\",\"hits\":{\"count\":3,\"percent\":\"42.86\"},\"items\":[{\"avgts\":0,\"bytes\":{\"count\":30,\"percent\":\"42.86\"},\"cumts\":0,\"data\":\"200\",\"hits\":{\"count\":3,\"percent\":\"42.86\"},\"maxts\":0,\"visitors\":{\"count\":3,\"percent\":\"75.00\"}}],\"maxts\":0,\"visitors\":{\"count\":3,\"percent\":\"75.00\"}}]}}

=====
the last word on a panel shows it
-----
--ignore-panel=HOSTS|--enable-panel=HOSTS|--ignore-panel|VISITORS|--log-format=COMMON|-o|csv|a.log
-----
192.0.2.1 - - [01/Jan/2024:00:00:00 +0000] \"GET /a HTTP/1.1\" 200 10

-----
0
id,parent_id,panel,hits,hits%,visitors,visitors%,bytes,bytes%,avgts,cumts,maxts,method,protocol,data
0,,general,1,,,,,,,,,,,total_requests
1,,general,1,,,,,,,,,,,valid_requests
2,,general,0,,,,,,,,,,,failed_requests
3,,general,0,,,,,,,,,,,excluded_hits
4,,general,1,,,,,,,,,,,unique_visitors
5,,general,10,,,,,,,,,,,bandwidth
0,,requests,1,100.00,1,100.00,10,100.00,0,0,0,GET,HTTP/1.1,/a
0,,hosts,1,100.00,1,100.00,10,100.00,0,0,0,,,192.0.2.1
0,,visit_times,1,100.00,1,100.00,10,100.00,0,0,0,,,00
0,,status_codes,1,100.00,1,100.00,10,100.00,0,0,0,,,2xx Success
1,0,status_codes,1,100.00,1,100.00,10,100.00,0,0,0,,,200

=====
the last word on a panel hides it
-----
--enable-panel=HOSTS|--ignore-panel=HOSTS|--ignore-panel=VISITORS|--ignore-panel=REQUESTS_STATIC|--ignore-panel=NOT_FOUND|--ignore-panel=OS|--ignore-panel=BROWSERS|--ignore-panel=VISIT_TIMES|--ignore-panel=VIRTUAL_HOSTS|--ignore-panel=REFERRERS|--ignore-panel=REFERRING_SITES|--ignore-panel=KEYPHRASES|--ignore-panel=STATUS_CODES|--ignore-panel=REMOTE_USER|--ignore-panel=CACHE_STATUS|--ignore-panel=MIME_TYPE|--ignore-panel=TLS_TYPE|--log-format=COMMON|-o|csv|a.log
-----
192.0.2.1 - - [01/Jan/2024:00:00:00 +0000] \"GET /a HTTP/1.1\" 200 10

-----
0
id,parent_id,panel,hits,hits%,visitors,visitors%,bytes,bytes%,avgts,cumts,maxts,method,protocol,data
0,,general,1,,,,,,,,,,,total_requests
1,,general,1,,,,,,,,,,,valid_requests
2,,general,0,,,,,,,,,,,failed_requests
3,,general,0,,,,,,,,,,,excluded_hits
4,,general,1,,,,,,,,,,,unique_visitors
5,,general,10,,,,,,,,,,,bandwidth
0,,requests,1,100.00,1,100.00,10,100.00,0,0,0,GET,HTTP/1.1,/a

=====
no panel
-----
--ignore-panel=VISITORS|--ignore-panel=REQUESTS|--ignore-panel=REQUESTS_STATIC|--ignore-panel=NOT_FOUND|--ignore-panel=HOSTS|--ignore-panel=OS|--ignore-panel=BROWSERS|--ignore-panel=VISIT_TIMES|--ignore-panel=VIRTUAL_HOSTS|--ignore-panel=REFERRERS|--ignore-panel=REFERRING_SITES|--ignore-panel=KEYPHRASES|--ignore-panel=STATUS_CODES|--ignore-panel=REMOTE_USER|--ignore-panel=CACHE_STATUS|--ignore-panel=MIME_TYPE|--ignore-panel=TLS_TYPE|--log-format=COMMON|-o|json|a.log
-----
192.0.2.1 - - [01/Jan/2024:00:00:00 +0000] \"GET /a HTTP/1.1\" 200 10

-----
0
{\"general\":{\"bandwidth\":10,\"excluded_hits\":0,\"failed_requests\":0,\"total_requests\":1,\"unique_visitors\":1,\"valid_requests\":1}}

=====
addresses and statuses that are excluded
-----
--exclude-ip=192.0.2.1-192.0.2.9|--exclude-ip|2001:db8::5|--ignore-status=500|--ignore-panel=VISITORS|--ignore-panel=REQUESTS|--ignore-panel=REQUESTS_STATIC|--ignore-panel=NOT_FOUND|--ignore-panel=OS|--ignore-panel=BROWSERS|--ignore-panel=VISIT_TIMES|--ignore-panel=VIRTUAL_HOSTS|--ignore-panel=REFERRERS|--ignore-panel=REFERRING_SITES|--ignore-panel=KEYPHRASES|--ignore-panel=STATUS_CODES|--ignore-panel=REMOTE_USER|--ignore-panel=CACHE_STATUS|--ignore-panel=MIME_TYPE|--ignore-panel=TLS_TYPE|--log-format=COMMON|-o|csv|a.log
-----
192.0.2.9 - - [01/Jan/2024:00:00:00 +0000] \"GET /a HTTP/1.1\" 200 10
192.0.2.10 - - [01/Jan/2024:00:00:00 +0000] \"GET /a HTTP/1.1\" 200 10
::ffff:192.0.2.9 - - [01/Jan/2024:00:00:00 +0000] \"GET /a HTTP/1.1\" 200 10
2001:db8:0::0:5 - - [01/Jan/2024:00:00:00 +0000] \"GET /a HTTP/1.1\" 200 10
2001:db8::6 - - [01/Jan/2024:00:00:00 +0000] \"GET /a HTTP/1.1\" 200 10
192.0.2.10 - - [01/Jan/2024:00:00:00 +0000] \"GET /a HTTP/1.1\" 500 10

-----
0
id,parent_id,panel,hits,hits%,visitors,visitors%,bytes,bytes%,avgts,cumts,maxts,method,protocol,data
0,,general,6,,,,,,,,,,,total_requests
1,,general,3,,,,,,,,,,,valid_requests
2,,general,0,,,,,,,,,,,failed_requests
3,,general,3,,,,,,,,,,,excluded_hits
4,,general,3,,,,,,,,,,,unique_visitors
5,,general,30,,,,,,,,,,,bandwidth
0,,hosts,1,33.33,1,33.33,10,33.33,0,0,0,,,192.0.2.10
1,,hosts,1,33.33,1,33.33,10,33.33,0,0,0,,,2001:db8::6
2,,hosts,1,33.33,1,33.33,10,33.33,0,0,0,,,::ffff:192.0.2.9

=====
hosts that are no addresses
-----
--no-ip-validation|--log-format=COMMON|-o|csv|a.log
-----
proxy,1 - - [01/Jan/2024:00:00:00 +0000] \"GET /a HTTP/1.1\" 200 10
- - - [01/Jan/2024:00:00:00 +0000] \"GET /a HTTP/1.1\" 200 10
192.0.2.1 - - [01/Jan/2024:00:00:00 +0000] \"GET /a HTTP/1.1\" 200 10

-----
0
id,parent_id,panel,hits,hits%,visitors,visitors%,bytes,bytes%,avgts,cumts,maxts,method,protocol,data
0,,general,3,,,,,,,,,,,total_requests
1,,general,3,,,,,,,,,,,valid_requests
2,,general,0,,,,,,,,,,,failed_requests
3,,general,0,,,,,,,,,,,excluded_hits
4,,general,3,,,,,,,,,,,unique_visitors
5,,general,30,,,,,,,,,,,bandwidth
0,,visitors,3,100.00,3,100.00,30,100.00,0,0,0,,,20240101
0,,requests,3,100.00,3,100.00,30,100.00,0,0,0,GET,HTTP/1.1,/a
0,,hosts,1,33.33,1,33.33,10,33.33,0,0,0,,,-
1,,hosts,1,33.33,1,33.33,10,33.33,0,0,0,,,192.0.2.1
2,,hosts,1,33.33,1,33.33,10,33.33,0,0,0,,,\"proxy,1\"
0,,visit_times,3,100.00,3,100.00,30,100.00,0,0,0,,,00
0,,status_codes,3,100.00,3,100.00,30,100.00,0,0,0,,,2xx Success
1,0,status_codes,3,100.00,3,100.00,30,100.00,0,0,0,,,200

=====
statuses that are none
-----
--no-strict-status|--ignore-panel=REQUESTS|--ignore-panel=REQUESTS_STATIC|--ignore-panel=NOT_FOUND|--ignore-panel=HOSTS|--ignore-panel=OS|--ignore-panel=BROWSERS|--ignore-panel=VISIT_TIMES|--ignore-panel=VIRTUAL_HOSTS|--ignore-panel=REFERRERS|--ignore-panel=REFERRING_SITES|--ignore-panel=KEYPHRASES|--ignore-panel=REMOTE_USER|--ignore-panel=CACHE_STATUS|--ignore-panel=MIME_TYPE|--ignore-panel=TLS_TYPE|--log-format=COMMON|-o|csv|a.log
-----
192.0.2.1 - - [01/Jan/2024:00:00:00 +0000] \"GET /a HTTP/1.1\" - 10
192.0.2.1 - - [01/Jan/2024:00:00:00 +0000] \"GET /a HTTP/1.1\" 99 10
192.0.2.1 - - [01/Jan/2024:00:00:00 +0000] \"GET /a HTTP/1.1\" 404 10
192.0.2.1 - - [01/Jan/2024:00:00:00 +0000] \"GET /a HTTP/1.1\" 0200 10

-----
0
id,parent_id,panel,hits,hits%,visitors,visitors%,bytes,bytes%,avgts,cumts,maxts,method,protocol,data
0,,general,4,,,,,,,,,,,total_requests
1,,general,4,,,,,,,,,,,valid_requests
2,,general,0,,,,,,,,,,,failed_requests
3,,general,0,,,,,,,,,,,excluded_hits
4,,general,1,,,,,,,,,,,unique_visitors
5,,general,40,,,,,,,,,,,bandwidth
0,,visitors,4,100.00,1,100.00,40,100.00,0,0,0,,,20240101
0,,status_codes,1,25.00,0,0.00,10,25.00,0,0,0,,,4xx Client Errors
1,0,status_codes,1,25.00,0,0.00,10,25.00,0,0,0,,,404

=====
endings of the user's
-----
--static-file=.php|--static-file|.CSS|--ignore-panel=VISITORS|--ignore-panel=NOT_FOUND|--ignore-panel=HOSTS|--ignore-panel=OS|--ignore-panel=BROWSERS|--ignore-panel=VISIT_TIMES|--ignore-panel=VIRTUAL_HOSTS|--ignore-panel=REFERRERS|--ignore-panel=REFERRING_SITES|--ignore-panel=KEYPHRASES|--ignore-panel=STATUS_CODES|--ignore-panel=REMOTE_USER|--ignore-panel=CACHE_STATUS|--ignore-panel=MIME_TYPE|--ignore-panel=TLS_TYPE|--log-format=COMMON|-o|csv|a.log
-----
192.0.2.1 - - [01/Jan/2024:00:00:00 +0000] \"GET /a.php HTTP/1.1\" 200 10
192.0.2.1 - - [01/Jan/2024:00:00:00 +0000] \"GET /a.CSS HTTP/1.1\" 200 10
192.0.2.1 - - [01/Jan/2024:00:00:00 +0000] \"GET /a.Css HTTP/1.1\" 200 10
192.0.2.1 - - [01/Jan/2024:00:00:00 +0000] \"GET /a.php?x HTTP/1.1\" 200 10

-----
0
id,parent_id,panel,hits,hits%,visitors,visitors%,bytes,bytes%,avgts,cumts,maxts,method,protocol,data
0,,general,4,,,,,,,,,,,total_requests
1,,general,4,,,,,,,,,,,valid_requests
2,,general,0,,,,,,,,,,,failed_requests
3,,general,0,,,,,,,,,,,excluded_hits
4,,general,1,,,,,,,,,,,unique_visitors
5,,general,40,,,,,,,,,,,bandwidth
0,,requests,1,25.00,1,100.00,10,25.00,0,0,0,GET,HTTP/1.1,/a.Css
1,,requests,1,25.00,1,100.00,10,25.00,0,0,0,GET,HTTP/1.1,/a.php?x
0,,requests_static,1,25.00,1,100.00,10,25.00,0,0,0,GET,HTTP/1.1,/a.CSS
1,,requests_static,1,25.00,1,100.00,10,25.00,0,0,0,GET,HTTP/1.1,/a.php

=====
crawlers that are excluded
-----
--ignore-crawlers|--ignore-panel=VISITORS|--ignore-panel=REQUESTS|--ignore-panel=REQUESTS_STATIC|--ignore-panel=NOT_FOUND|--ignore-panel=HOSTS|--ignore-panel=VISIT_TIMES|--ignore-panel=VIRTUAL_HOSTS|--ignore-panel=REFERRERS|--ignore-panel=STATUS_CODES|--ignore-panel=REMOTE_USER|--ignore-panel=CACHE_STATUS|--ignore-panel=MIME_TYPE|--ignore-panel=TLS_TYPE|--log-format=COMBINED|-o|csv|a.log
-----
192.0.2.1 - - [01/Jan/2024:00:00:00 +0000] \"GET /a HTTP/1.1\" 200 10 \"-\" \"Mozilla/5.0 (compatible; Googlebot/2.1; +http://www.google.com/bot.html)\"
192.0.2.2 - - [01/Jan/2024:00:00:00 +0000] \"GET /a HTTP/1.1\" 200 10 \"https://www.google.de/search?q=a+b\" \"Foobot 1.0\"
192.0.2.3 - - [01/Jan/2024:00:00:00 +0000] \"GET /a HTTP/1.1\" 200 10 \"-\" \"curl/8.4.0\"
192.0.2.4 - - [01/Jan/2024:00:00:00 +0000] \"GET /a HTTP/1.1\" 200 10 \"http://example.org/x\" \"-\"
192.0.2.5 - - [01/Jan/2024:00:00:00 +0000] \"GET /a HTTP/1.1\" 200 10 \"-\" \"Mozilla/5.0 (Windows NT 10.0) Firefox/120.0\"

-----
0
id,parent_id,panel,hits,hits%,visitors,visitors%,bytes,bytes%,avgts,cumts,maxts,method,protocol,data
0,,general,5,,,,,,,,,,,total_requests
1,,general,4,,,,,,,,,,,valid_requests
2,,general,0,,,,,,,,,,,failed_requests
3,,general,1,,,,,,,,,,,excluded_hits
4,,general,4,,,,,,,,,,,unique_visitors
5,,general,40,,,,,,,,,,,bandwidth
0,,os,2,50.00,2,50.00,20,50.00,0,0,0,,,Unknown
1,0,os,2,50.00,2,50.00,20,50.00,0,0,0,,,Unknown
2,,os,1,25.00,1,25.00,10,25.00,0,0,0,,,Windows
3,2,os,1,25.00,1,25.00,10,25.00,0,0,0,,,Windows 10
0,,browsers,1,25.00,1,25.00,10,25.00,0,0,0,,,Firefox
1,0,browsers,1,25.00,1,25.00,10,25.00,0,0,0,,,Firefox/120.0
2,,browsers,1,25.00,1,25.00,10,25.00,0,0,0,,,Others
3,2,browsers,1,25.00,1,25.00,10,25.00,0,0,0,,,curl/8.4.0
4,,browsers,1,25.00,1,25.00,10,25.00,0,0,0,,,Unknown
5,4,browsers,1,25.00,1,25.00,10,25.00,0,0,0,,,Unknown
0,,referring_sites,1,25.00,1,25.00,10,25.00,0,0,0,,,example.org
1,,referring_sites,1,25.00,1,25.00,10,25.00,0,0,0,,,www.google.de
0,,keyphrases,1,25.00,1,25.00,10,25.00,0,0,0,,,a b

=====
rules of a browsers file
-----
--browsers-file=agents.txt|--ignore-panel=VISITORS|--ignore-panel=REQUESTS|--ignore-panel=REQUESTS_STATIC|--ignore-panel=NOT_FOUND|--ignore-panel=HOSTS|--ignore-panel=VISIT_TIMES|--ignore-panel=VIRTUAL_HOSTS|--ignore-panel=REFERRERS|--ignore-panel=REFERRING_SITES|--ignore-panel=KEYPHRASES|--ignore-panel=STATUS_CODES|--ignore-panel=REMOTE_USER|--ignore-panel=CACHE_STATUS|--ignore-panel=MIME_TYPE|--ignore-panel=TLS_TYPE|--log-format=COMBINED|-o|csv|a.log
-----
192.0.2.1 - - [01/Jan/2024:00:00:00 +0000] \"GET /a HTTP/1.1\" 200 10 \"-\" \"Mozilla/5.0 (compatible; Googlebot/2.1; +http://www.google.com/bot.html)\"
192.0.2.2 - - [01/Jan/2024:00:00:00 +0000] \"GET /a HTTP/1.1\" 200 10 \"https://www.google.de/search?q=a+b\" \"Foobot 1.0\"
192.0.2.3 - - [01/Jan/2024:00:00:00 +0000] \"GET /a HTTP/1.1\" 200 10 \"-\" \"curl/8.4.0\"
192.0.2.4 - - [01/Jan/2024:00:00:00 +0000] \"GET /a HTTP/1.1\" 200 10 \"http://example.org/x\" \"-\"
192.0.2.5 - - [01/Jan/2024:00:00:00 +0000] \"GET /a HTTP/1.1\" 200 10 \"-\" \"Mozilla/5.0 (Windows NT 10.0) Firefox/120.0\"

+++++

+++++
# ours\r
Foobot\t\tCrawlers\r

Mozilla/5.0\tOurs, all
-----
0
id,parent_id,panel,hits,hits%,visitors,visitors%,bytes,bytes%,avgts,cumts,maxts,method,protocol,data
0,,general,5,,,,,,,,,,,total_requests
1,,general,5,,,,,,,,,,,valid_requests
2,,general,0,,,,,,,,,,,failed_requests
3,,general,0,,,,,,,,,,,excluded_hits
4,,general,5,,,,,,,,,,,unique_visitors
5,,general,50,,,,,,,,,,,bandwidth
0,,os,3,60.00,3,60.00,30,60.00,0,0,0,,,Unknown
1,0,os,3,60.00,3,60.00,30,60.00,0,0,0,,,Unknown
2,,os,1,20.00,1,20.00,10,20.00,0,0,0,,,Windows
3,2,os,1,20.00,1,20.00,10,20.00,0,0,0,,,Windows 10
0,,browsers,2,40.00,2,40.00,20,40.00,0,0,0,,,\"Ours, all\"
1,0,browsers,2,40.00,2,40.00,20,40.00,0,0,0,,,Mozilla/5.0
2,,browsers,1,20.00,1,20.00,10,20.00,0,0,0,,,Crawlers
3,2,browsers,1,20.00,1,20.00,10,20.00,0,0,0,,,Foobot
4,,browsers,1,20.00,1,20.00,10,20.00,0,0,0,,,Others
5,4,browsers,1,20.00,1,20.00,10,20.00,0,0,0,,,curl/8.4.0

=====
crawlers by a browsers file
-----
--ignore-crawlers|--browsers-file|agents.txt|--ignore-panel=VISITORS|--ignore-panel=REQUESTS|--ignore-panel=REQUESTS_STATIC|--ignore-panel=NOT_FOUND|--ignore-panel=HOSTS|--ignore-panel=OS|--ignore-panel=VISIT_TIMES|--ignore-panel=VIRTUAL_HOSTS|--ignore-panel=REFERRERS|--ignore-panel=REFERRING_SITES|--ignore-panel=KEYPHRASES|--ignore-panel=STATUS_CODES|--ignore-panel=REMOTE_USER|--ignore-panel=CACHE_STATUS|--ignore-panel=MIME_TYPE|--ignore-panel=TLS_TYPE|--log-format=COMBINED|-o|csv|a.log
-----
192.0.2.1 - - [01/Jan/2024:00:00:00 +0000] \"GET /a HTTP/1.1\" 200 10 \"-\" \"Mozilla/5.0 (compatible; Googlebot/2.1; +http://www.google.com/bot.html)\"
192.0.2.2 - - [01/Jan/2024:00:00:00 +0000] \"GET /a HTTP/1.1\" 200 10 \"https://www.google.de/search?q=a+b\" \"Foobot 1.0\"
192.0.2.3 - - [01/Jan/2024:00:00:00 +0000] \"GET /a HTTP/1.1\" 200 10 \"-\" \"curl/8.4.0\"
192.0.2.4 - - [01/Jan/2024:00:00:00 +0000] \"GET /a HTTP/1.1\" 200 10 \"http://example.org/x\" \"-\"
192.0.2.5 - - [01/Jan/2024:00:00:00 +0000] \"GET /a HTTP/1.1\" 200 10 \"-\" \"Mozilla/5.0 (Windows NT 10.0) Firefox/120.0\"

+++++

+++++
Foo\tCrawlers
Googlebot\tFriends

-----
0
id,parent_id,panel,hits,hits%,visitors,visitors%,bytes,bytes%,avgts,cumts,maxts,method,protocol,data
0,,general,5,,,,,,,,,,,total_requests
1,,general,4,,,,,,,,,,,valid_requests
2,,general,0,,,,,,,,,,,failed_requests
3,,general,1,,,,,,,,,,,excluded_hits
4,,general,4,,,,,,,,,,,unique_visitors
5,,general,40,,,,,,,,,,,bandwidth
0,,browsers,1,25.00,1,25.00,10,25.00,0,0,0,,,Firefox
1,0,browsers,1,25.00,1,25.00,10,25.00,0,0,0,,,Firefox/120.0
2,,browsers,1,25.00,1,25.00,10,25.00,0,0,0,,,Friends
3,2,browsers,1,25.00,1,25.00,10,25.00,0,0,0,,,Googlebot/2.1
4,,browsers,1,25.00,1,25.00,10,25.00,0,0,0,,,Others
5,4,browsers,1,25.00,1,25.00,10,25.00,0,0,0,,,curl/8.4.0

=====
virtual hosts
-----
--log-format=VCOMMON|--ignore-panel=VISITORS|--ignore-panel=REQUESTS|--ignore-panel=REQUESTS_STATIC|--ignore-panel=NOT_FOUND|--ignore-panel=HOSTS|--ignore-panel=OS|--ignore-panel=BROWSERS|--ignore-panel=VISIT_TIMES|--ignore-panel=REFERRERS|--ignore-panel=REFERRING_SITES|--ignore-panel=KEYPHRASES|--ignore-panel=STATUS_CODES|--ignore-panel=REMOTE_USER|--ignore-panel=CACHE_STATUS|--ignore-panel=MIME_TYPE|--ignore-panel=TLS_TYPE|-o|csv|a.log
-----
www.example.org:443 192.0.2.1 - - [01/Jan/2024:00:00:00 +0000] \"GET /a HTTP/1.1\" 200 10
example.org:80 192.0.2.1 - - [01/Jan/2024:00:00:00 +0000] \"GET /a HTTP/1.1\" 200 10

-----
0
id,parent_id,panel,hits,hits%,visitors,visitors%,bytes,bytes%,avgts,cumts,maxts,method,protocol,data
0,,general,2,,,,,,,,,,,total_requests
1,,general,2,,,,,,,,,,,valid_requests
2,,general,0,,,,,,,,,,,failed_requests
3,,general,0,,,,,,,,,,,excluded_hits
4,,general,1,,,,,,,,,,,unique_visitors
5,,general,20,,,,,,,,,,,bandwidth
0,,virtual_hosts,1,50.00,1,100.00,10,50.00,0,0,0,,,example.org
1,,virtual_hosts,1,50.00,1,100.00,10,50.00,0,0,0,,,www.example.org

=====
every field
-----
--log-format=%v %e %C %h [%x] %m %U %q %H %s %b \"%R\" \"%u\" %K %M %D|--date-format=%Y-%m-%d|--time-format= %H:%M:%S|--output=csv|a.log
-----
www.example.org alice HIT 192.0.2.1 [2024-01-01 08:05:09] GET /a x=1 HTTP/1.1 200 10 \"-\" \"-\" TLSv1.3 text/html 1500
- - - 192.0.2.1 [2024-01-01 08:05:10] get /b.css ?y HTTP/9 200 10 \"\" \"\" - - -
www.example.org bob MISS ::1 [2024-01-01 09:00:00] HEAD /c - HTTP/2 204 0 \"-\" \"-\" TLSv1.2 /x 500

-----
0
id,parent_id,panel,hits,hits%,visitors,visitors%,bytes,bytes%,avgts,cumts,maxts,method,protocol,data
0,,general,3,,,,,,,,,,,total_requests
1,,general,3,,,,,,,,,,,valid_requests
2,,general,0,,,,,,,,,,,failed_requests
3,,general,0,,,,,,,,,,,excluded_hits
4,,general,2,,,,,,,,,,,unique_visitors
5,,general,20,,,,,,,,,,,bandwidth
0,,visitors,3,100.00,2,100.00,20,100.00,666,2000,1500,,,20240101
0,,requests,1,33.33,1,50.00,10,50.00,1500,1500,1500,GET,HTTP/1.1,/a?x=1
1,,requests,1,33.33,1,50.00,10,50.00,0,0,0,,,/b.css?y
2,,requests,1,33.33,1,50.00,0,0.00,500,500,500,HEAD,HTTP/2,/c
0,,hosts,2,66.67,1,50.00,20,100.00,750,1500,1500,,,192.0.2.1
1,,hosts,1,33.33,1,50.00,0,0.00,500,500,500,,,::1
0,,visit_times,2,66.67,1,50.00,20,100.00,750,1500,1500,,,08
1,,visit_times,1,33.33,1,50.00,0,0.00,500,500,500,,,09
0,,virtual_hosts,2,66.67,2,100.00,10,50.00,1000,2000,1500,,,www.example.org
0,,status_codes,3,100.00,2,100.00,20,100.00,666,2000,1500,,,2xx Success
1,0,status_codes,2,66.67,1,50.00,20,100.00,750,1500,1500,,,200
2,0,status_codes,1,33.33,1,50.00,0,0.00,500,500,500,,,204
0,,remote_user,1,33.33,1,50.00,10,50.00,1500,1500,1500,,,alice
1,,remote_user,1,33.33,1,50.00,0,0.00,500,500,500,,,bob
0,,cache_status,1,33.33,1,50.00,10,50.00,1500,1500,1500,,,HIT
1,,cache_status,1,33.33,1,50.00,0,0.00,500,500,500,,,MISS
0,,mime_type,1,33.33,1,50.00,0,0.00,500,500,500,,,Unknown
1,0,mime_type,1,33.33,1,50.00,0,0.00,500,500,500,,,/x
2,,mime_type,1,33.33,1,50.00,10,50.00,1500,1500,1500,,,text
3,2,mime_type,1,33.33,1,50.00,10,50.00,1500,1500,1500,,,text/html
0,,tls_type,1,33.33,1,50.00,0,0.00,500,500,500,,,TLSv1.2
1,,tls_type,1,33.33,1,50.00,10,50.00,1500,1500,1500,,,TLSv1.3

=====
hours of a day
-----
--date-spec=hr|--log-format=COMMON|-o|csv|a.log
-----
192.0.2.1 - - [01/Jan/2024:08:05:00 +0000] \"GET /a HTTP/1.1\" 200 10
192.0.2.1 - - [01/Jan/2024:08:55:00 +0000] \"GET /a HTTP/1.1\" 200 10
192.0.2.1 - - [01/Jan/2024:09:10:00 +0000] \"GET /a HTTP/1.1\" 200 10

-----
0
id,parent_id,panel,hits,hits%,visitors,visitors%,bytes,bytes%,avgts,cumts,maxts,method,protocol,data
0,,general,3,,,,,,,,,,,total_requests
1,,general,3,,,,,,,,,,,valid_requests
2,,general,0,,,,,,,,,,,failed_requests
3,,general,0,,,,,,,,,,,excluded_hits
4,,general,1,,,,,,,,,,,unique_visitors
5,,general,30,,,,,,,,,,,bandwidth
0,,visitors,1,33.33,1,100.00,10,33.33,0,0,0,,,2024010109
1,,visitors,2,66.67,1,100.00,20,66.67,0,0,0,,,2024010108
0,,requests,3,100.00,1,100.00,30,100.00,0,0,0,GET,HTTP/1.1,/a
0,,hosts,3,100.00,1,100.00,30,100.00,0,0,0,,,192.0.2.1
0,,visit_times,2,66.67,1,100.00,20,66.67,0,0,0,,,08
1,,visit_times,1,33.33,1,100.00,10,33.33,0,0,0,,,09
0,,status_codes,3,100.00,1,100.00,30,100.00,0,0,0,,,2xx Success
1,0,status_codes,3,100.00,1,100.00,30,100.00,0,0,0,,,200

=====
tens of minutes
-----
--hour-spec=min|--log-format=COMMON|-o|csv|a.log
-----
192.0.2.1 - - [01/Jan/2024:08:05:00 +0000] \"GET /a HTTP/1.1\" 200 10
192.0.2.1 - - [01/Jan/2024:08:55:00 +0000] \"GET /a HTTP/1.1\" 200 10
192.0.2.1 - - [01/Jan/2024:09:10:00 +0000] \"GET /a HTTP/1.1\" 200 10

-----
0
id,parent_id,panel,hits,hits%,visitors,visitors%,bytes,bytes%,avgts,cumts,maxts,method,protocol,data
0,,general,3,,,,,,,,,,,total_requests
1,,general,3,,,,,,,,,,,valid_requests
2,,general,0,,,,,,,,,,,failed_requests
3,,general,0,,,,,,,,,,,excluded_hits
4,,general,1,,,,,,,,,,,unique_visitors
5,,general,30,,,,,,,,,,,bandwidth
0,,visitors,3,100.00,1,100.00,30,100.00,0,0,0,,,20240101
0,,requests,3,100.00,1,100.00,30,100.00,0,0,0,GET,HTTP/1.1,/a
0,,hosts,3,100.00,1,100.00,30,100.00,0,0,0,,,192.0.2.1
0,,visit_times,1,33.33,1,100.00,10,33.33,0,0,0,,,08:00
1,,visit_times,1,33.33,1,100.00,10,33.33,0,0,0,,,08:50
2,,visit_times,1,33.33,1,100.00,10,33.33,0,0,0,,,09:10
0,,status_codes,3,100.00,1,100.00,30,100.00,0,0,0,,,2xx Success
1,0,status_codes,3,100.00,1,100.00,30,100.00,0,0,0,,,200

=====
minutes of days, in two logs
-----
--date-spec|min|--hour-spec|min|--ignore-panel=REQUESTS|--ignore-panel=REQUESTS_STATIC|--ignore-panel=NOT_FOUND|--ignore-panel=HOSTS|--ignore-panel=OS|--ignore-panel=BROWSERS|--ignore-panel=VIRTUAL_HOSTS|--ignore-panel=REFERRERS|--ignore-panel=REFERRING_SITES|--ignore-panel=KEYPHRASES|--ignore-panel=STATUS_CODES|--ignore-panel=REMOTE_USER|--ignore-panel=CACHE_STATUS|--ignore-panel=MIME_TYPE|--ignore-panel=TLS_TYPE|--log-format=COMMON|-o|json|a.log|b.log
-----
192.0.2.1 - - [01/Jan/2024:08:05:00 +0000] \"GET /a HTTP/1.1\" 200 10
192.0.2.1 - - [01/Jan/2024:08:55:00 +0000] \"GET /a HTTP/1.1\" 200 10
192.0.2.1 - - [01/Jan/2024:09:10:00 +0000] \"GET /a HTTP/1.1\" 200 10

+++++
192.0.2.1 - - [01/Jan/2024:08:05:00 +0000] \"GET /a HTTP/1.1\" 200 10
192.0.2.1 - - [01/Jan/2024:08:55:00 +0000] \"GET /a HTTP/1.1\" 200 10
192.0.2.1 - - [01/Jan/2024:09:10:00 +0000] \"GET /a HTTP/1.1\" 200 10
192.0.2.2 - - [01/Jan/2024:08:55:59 +0000] \"GET /a HTTP/1.1\" 200 10
192.0.2.1 - - [01/Jan/2024:23:59:60 +0000] \"GET /x HTTP/1.1\" 404 5
192.0.2.1 - - [02/Jan/2024:08:05:00 +0000] \"GET /a HTTP/1.1\" 200 10

-----
0
{\"general\":{\"bandwidth\":85,\"excluded_hits\":0,\"failed_requests\":0,\"total_requests\":9,\"unique_visitors\":3,\"valid_requests\":9},\"visit_times\":{\"data\":[{\"avgts\":0,\"bytes\":{\"count\":30,\"percent\":\"35.29\"},\"cumts\":0,\"data\":\"08:00\",\"hits\":{\"count\":3,\"percent\":\"33.33\"},\"maxts\":0,\"visitors\":{\"count\":2,\"percent\":\"66.67\"}},{\"avgts\":0,\"bytes\":{\"count\":30,\"percent\":\"35.29\"},\"cumts\":0,\"data\":\"08:50\",\"hits\":{\"count\":3,\"percent\":\"33.33\"},\"maxts\":0,\"visitors\":{\"count\":2,\"percent\":\"66.67\"}},{\"avgts\":0,\"bytes\":{\"count\":20,\"percent\":\"23.53\"},\"cumts\":0,\"data\":\"09:10\",\"hits\":{\"count\":2,\"percent\":\"22.22\"},\"maxts\":0,\"visitors\":{\"count\":1,\"percent\":\"33.33\"}},{\"avgts\":0,\"bytes\":{\"count\":5,\"percent\":\"5.88\"},\"cumts\":0,\"data\":\"23:50\",\"hits\":{\"count\":1,\"percent\":\"11.11\"},\"maxts\":0,\"visitors\":{\"count\":0,\"percent\":\"0.00\"}}]},\"visitors\":{\"data\":[{\"avgts\":0,\"bytes\":{\"count\":10,\"percent\":\"11.76\"},\"cumts\":0,\"data\":\"202401020805\",\"hits\":{\"count\":1,\"percent\":\"11.11\"},\"maxts\":0,\"visitors\":{\"count\":1,\"percent\":\"33.33\"}},{\"avgts\":0,\"bytes\":{\"count\":5,\"percent\":\"5.88\"},\"cumts\":0,\"data\":\"202401012359\",\"hits\":{\"count\":1,\"percent\":\"11.11\"},\"maxts\":0,\"visitors\":{\"count\":0,\"percent\":\"0.00\"}},{\"avgts\":0,\"bytes\":{\"count\":20,\"percent\":\"23.53\"},\"cumts\":0,\"data\":\"202401010910\",\"hits\":{\"count\":2,\"percent\":\"22.22\"},\"maxts\":0,\"visitors\":{\"count\":1,\"percent\":\"33.33\"}},{\"avgts\":0,\"bytes\":{\"count\":30,\"percent\":\"35.29\"},\"cumts\":0,\"data\":\"202401010855\",\"hits\":{\"count\":3,\"percent\":\"33.33\"},\"maxts\":0,\"visitors\":{\"count\":2,\"percent\":\"66.67\"}},{\"avgts\":0,\"bytes\":{\"count\":20,\"percent\":\"23.53\"},\"cumts\":0,\"data\":\"202401010805\",\"hits\":{\"count\":2,\"percent\":\"22.22\"},\"maxts\":0,\"visitors\":{\"count\":1,\"percent\":\"33.33\"}}]}}

=====
days by their own name, and hours by theirs
-----
--date-spec=date|--hour-spec=hr|--ignore-panel=REQUESTS|--ignore-panel=REQUESTS_STATIC|--ignore-panel=NOT_FOUND|--ignore-panel=HOSTS|--ignore-panel=OS|--ignore-panel=BROWSERS|--ignore-panel=VIRTUAL_HOSTS|--ignore-panel=REFERRERS|--ignore-panel=REFERRING_SITES|--ignore-panel=KEYPHRASES|--ignore-panel=STATUS_CODES|--ignore-panel=REMOTE_USER|--ignore-panel=CACHE_STATUS|--ignore-panel=MIME_TYPE|--ignore-panel=TLS_TYPE|--log-format=COMMON|-o|csv|a.log
-----
192.0.2.1 - - [01/Jan/2024:08:05:00 +0000] \"GET /a HTTP/1.1\" 200 10
192.0.2.1 - - [01/Jan/2024:08:55:00 +0000] \"GET /a HTTP/1.1\" 200 10
192.0.2.1 - - [01/Jan/2024:09:10:00 +0000] \"GET /a HTTP/1.1\" 200 10
192.0.2.2 - - [01/Jan/2024:08:55:59 +0000] \"GET /a HTTP/1.1\" 200 10
192.0.2.1 - - [01/Jan/2024:23:59:60 +0000] \"GET /x HTTP/1.1\" 404 5
192.0.2.1 - - [02/Jan/2024:08:05:00 +0000] \"GET /a HTTP/1.1\" 200 10

-----
0
id,parent_id,panel,hits,hits%,visitors,visitors%,bytes,bytes%,avgts,cumts,maxts,method,protocol,data
0,,general,6,,,,,,,,,,,total_requests
1,,general,6,,,,,,,,,,,valid_requests
2,,general,0,,,,,,,,,,,failed_requests
3,,general,0,,,,,,,,,,,excluded_hits
4,,general,3,,,,,,,,,,,unique_visitors
5,,general,55,,,,,,,,,,,bandwidth
0,,visitors,1,16.67,1,33.33,10,18.18,0,0,0,,,20240102
1,,visitors,5,83.33,2,66.67,45,81.82,0,0,0,,,20240101
0,,visit_times,4,66.67,3,100.00,40,72.73,0,0,0,,,08
1,,visit_times,1,16.67,1,33.33,10,18.18,0,0,0,,,09
2,,visit_times,1,16.67,0,0.00,5,9.09,0,0,0,,,23

=====
the last word on days, hours and minutes
-----
--date-spec=min|--hour-spec=min|--date-spec=hr|--hour-spec=hr|--ignore-panel=REQUESTS|--ignore-panel=REQUESTS_STATIC|--ignore-panel=NOT_FOUND|--ignore-panel=HOSTS|--ignore-panel=OS|--ignore-panel=BROWSERS|--ignore-panel=VIRTUAL_HOSTS|--ignore-panel=REFERRERS|--ignore-panel=REFERRING_SITES|--ignore-panel=KEYPHRASES|--ignore-panel=STATUS_CODES|--ignore-panel=REMOTE_USER|--ignore-panel=CACHE_STATUS|--ignore-panel=MIME_TYPE|--ignore-panel=TLS_TYPE|--log-format=COMMON|-o|csv|a.log
-----
192.0.2.1 - - [01/Jan/2024:08:05:00 +0000] \"GET /a HTTP/1.1\" 200 10
192.0.2.1 - - [01/Jan/2024:08:55:00 +0000] \"GET /a HTTP/1.1\" 200 10
192.0.2.1 - - [01/Jan/2024:09:10:00 +0000] \"GET /a HTTP/1.1\" 200 10
192.0.2.2 - - [01/Jan/2024:08:55:59 +0000] \"GET /a HTTP/1.1\" 200 10
192.0.2.1 - - [01/Jan/2024:23:59:60 +0000] \"GET /x HTTP/1.1\" 404 5
192.0.2.1 - - [02/Jan/2024:08:05:00 +0000] \"GET /a HTTP/1.1\" 200 10

-----
0
id,parent_id,panel,hits,hits%,visitors,visitors%,bytes,bytes%,avgts,cumts,maxts,method,protocol,data
0,,general,6,,,,,,,,,,,total_requests
1,,general,6,,,,,,,,,,,valid_requests
2,,general,0,,,,,,,,,,,failed_requests
3,,general,0,,,,,,,,,,,excluded_hits
4,,general,3,,,,,,,,,,,unique_visitors
5,,general,55,,,,,,,,,,,bandwidth
0,,visitors,1,16.67,1,33.33,10,18.18,0,0,0,,,2024010208
1,,visitors,1,16.67,0,0.00,5,9.09,0,0,0,,,2024010123
2,,visitors,1,16.67,1,33.33,10,18.18,0,0,0,,,2024010109
3,,visitors,3,50.00,2,66.67,30,54.55,0,0,0,,,2024010108
0,,visit_times,4,66.67,3,100.00,40,72.73,0,0,0,,,08
1,,visit_times,1,16.67,1,33.33,10,18.18,0,0,0,,,09
2,,visit_times,1,16.67,0,0.00,5,9.09,0,0,0,,,23

=====
one hour of many
-----
--date-spec=hr|--hour-spec=min|--max-items=1|--ignore-panel=REQUESTS|--ignore-panel=REQUESTS_STATIC|--ignore-panel=NOT_FOUND|--ignore-panel=HOSTS|--ignore-panel=OS|--ignore-panel=BROWSERS|--ignore-panel=VIRTUAL_HOSTS|--ignore-panel=REFERRERS|--ignore-panel=REFERRING_SITES|--ignore-panel=KEYPHRASES|--ignore-panel=STATUS_CODES|--ignore-panel=REMOTE_USER|--ignore-panel=CACHE_STATUS|--ignore-panel=MIME_TYPE|--ignore-panel=TLS_TYPE|--log-format=COMMON|-o|csv|a.log
-----
192.0.2.1 - - [01/Jan/2024:08:05:00 +0000] \"GET /a HTTP/1.1\" 200 10
192.0.2.1 - - [01/Jan/2024:08:55:00 +0000] \"GET /a HTTP/1.1\" 200 10
192.0.2.1 - - [01/Jan/2024:09:10:00 +0000] \"GET /a HTTP/1.1\" 200 10
192.0.2.2 - - [01/Jan/2024:08:55:59 +0000] \"GET /a HTTP/1.1\" 200 10
192.0.2.1 - - [01/Jan/2024:23:59:60 +0000] \"GET /x HTTP/1.1\" 404 5
192.0.2.1 - - [02/Jan/2024:08:05:00 +0000] \"GET /a HTTP/1.1\" 200 10

-----
0
id,parent_id,panel,hits,hits%,visitors,visitors%,bytes,bytes%,avgts,cumts,maxts,method,protocol,data
0,,general,6,,,,,,,,,,,total_requests
1,,general,6,,,,,,,,,,,valid_requests
2,,general,0,,,,,,,,,,,failed_requests
3,,general,0,,,,,,,,,,,excluded_hits
4,,general,3,,,,,,,,,,,unique_visitors
5,,general,55,,,,,,,,,,,bandwidth
0,,visitors,1,16.67,1,33.33,10,18.18,0,0,0,,,2024010208
0,,visit_times,2,33.33,2,66.67,20,36.36,0,0,0,,,08:00

=====
hours where VISITORS isn't shown
-----
--date-spec=hr|--ignore-panel=VISITORS|--ignore-panel=REQUESTS|--ignore-panel=REQUESTS_STATIC|--ignore-panel=NOT_FOUND|--ignore-panel=OS|--ignore-panel=BROWSERS|--ignore-panel=VIRTUAL_HOSTS|--ignore-panel=REFERRERS|--ignore-panel=REFERRING_SITES|--ignore-panel=KEYPHRASES|--ignore-panel=STATUS_CODES|--ignore-panel=REMOTE_USER|--ignore-panel=CACHE_STATUS|--ignore-panel=MIME_TYPE|--ignore-panel=TLS_TYPE|--log-format=COMMON|-o|csv|a.log
-----
192.0.2.1 - - [01/Jan/2024:08:05:00 +0000] \"GET /a HTTP/1.1\" 200 10
192.0.2.1 - - [01/Jan/2024:08:55:00 +0000] \"GET /a HTTP/1.1\" 200 10
192.0.2.1 - - [01/Jan/2024:09:10:00 +0000] \"GET /a HTTP/1.1\" 200 10
192.0.2.2 - - [01/Jan/2024:08:55:59 +0000] \"GET /a HTTP/1.1\" 200 10
192.0.2.1 - - [01/Jan/2024:23:59:60 +0000] \"GET /x HTTP/1.1\" 404 5
192.0.2.1 - - [02/Jan/2024:08:05:00 +0000] \"GET /a HTTP/1.1\" 200 10

-----
0
id,parent_id,panel,hits,hits%,visitors,visitors%,bytes,bytes%,avgts,cumts,maxts,method,protocol,data
0,,general,6,,,,,,,,,,,total_requests
1,,general,6,,,,,,,,,,,valid_requests
2,,general,0,,,,,,,,,,,failed_requests
3,,general,0,,,,,,,,,,,excluded_hits
4,,general,3,,,,,,,,,,,unique_visitors
5,,general,55,,,,,,,,,,,bandwidth
0,,hosts,5,83.33,2,66.67,45,81.82,0,0,0,,,192.0.2.1
1,,hosts,1,16.67,1,33.33,10,18.18,0,0,0,,,192.0.2.2
0,,visit_times,4,66.67,3,100.00,40,72.73,0,0,0,,,08
1,,visit_times,1,16.67,1,33.33,10,18.18,0,0,0,,,09
2,,visit_times,1,16.67,0,0.00,5,9.09,0,0,0,,,23

=====
hours of lines without a time of day
-----
--log-format=%h %^[%d:%^] \"%r\" %s %b|--date-spec=hr|--hour-spec=min|-o|csv|a.log
-----
192.0.2.1 - - [01/Jan/2024:08:05:00 +0000] \"GET /a HTTP/1.1\" 200 10
192.0.2.1 - - [01/Jan/2024:08:55:00 +0000] \"GET /a HTTP/1.1\" 200 10
192.0.2.1 - - [01/Jan/2024:09:10:00 +0000] \"GET /a HTTP/1.1\" 200 10

-----
0
id,parent_id,panel,hits,hits%,visitors,visitors%,bytes,bytes%,avgts,cumts,maxts,method,protocol,data
0,,general,3,,,,,,,,,,,total_requests
1,,general,3,,,,,,,,,,,valid_requests
2,,general,0,,,,,,,,,,,failed_requests
3,,general,0,,,,,,,,,,,excluded_hits
4,,general,1,,,,,,,,,,,unique_visitors
5,,general,30,,,,,,,,,,,bandwidth
0,,requests,3,100.00,1,100.00,30,100.00,0,0,0,GET,HTTP/1.1,/a
0,,hosts,3,100.00,1,100.00,30,100.00,0,0,0,,,192.0.2.1
0,,status_codes,3,100.00,1,100.00,30,100.00,0,0,0,,,2xx Success
1,0,status_codes,3,100.00,1,100.00,30,100.00,0,0,0,,,200

=====
minutes of the generator's lines
-----
--generate=50|--date-spec=min|--hour-spec=min
-----

-----
0
generated 50
valid 50
failed 0
visitors 45
bandwidth 1225
report e36d76c464f62a679f85cfc45c993601323c5463dab18443b10c4e5bab422335

=====
the last two days of three
-----
--keep-last=2|--log-format=COMMON|-o|csv|a.log
-----
192.0.2.1 - - [01/Jan/2024:00:00:00 +0000] \"GET /a HTTP/1.1\" 200 10
192.0.2.1 - - [02/Jan/2024:00:00:00 +0000] \"GET /a HTTP/1.1\" 200 10
192.0.2.1 - - [03/Jan/2024:00:00:00 +0000] \"GET /a HTTP/1.1\" 200 10

-----
0
id,parent_id,panel,hits,hits%,visitors,visitors%,bytes,bytes%,avgts,cumts,maxts,method,protocol,data
0,,general,3,,,,,,,,,,,total_requests
1,,general,2,,,,,,,,,,,valid_requests
2,,general,0,,,,,,,,,,,failed_requests
3,,general,0,,,,,,,,,,,excluded_hits
4,,general,2,,,,,,,,,,,unique_visitors
5,,general,20,,,,,,,,,,,bandwidth
0,,visitors,1,50.00,1,50.00,10,50.00,0,0,0,,,20240103
1,,visitors,1,50.00,1,50.00,10,50.00,0,0,0,,,20240102
0,,requests,2,100.00,2,100.00,20,100.00,0,0,0,GET,HTTP/1.1,/a
0,,hosts,2,100.00,2,100.00,20,100.00,0,0,0,,,192.0.2.1
0,,visit_times,2,100.00,2,100.00,20,100.00,0,0,0,,,00
0,,status_codes,2,100.00,2,100.00,20,100.00,0,0,0,,,2xx Success
1,0,status_codes,2,100.00,2,100.00,20,100.00,0,0,0,,,200

=====
the last day of two logs, after lines of later days that aren't counted
-----
--keep-last|1|--ignore-status=500|--log-format=COMMON|-o|json|a.log|b.log
-----
192.0.2.1 - - [01/Jan/2024:00:00:00 +0000] \"GET /a HTTP/1.1\" 200 10
192.0.2.1 - - [02/Jan/2024:00:00:00 +0000] \"GET /a HTTP/1.1\" 200 10
192.0.2.1 - - [03/Jan/2024:00:00:00 +0000] \"GET /a HTTP/1.1\" 200 10
192.0.2.1 - - [04/Jan/2024:00:00:00 +0000] \"GET /a HTTP/1.1\" 500 10

+++++
192.0.2.1 - - [02/Jan/2024:00:00:00 +0000] \"GET /a HTTP/1.1\" 200 10
broken
192.0.2.1 - - [03/Jan/2024:00:00:00 +0000] \"GET /b.css HTTP/1.1\" 404 5

-----
0
{\"browsers\":{\"data\":[]},\"cache_status\":{\"data\":[]},\"general\":{\"bandwidth\":15,\"excluded_hits\":1,\"failed_requests\":1,\"total_requests\":7,\"unique_visitors\":1,\"valid_requests\":2},\"hosts\":{\"data\":[{\"avgts\":0,\"bytes\":{\"count\":15,\"percent\":\"100.00\"},\"cumts\":0,\"data\":\"192.0.2.1\",\"hits\":{\"count\":2,\"percent\":\"100.00\"},\"maxts\":0,\"visitors\":{\"count\":1,\"percent\":\"100.00\"}}]},\"keyphrases\":{\"data\":[]},\"mime_type\":{\"data\":[]},\"not_found\":{\"data\":[{\"avgts\":0,\"bytes\":{\"count\":5,\"percent\":\"33.33\"},\"cumts\":0,\"data\":\"/b.css\",\"hits\":{\"count\":1,\"percent\":\"50.00\"},\"maxts\":0,\"method\":\"GET\",\"protocol\":\"HTTP/1.1\",\"visitors\":{\"count\":0,\"percent\":\"0.00\"}}]},\"os\":{\"data\":[]},\"referrers\":{\"data\":[]},\"referring_sites\":{\"data\":[]},\"remote_user\":{\"data\":[]},\"requests\":{\"data\":[{\"avgts\":0,\"bytes\":{\"count\":10,\"percent\":\"66.67\"},\"cumts\":0,\"data\":\"/a\",\"hits\":{\"count\":1,\"percent\":\"50.00\"},\"maxts\":0,\"method\":\"GET\",\"protocol\":\"HTTP/1.1\",\"visitors\":{\"count\":1,\"percent\":\"100.00\"}}]},\"requests_static\":{\"data\":[]},\"status_codes\":{\"data\":[{\"avgts\":0,\"bytes\":{\"count\":10,\"percent\":\"66.67\"},\"cumts\":0,\"data\":\"2xx Success\",\"hits\":{\"count\":1,\"percent\":\"50.00\"},\"items\":[{\"avgts\":0,\"bytes\":{\"count\":10,\"percent\":\"66.67\"},\"cumts\":0,\"data\":\"200\",\"hits\":{\"count\":1,\"percent\":\"50.00\"},\"maxts\":0,\"visitors\":{\"count\":1,\"percent\":\"100.00\"}}],\"maxts\":0,\"visitors\":{\"count\":1,\"percent\":\"100.00\"}},{\"avgts\":0,\"bytes\":{\"count\":5,\"percent\":\"33.33\"},\"cumts\":0,\"data\":\"4xx Client Errors\",\"hits\":{\"count\":1,\"percent\":\"50.00\"},\"items\":[{\"avgts\":0,\"bytes\":{\"count\":5,\"percent\":\"33.33\"},\"cumts\":0,\"data\":\"404\",\"hits\":{\"count\":1,\"percent\":\"50.00\"},\"maxts\":0,\"visitors\":{\"count\":0,\"percent\":\"0.00\"}}],\"maxts\":0,\"visitors\":{\"count\":0,\"percent\":\"0.00\"}}]},\"tls_type\":{\"data\":[]},\"virtual_hosts\":{\"data\":[]},\"visit_times\":{\"data\":[{\"avgts\":0,\"bytes\":{\"count\":15,\"percent\":\"100.00\"},\"cumts\":0,\"data\":\"00\",\"hits\":{\"count\":2,\"percent\":\"100.00\"},\"maxts\":0,\"visitors\":{\"count\":1,\"percent\":\"100.00\"}}]},\"visitors\":{\"data\":[{\"avgts\":0,\"bytes\":{\"count\":15,\"percent\":\"100.00\"},\"cumts\":0,\"data\":\"20240103\",\"hits\":{\"count\":2,\"percent\":\"100.00\"},\"maxts\":0,\"visitors\":{\"count\":1,\"percent\":\"100.00\"}}]}}

=====
as many days as there are, and the last number counts
-----
--keep-last=1|--keep-last=4294967295|--ignore-panel=REQUESTS|--ignore-panel=REQUESTS_STATIC|--ignore-panel=NOT_FOUND|--ignore-panel=HOSTS|--ignore-panel=OS|--ignore-panel=BROWSERS|--ignore-panel=VIRTUAL_HOSTS|--ignore-panel=REFERRERS|--ignore-panel=REFERRING_SITES|--ignore-panel=KEYPHRASES|--ignore-panel=STATUS_CODES|--ignore-panel=REMOTE_USER|--ignore-panel=CACHE_STATUS|--ignore-panel=MIME_TYPE|--ignore-panel=TLS_TYPE|--log-format=COMMON|-o|csv|a.log
-----
192.0.2.1 - - [01/Jan/2024:00:00:00 +0000] \"GET /a HTTP/1.1\" 200 10
192.0.2.1 - - [02/Jan/2024:00:00:00 +0000] \"GET /a HTTP/1.1\" 200 10
192.0.2.1 - - [03/Jan/2024:00:00:00 +0000] \"GET /a HTTP/1.1\" 200 10

-----
0
id,parent_id,panel,hits,hits%,visitors,visitors%,bytes,bytes%,avgts,cumts,maxts,method,protocol,data
0,,general,3,,,,,,,,,,,total_requests
1,,general,3,,,,,,,,,,,valid_requests
2,,general,0,,,,,,,,,,,failed_requests
3,,general,0,,,,,,,,,,,excluded_hits
4,,general,3,,,,,,,,,,,unique_visitors
5,,general,30,,,,,,,,,,,bandwidth
0,,visitors,1,33.33,1,33.33,10,33.33,0,0,0,,,20240103
1,,visitors,1,33.33,1,33.33,10,33.33,0,0,0,,,20240102
2,,visitors,1,33.33,1,33.33,10,33.33,0,0,0,,,20240101
0,,visit_times,3,100.00,3,100.00,30,100.00,0,0,0,,,00

=====
hours of the last day
-----
--keep-last=1|--date-spec=hr|--ignore-panel=REQUESTS|--ignore-panel=REQUESTS_STATIC|--ignore-panel=NOT_FOUND|--ignore-panel=HOSTS|--ignore-panel=OS|--ignore-panel=BROWSERS|--ignore-panel=VIRTUAL_HOSTS|--ignore-panel=REFERRERS|--ignore-panel=REFERRING_SITES|--ignore-panel=KEYPHRASES|--ignore-panel=STATUS_CODES|--ignore-panel=REMOTE_USER|--ignore-panel=CACHE_STATUS|--ignore-panel=MIME_TYPE|--ignore-panel=TLS_TYPE|--log-format=COMMON|-o|csv|a.log
-----
192.0.2.1 - - [01/Jan/2024:08:05:00 +0000] \"GET /a HTTP/1.1\" 200 10
192.0.2.1 - - [01/Jan/2024:08:55:00 +0000] \"GET /a HTTP/1.1\" 200 10
192.0.2.1 - - [01/Jan/2024:09:10:00 +0000] \"GET /a HTTP/1.1\" 200 10
192.0.2.2 - - [01/Jan/2024:08:55:59 +0000] \"GET /a HTTP/1.1\" 200 10
192.0.2.1 - - [01/Jan/2024:23:59:60 +0000] \"GET /x HTTP/1.1\" 404 5
192.0.2.1 - - [02/Jan/2024:08:05:00 +0000] \"GET /a HTTP/1.1\" 200 10

-----
0
id,parent_id,panel,hits,hits%,visitors,visitors%,bytes,bytes%,avgts,cumts,maxts,method,protocol,data
0,,general,6,,,,,,,,,,,total_requests
1,,general,1,,,,,,,,,,,valid_requests
2,,general,0,,,,,,,,,,,failed_requests
3,,general,0,,,,,,,,,,,excluded_hits
4,,general,1,,,,,,,,,,,unique_visitors
5,,general,10,,,,,,,,,,,bandwidth
0,,visitors,1,100.00,1,100.00,10,100.00,0,0,0,,,2024010208
0,,visit_times,1,100.00,1,100.00,10,100.00,0,0,0,,,08

=====
the last day where days aren't shown
-----
--keep-last=1|--ignore-panel=VISITORS|--ignore-panel=REQUESTS|--ignore-panel=REQUESTS_STATIC|--ignore-panel=NOT_FOUND|--ignore-panel=OS|--ignore-panel=BROWSERS|--ignore-panel=VISIT_TIMES|--ignore-panel=VIRTUAL_HOSTS|--ignore-panel=REFERRERS|--ignore-panel=REFERRING_SITES|--ignore-panel=KEYPHRASES|--ignore-panel=REMOTE_USER|--ignore-panel=CACHE_STATUS|--ignore-panel=MIME_TYPE|--ignore-panel=TLS_TYPE|--log-format=COMMON|-o|csv|a.log
-----
192.0.2.1 - - [01/Jan/2024:00:00:00 +0000] \"GET /a HTTP/1.1\" 200 10
192.0.2.1 - - [01/Jan/2024:00:00:00 +0000] \"GET /x HTTP/1.1\" 404 5
192.0.2.2 - - [01/Jan/2024:00:00:00 +0000] \"GET /b.css HTTP/1.1\" 304 -
192.0.2.1 - - [02/Jan/2024:23:00:00 +0000] \"POST /a HTTP/1.1\" 500 7

-----
0
id,parent_id,panel,hits,hits%,visitors,visitors%,bytes,bytes%,avgts,cumts,maxts,method,protocol,data
0,,general,4,,,,,,,,,,,total_requests
1,,general,1,,,,,,,,,,,valid_requests
2,,general,0,,,,,,,,,,,failed_requests
3,,general,0,,,,,,,,,,,excluded_hits
4,,general,1,,,,,,,,,,,unique_visitors
5,,general,7,,,,,,,,,,,bandwidth
0,,hosts,1,100.00,1,100.00,7,100.00,0,0,0,,,192.0.2.1
0,,status_codes,1,100.00,1,100.00,7,100.00,0,0,0,,,5xx Server Errors
1,0,status_codes,1,100.00,1,100.00,7,100.00,0,0,0,,,500

=====
the last two days of the generator's lines
-----
--generate=100|--keep-last=2
-----

-----
0
generated 100
valid 6
failed 0
visitors 6
bandwidth 327
report a8f41e488c951c48eea922fc6054c6af2e49cd6f6b05a6b159d5d295ff8af642

=====
the last of several outputs
-----
--log-format=COMMON|-o|json|--db-path=x|--output|csv|--ignore-panel=VISITORS|--ignore-panel=REQUESTS|--ignore-panel=REQUESTS_STATIC|--ignore-panel=NOT_FOUND|--ignore-panel=OS|--ignore-panel=BROWSERS|--ignore-panel=VISIT_TIMES|--ignore-panel=VIRTUAL_HOSTS|--ignore-panel=REFERRERS|--ignore-panel=REFERRING_SITES|--ignore-panel=KEYPHRASES|--ignore-panel=STATUS_CODES|--ignore-panel=REMOTE_USER|--ignore-panel=CACHE_STATUS|--ignore-panel=MIME_TYPE|--ignore-panel=TLS_TYPE|a.log
-----
192.0.2.1 - - [01/Jan/2024:00:00:00 +0000] \"GET /a HTTP/1.1\" 200 10
192.0.2.1 - - [01/Jan/2024:00:00:00 +0000] \"GET /x HTTP/1.1\" 404 5
192.0.2.2 - - [01/Jan/2024:00:00:00 +0000] \"GET /b.css HTTP/1.1\" 304 -
192.0.2.1 - - [02/Jan/2024:23:00:00 +0000] \"POST /a HTTP/1.1\" 500 7

-----
0
id,parent_id,panel,hits,hits%,visitors,visitors%,bytes,bytes%,avgts,cumts,maxts,method,protocol,data
0,,general,4,,,,,,,,,,,total_requests
1,,general,4,,,,,,,,,,,valid_requests
2,,general,0,,,,,,,,,,,failed_requests
3,,general,0,,,,,,,,,,,excluded_hits
4,,general,3,,,,,,,,,,,unique_visitors
5,,general,22,,,,,,,,,,,bandwidth
0,,hosts,3,75.00,2,66.67,22,100.00,0,0,0,,,192.0.2.1
1,,hosts,1,25.00,1,33.33,0,0.00,0,0,0,,,192.0.2.2

=====
a thousand lines of the generator
-----
--generate=1000
-----

-----
0
generated 1000
valid 1000
failed 0
visitors 900
bandwidth 499500
report 2eb338646d6ed3b5672290dcd3f3b71802dad6ac3ba2458f03e28054adea440d

=====
the generator with options
-----
--generate|30|-o|r.csv|--ignore-status=404|--browsers-file=agents.txt|--max-items=2
-----

+++++

+++++
Firefox\tCrawlers

-----
0
generated 30
valid 27
failed 0
visitors 27
bandwidth 378
report 2cfe744d339d943081c6c1e7d844a74047f9311a2125d2bf1deafa78031fb48b

=====
the generator's lines under another format
-----
--generate=5|--log-format=%h - - [%d:%t %^] \"%r\" %s %^
-----

-----
0
generated 5
valid 5
failed 0
visitors 5
bandwidth 0
report 960523d156085ff354620e7a776d37e9d9b6df6c8090bd849a4b066f527d7750

=====
a counter at four times 10^18
-----
--log-format=COMMON|-o|csv|a.log
-----
192.0.2.1 - - [01/Jan/2024:00:00:00 +0000] \"GET /a HTTP/1.1\" 200 1000000000000000000
192.0.2.1 - - [01/Jan/2024:00:00:00 +0000] \"GET /a HTTP/1.1\" 200 1000000000000000000
192.0.2.1 - - [01/Jan/2024:00:00:00 +0000] \"GET /a HTTP/1.1\" 200 1000000000000000000
192.0.2.1 - - [01/Jan/2024:00:00:00 +0000] \"GET /a HTTP/1.1\" 200 1000000000000000000

-----
0
id,parent_id,panel,hits,hits%,visitors,visitors%,bytes,bytes%,avgts,cumts,maxts,method,protocol,data
0,,general,4,,,,,,,,,,,total_requests
1,,general,4,,,,,,,,,,,valid_requests
2,,general,0,,,,,,,,,,,failed_requests
3,,general,0,,,,,,,,,,,excluded_hits
4,,general,1,,,,,,,,,,,unique_visitors
5,,general,4000000000000000000,,,,,,,,,,,bandwidth
0,,visitors,4,100.00,1,100.00,4000000000000000000,100.00,0,0,0,,,20240101
0,,requests,4,100.00,1,100.00,4000000000000000000,100.00,0,0,0,GET,HTTP/1.1,/a
0,,hosts,4,100.00,1,100.00,4000000000000000000,100.00,0,0,0,,,192.0.2.1
0,,visit_times,4,100.00,1,100.00,4000000000000000000,100.00,0,0,0,,,00
0,,status_codes,4,100.00,1,100.00,4000000000000000000,100.00,0,0,0,,,2xx Success
1,0,status_codes,4,100.00,1,100.00,4000000000000000000,100.00,0,0,0,,,200

=====
a counter at its limit
-----
--log-format=COMMON|-o|csv|a.log
-----
192.0.2.1 - - [01/Jan/2024:00:00:00 +0000] \"GET /a HTTP/1.1\" 200 1000000000000000000
192.0.2.1 - - [01/Jan/2024:00:00:00 +0000] \"GET /a HTTP/1.1\" 200 1000000000000000000
192.0.2.1 - - [01/Jan/2024:00:00:00 +0000] \"GET /a HTTP/1.1\" 200 1000000000000000000
192.0.2.1 - - [01/Jan/2024:00:00:00 +0000] \"GET /a HTTP/1.1\" 200 1000000000000000000
192.0.2.1 - - [01/Jan/2024:00:00:00 +0000] \"GET /a HTTP/1.1\" 200 611686018427387903

-----
0
id,parent_id,panel,hits,hits%,visitors,visitors%,bytes,bytes%,avgts,cumts,maxts,method,protocol,data
0,,general,5,,,,,,,,,,,total_requests
1,,general,5,,,,,,,,,,,valid_requests
2,,general,0,,,,,,,,,,,failed_requests
3,,general,0,,,,,,,,,,,excluded_hits
4,,general,1,,,,,,,,,,,unique_visitors
5,,general,4611686018427387903,,,,,,,,,,,bandwidth
0,,visitors,5,100.00,1,100.00,4611686018427387903,100.00,0,0,0,,,20240101
0,,requests,5,100.00,1,100.00,4611686018427387903,100.00,0,0,0,GET,HTTP/1.1,/a
0,,hosts,5,100.00,1,100.00,4611686018427387903,100.00,0,0,0,,,192.0.2.1
0,,visit_times,5,100.00,1,100.00,4611686018427387903,100.00,0,0,0,,,00
0,,status_codes,5,100.00,1,100.00,4611686018427387903,100.00,0,0,0,,,2xx Success
1,0,status_codes,5,100.00,1,100.00,4611686018427387903,100.00,0,0,0,,,200
";
