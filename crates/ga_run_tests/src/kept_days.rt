//! Written by tools/make_cases.py; don't edit by hand.

/// Runs that print their last days, in the form of `REPORTS`.
pub const KEPT_DAYS: &str = "\
the last two days of three
-----
--keep-last=2|--log-format=COMMON|-o|csv|a.log
-----
192.0.2.1 - - [01/Jan/2024:00:00:00 +0000] \"GET /a HTTP/1.1\" 200 10
192.0.2.1 - - [02/Jan/2024:00:00:00 +0000] \"GET /a HTTP/1.1\" 200 10
192.0.2.1 - - [03/Jan/2024:00:00:00 +0000] \"GET /a HTTP/1.1\" 200 10

-----
0
id,parent_id,panel,hits,hits%,visitors,visitors%,bytes,bytes%,avgts,cumts,maxts,method,protocol,data
0,,general,3,,,,,,,,,,,total_requests
1,,general,2,,,,,,,,,,,valid_requests
2,,general,0,,,,,,,,,,,failed_requests
3,,general,0,,,,,,,,,,,excluded_hits
4,,general,2,,,,,,,,,,,unique_visitors
5,,general,20,,,,,,,,,,,bandwidth
0,,visitors,1,50.00,1,50.00,10,50.00,0,0,0,,,20240103
1,,visitors,1,50.00,1,50.00,10,50.00,0,0,0,,,20240102
0,,requests,2,100.00,2,100.00,20,100.00,0,0,0,GET,HTTP/1.1,/a
0,,hosts,2,100.00,2,100.00,20,100.00,0,0,0,,,192.0.2.1
0,,visit_times,2,100.00,2,100.00,20,100.00,0,0,0,,,00
0,,status_codes,2,100.00,2,100.00,20,100.00,0,0,0,,,2xx Success
1,0,status_codes,2,100.00,2,100.00,20,100.00,0,0,0,,,200

=====
the last day of three
-----
--keep-last=1|--log-format=COMMON|-o|csv|a.log
-----
192.0.2.1 - - [01/Jan/2024:00:00:00 +0000] \"GET /a HTTP/1.1\" 200 10
192.0.2.1 - - [02/Jan/2024:00:00:00 +0000] \"GET /a HTTP/1.1\" 200 10
192.0.2.1 - - [03/Jan/2024:00:00:00 +0000] \"GET /a HTTP/1.1\" 200 10

-----
0
id,parent_id,panel,hits,hits%,visitors,visitors%,bytes,bytes%,avgts,cumts,maxts,method,protocol,data
0,,general,3,,,,,,,,,,,total_requests
1,,general,1,,,,,,,,,,,valid_requests
2,,general,0,,,,,,,,,,,failed_requests
3,,general,0,,,,,,,,,,,excluded_hits
4,,general,1,,,,,,,,,,,unique_visitors
5,,general,10,,,,,,,,,,,bandwidth
0,,visitors,1,100.00,1,100.00,10,100.00,0,0,0,,,20240103
0,,requests,1,100.00,1,100.00,10,100.00,0,0,0,GET,HTTP/1.1,/a
0,,hosts,1,100.00,1,100.00,10,100.00,0,0,0,,,192.0.2.1
0,,visit_times,1,100.00,1,100.00,10,100.00,0,0,0,,,00
0,,status_codes,1,100.00,1,100.00,10,100.00,0,0,0,,,2xx Success
1,0,status_codes,1,100.00,1,100.00,10,100.00,0,0,0,,,200

=====
more days than there are
-----
--keep-last=4|--log-format=COMMON|-o|csv|a.log
-----
192.0.2.1 - - [01/Jan/2024:00:00:00 +0000] \"GET /a HTTP/1.1\" 200 10
192.0.2.1 - - [02/Jan/2024:00:00:00 +0000] \"GET /a HTTP/1.1\" 200 10
192.0.2.1 - - [03/Jan/2024:00:00:00 +0000] \"GET /a HTTP/1.1\" 200 10

-----
0
id,parent_id,panel,hits,hits%,visitors,visitors%,bytes,bytes%,avgts,cumts,maxts,method,protocol,data
0,,general,3,,,,,,,,,,,total_requests
1,,general,3,,,,,,,,,,,valid_requests
2,,general,0,,,,,,,,,,,failed_requests
3,,general,0,,,,,,,,,,,excluded_hits
4,,general,3,,,,,,,,,,,unique_visitors
5,,general,30,,,,,,,,,,,bandwidth
0,,visitors,1,33.33,1,33.33,10,33.33,0,0,0,,,20240103
1,,visitors,1,33.33,1,33.33,10,33.33,0,0,0,,,20240102
2,,visitors,1,33.33,1,33.33,10,33.33,0,0,0,,,20240101
0,,requests,3,100.00,3,100.00,30,100.00,0,0,0,GET,HTTP/1.1,/a
0,,hosts,3,100.00,3,100.00,30,100.00,0,0,0,,,192.0.2.1
0,,visit_times,3,100.00,3,100.00,30,100.00,0,0,0,,,00
0,,status_codes,3,100.00,3,100.00,30,100.00,0,0,0,,,2xx Success
1,0,status_codes,3,100.00,3,100.00,30,100.00,0,0,0,,,200

=====
more days in every panel than are kept, and not in the order of the log
-----
--log-format=%v %e %C %h [%x] %m %U %q %H %s %b \"%R\" \"%u\" %K %M %D|--date-format=%Y-%m-%d|--time-format= %H:%M:%S|--keep-last=2|-o|csv|a.log
-----
example.org ann HIT 192.0.2.1 [2024-03-01 08:00:00] GET /a - HTTP/1.1 200 10 \"https://www.google.com/search?q=new+word\" \"Mozilla/5.0 (Windows NT 10.0) Firefox/120.0\" TLSv1.3 text/html 100
old.org old OLD 192.0.2.9 [2023-12-30 01:00:00] POST /old - HTTP/1.1 500 10 \"https://www.google.de/search?q=old\" \"curl/1 Linux\" TLSv1.0 text/old 9000
old.org old OLD 192.0.2.9 [2023-12-30 01:00:00] POST /old.css - HTTP/1.1 200 10 \"https://www.google.de/search?q=old\" \"curl/1 Linux\" TLSv1.0 text/old 9000
old.org old OLD 192.0.2.9 [2023-12-30 01:00:00] POST /gone - HTTP/1.1 404 10 \"https://www.google.de/search?q=old\" \"curl/1 Linux\" TLSv1.0 text/old 9000
example.org ann HIT 192.0.2.1 [2024-02-29 08:00:00] GET /b.css - HTTP/1.1 200 10 \"https://www.google.com/search?q=new+word\" \"Mozilla/5.0 (Windows NT 10.0) Firefox/120.0\" TLSv1.3 text/html 50
example.org ann MISS ::1 [2024-02-29 23:59:00] GET /x - HTTP/1.1 404 10 \"https://www.google.com/search?q=new+word\" \"Mozilla/5.0 (Windows NT 10.0) Firefox/120.0\" TLSv1.3 text/html 7
old.org old OLD 192.0.2.9 [2023-12-31 01:00:00] POST /old - HTTP/1.1 500 10 \"https://www.google.de/search?q=old\" \"curl/1 Linux\" TLSv1.0 text/old 9000
old.org old OLD 192.0.2.9 [2023-12-31 01:00:00] POST /old.css - HTTP/1.1 200 10 \"https://www.google.de/search?q=old\" \"curl/1 Linux\" TLSv1.0 text/old 9000
old.org old OLD 192.0.2.9 [2023-12-31 01:00:00] POST /gone - HTTP/1.1 404 10 \"https://www.google.de/search?q=old\" \"curl/1 Linux\" TLSv1.0 text/old 9000
www.example.org ann HIT ::1 [2024-03-01 08:00:00] GET /b - HTTP/1.1 200 5 \"https://www.google.com/search?q=new+word\" \"Mozilla/5.0 (Windows NT 10.0) Firefox/120.0\" TLSv1.2 image/png 300
broken

-----
0
id,parent_id,panel,hits,hits%,visitors,visitors%,bytes,bytes%,avgts,cumts,maxts,method,protocol,data
0,,general,11,,,,,,,,,,,total_requests
1,,general,4,,,,,,,,,,,valid_requests
2,,general,1,,,,,,,,,,,failed_requests
3,,general,0,,,,,,,,,,,excluded_hits
4,,general,3,,,,,,,,,,,unique_visitors
5,,general,35,,,,,,,,,,,bandwidth
0,,visitors,2,50.00,2,66.67,15,42.86,200,400,300,,,20240301
1,,visitors,2,50.00,1,33.33,20,57.14,28,57,50,,,20240229
0,,requests,1,25.00,1,33.33,10,28.57,100,100,100,GET,HTTP/1.1,/a
1,,requests,1,25.00,1,33.33,5,14.29,300,300,300,GET,HTTP/1.1,/b
0,,requests_static,1,25.00,1,33.33,10,28.57,50,50,50,GET,HTTP/1.1,/b.css
0,,not_found,1,25.00,0,0.00,10,28.57,7,7,7,GET,HTTP/1.1,/x
0,,hosts,2,50.00,2,66.67,20,57.14,75,150,100,,,192.0.2.1
1,,hosts,2,50.00,1,33.33,15,42.86,153,307,300,,,::1
0,,os,4,100.00,3,100.00,35,100.00,114,457,300,,,Windows
1,0,os,4,100.00,3,100.00,35,100.00,114,457,300,,,Windows 10
0,,browsers,4,100.00,3,100.00,35,100.00,114,457,300,,,Firefox
1,0,browsers,4,100.00,3,100.00,35,100.00,114,457,300,,,Firefox/120.0
0,,visit_times,3,75.00,3,100.00,25,71.43,150,450,300,,,08
1,,visit_times,1,25.00,0,0.00,10,28.57,7,7,7,,,23
0,,virtual_hosts,3,75.00,2,66.67,30,85.71,52,157,100,,,example.org
1,,virtual_hosts,1,25.00,1,33.33,5,14.29,300,300,300,,,www.example.org
0,,referrers,4,100.00,3,100.00,35,100.00,114,457,300,,,https://www.google.com/search?q=new+word
0,,referring_sites,4,100.00,3,100.00,35,100.00,114,457,300,,,www.google.com
0,,keyphrases,4,100.00,3,100.00,35,100.00,114,457,300,,,new word
0,,status_codes,3,75.00,3,100.00,25,71.43,150,450,300,,,2xx Success
1,0,status_codes,3,75.00,3,100.00,25,71.43,150,450,300,,,200
2,,status_codes,1,25.00,0,0.00,10,28.57,7,7,7,,,4xx Client Errors
3,2,status_codes,1,25.00,0,0.00,10,28.57,7,7,7,,,404
0,,remote_user,4,100.00,3,100.00,35,100.00,114,457,300,,,ann
0,,cache_status,3,75.00,3,100.00,25,71.43,150,450,300,,,HIT
1,,cache_status,1,25.00,0,0.00,10,28.57,7,7,7,,,MISS
0,,mime_type,3,75.00,2,66.67,30,85.71,52,157,100,,,text
1,0,mime_type,3,75.00,2,66.67,30,85.71,52,157,100,,,text/html
2,,mime_type,1,25.00,1,33.33,5,14.29,300,300,300,,,image
3,2,mime_type,1,25.00,1,33.33,5,14.29,300,300,300,,,image/png
0,,tls_type,3,75.00,2,66.67,30,85.71,52,157,100,,,TLSv1.3
1,,tls_type,1,25.00,1,33.33,5,14.29,300,300,300,,,TLSv1.2

=====
one row a panel of the last two days
-----
--log-format=%v %e %C %h [%x] %m %U %q %H %s %b \"%R\" \"%u\" %K %M %D|--date-format=%Y-%m-%d|--time-format= %H:%M:%S|--keep-last=2|--max-items=1|-o|csv|a.log
-----
example.org ann HIT 192.0.2.1 [2024-03-01 08:00:00] GET /a - HTTP/1.1 200 10 \"https://www.google.com/search?q=new+word\" \"Mozilla/5.0 (Windows NT 10.0) Firefox/120.0\" TLSv1.3 text/html 100
old.org old OLD 192.0.2.9 [2023-12-30 01:00:00] POST /old - HTTP/1.1 500 10 \"https://www.google.de/search?q=old\" \"curl/1 Linux\" TLSv1.0 text/old 9000
old.org old OLD 192.0.2.9 [2023-12-30 01:00:00] POST /old.css - HTTP/1.1 200 10 \"https://www.google.de/search?q=old\" \"curl/1 Linux\" TLSv1.0 text/old 9000
old.org old OLD 192.0.2.9 [2023-12-30 01:00:00] POST /gone - HTTP/1.1 404 10 \"https://www.google.de/search?q=old\" \"curl/1 Linux\" TLSv1.0 text/old 9000
example.org ann HIT 192.0.2.1 [2024-02-29 08:00:00] GET /b.css - HTTP/1.1 200 10 \"https://www.google.com/search?q=new+word\" \"Mozilla/5.0 (Windows NT 10.0) Firefox/120.0\" TLSv1.3 text/html 50
example.org ann MISS ::1 [2024-02-29 23:59:00] GET /x - HTTP/1.1 404 10 \"https://www.google.com/search?q=new+word\" \"Mozilla/5.0 (Windows NT 10.0) Firefox/120.0\" TLSv1.3 text/html 7
old.org old OLD 192.0.2.9 [2023-12-31 01:00:00] POST /old - HTTP/1.1 500 10 \"https://www.google.de/search?q=old\" \"curl/1 Linux\" TLSv1.0 text/old 9000
old.org old OLD 192.0.2.9 [2023-12-31 01:00:00] POST /old.css - HTTP/1.1 200 10 \"https://www.google.de/search?q=old\" \"curl/1 Linux\" TLSv1.0 text/old 9000
old.org old OLD 192.0.2.9 [2023-12-31 01:00:00] POST /gone - HTTP/1.1 404 10 \"https://www.google.de/search?q=old\" \"curl/1 Linux\" TLSv1.0 text/old 9000
www.example.org ann HIT ::1 [2024-03-01 08:00:00] GET /b - HTTP/1.1 200 5 \"https://www.google.com/search?q=new+word\" \"Mozilla/5.0 (Windows NT 10.0) Firefox/120.0\" TLSv1.2 image/png 300
broken

-----
0
id,parent_id,panel,hits,hits%,visitors,visitors%,bytes,bytes%,avgts,cumts,maxts,method,protocol,data
0,,general,11,,,,,,,,,,,total_requests
1,,general,4,,,,,,,,,,,valid_requests
2,,general,1,,,,,,,,,,,failed_requests
3,,general,0,,,,,,,,,,,excluded_hits
4,,general,3,,,,,,,,,,,unique_visitors
5,,general,35,,,,,,,,,,,bandwidth
0,,visitors,2,50.00,2,66.67,15,42.86,200,400,300,,,20240301
0,,requests,1,25.00,1,33.33,10,28.57,100,100,100,GET,HTTP/1.1,/a
0,,requests_static,1,25.00,1,33.33,10,28.57,50,50,50,GET,HTTP/1.1,/b.css
0,,not_found,1,25.00,0,0.00,10,28.57,7,7,7,GET,HTTP/1.1,/x
0,,hosts,2,50.00,2,66.67,20,57.14,75,150,100,,,192.0.2.1
0,,os,4,100.00,3,100.00,35,100.00,114,457,300,,,Windows
1,0,os,4,100.00,3,100.00,35,100.00,114,457,300,,,Windows 10
0,,browsers,4,100.00,3,100.00,35,100.00,114,457,300,,,Firefox
1,0,browsers,4,100.00,3,100.00,35,100.00,114,457,300,,,Firefox/120.0
0,,visit_times,3,75.00,3,100.00,25,71.43,150,450,300,,,08
0,,virtual_hosts,3,75.00,2,66.67,30,85.71,52,157,100,,,example.org
0,,referrers,4,100.00,3,100.00,35,100.00,114,457,300,,,https://www.google.com/search?q=new+word
0,,referring_sites,4,100.00,3,100.00,35,100.00,114,457,300,,,www.google.com
0,,keyphrases,4,100.00,3,100.00,35,100.00,114,457,300,,,new word
0,,status_codes,3,75.00,3,100.00,25,71.43,150,450,300,,,2xx Success
1,0,status_codes,3,75.00,3,100.00,25,71.43,150,450,300,,,200
0,,remote_user,4,100.00,3,100.00,35,100.00,114,457,300,,,ann
0,,cache_status,3,75.00,3,100.00,25,71.43,150,450,300,,,HIT
0,,mime_type,3,75.00,2,66.67,30,85.71,52,157,100,,,text
1,0,mime_type,3,75.00,2,66.67,30,85.71,52,157,100,,,text/html
0,,tls_type,3,75.00,2,66.67,30,85.71,52,157,100,,,TLSv1.3

=====
the last two days by four jobs, and the last of several numbers counts
-----
--log-format=%v %e %C %h [%x] %m %U %q %H %s %b \"%R\" \"%u\" %K %M %D|--date-format=%Y-%m-%d|--time-format= %H:%M:%S|--keep-last=1|--jobs=4|--chunk-size=1|--keep-last|2|a.log
-----
example.org ann HIT 192.0.2.1 [2024-03-01 08:00:00] GET /a - HTTP/1.1 200 10 \"https://www.google.com/search?q=new+word\" \"Mozilla/5.0 (Windows NT 10.0) Firefox/120.0\" TLSv1.3 text/html 100
old.org old OLD 192.0.2.9 [2023-12-30 01:00:00] POST /old - HTTP/1.1 500 10 \"https://www.google.de/search?q=old\" \"curl/1 Linux\" TLSv1.0 text/old 9000
old.org old OLD 192.0.2.9 [2023-12-30 01:00:00] POST /old.css - HTTP/1.1 200 10 \"https://www.google.de/search?q=old\" \"curl/1 Linux\" TLSv1.0 text/old 9000
old.org old OLD 192.0.2.9 [2023-12-30 01:00:00] POST /gone - HTTP/1.1 404 10 \"https://www.google.de/search?q=old\" \"curl/1 Linux\" TLSv1.0 text/old 9000
example.org ann HIT 192.0.2.1 [2024-02-29 08:00:00] GET /b.css - HTTP/1.1 200 10 \"https://www.google.com/search?q=new+word\" \"Mozilla/5.0 (Windows NT 10.0) Firefox/120.0\" TLSv1.3 text/html 50
example.org ann MISS ::1 [2024-02-29 23:59:00] GET /x - HTTP/1.1 404 10 \"https://www.google.com/search?q=new+word\" \"Mozilla/5.0 (Windows NT 10.0) Firefox/120.0\" TLSv1.3 text/html 7
old.org old OLD 192.0.2.9 [2023-12-31 01:00:00] POST /old - HTTP/1.1 500 10 \"https://www.google.de/search?q=old\" \"curl/1 Linux\" TLSv1.0 text/old 9000
old.org old OLD 192.0.2.9 [2023-12-31 01:00:00] POST /old.css - HTTP/1.1 200 10 \"https://www.google.de/search?q=old\" \"curl/1 Linux\" TLSv1.0 text/old 9000
old.org old OLD 192.0.2.9 [2023-12-31 01:00:00] POST /gone - HTTP/1.1 404 10 \"https://www.google.de/search?q=old\" \"curl/1 Linux\" TLSv1.0 text/old 9000
www.example.org ann HIT ::1 [2024-03-01 08:00:00] GET /b - HTTP/1.1 200 5 \"https://www.google.com/search?q=new+word\" \"Mozilla/5.0 (Windows NT 10.0) Firefox/120.0\" TLSv1.2 image/png 300
broken

-----
0
{\"browsers\":{\"data\":[{\"avgts\":114,\"bytes\":{\"count\":35,\"percent\":\"100.00\"},\"cumts\":457,\"data\":\"Firefox\",\"hits\":{\"count\":4,\"percent\":\"100.00\"},\"items\":[{\"avgts\":114,\"bytes\":{\"count\":35,\"percent\":\"100.00\"},\"cumts\":457,\"data\":\"Firefox/120.0\",\"hits\":{\"count\":4,\"percent\":\"100.00\"},\"maxts\":300,\"visitors\":{\"count\":3,\"percent\":\"100.00\"}}],\"maxts\":300,\"visitors\":{\"count\":3,\"percent\":\"100.00\"}}]},\"cache_status\":{\"data\":[{\"avgts\":150,\"bytes\":{\"count\":25,\"percent\":\"71.43\"},\"cumts\":450,\"data\":\"HIT\",\"hits\":{\"count\":3,\"percent\":\"75.00\"},\"maxts\":300,\"visitors\":{\"count\":3,\"percent\":\"100.00\"}},{\"avgts\":7,\"bytes\":{\"count\":10,\"percent\":\"28.57\"},\"cumts\":7,\"data\":\"MISS\",\"hits\":{\"count\":1,\"percent\":\"25.00\"},\"maxts\":7,\"visitors\":{\"count\":0,\"percent\":\"0.00\"}}]},\"general\":{\"bandwidth\":35,\"excluded_hits\":0,\"failed_requests\":1,\"total_requests\":11,\"unique_visitors\":3,\"valid_requests\":4},\"hosts\":{\"data\":[{\"avgts\":75,\"bytes\":{\"count\":20,\"percent\":\"57.14\"},\"cumts\":150,\"data\":\"192.0.2.1\",\"hits\":{\"count\":2,\"percent\":\"50.00\"},\"maxts\":100,\"visitors\":{\"count\":2,\"percent\":\"66.67\"}},{\"avgts\":153,\"bytes\":{\"count\":15,\"percent\":\"42.86\"},\"cumts\":307,\"data\":\"::1\",\"hits\":{\"count\":2,\"percent\":\"50.00\"},\"maxts\":300,\"visitors\":{\"count\":1,\"percent\":\"33.33\"}}]},\"keyphrases\":{\"data\":[{\"avgts\":114,\"bytes\":{\"count\":35,\"percent\":\"100.00\"},\"cumts\":457,\"data\":\"new word\",\"hits\":{\"count\":4,\"percent\":\"100.00\"},\"maxts\":300,\"visitors\":{\"count\":3,\"percent\":\"100.00\"}}]},\"mime_type\":{\"data\":[{\"avgts\":52,\"bytes\":{\"count\":30,\"percent\":\"85.71\"},\"cumts\":157,\"data\":\"text\",\"hits\":{\"count\":3,\"percent\":\"75.00\"},\"items\":[{\"avgts\":52,\"bytes\":{\"count\":30,\"percent\":\"85.71\"},\"cumts\":157,\"data\":\"text/html\",\"hits\":{\"count\":3,\"percent\":\"75.00\"},\"maxts\":100,\"visitors\":{\"count\":2,\"percent\":\"66.67\"}}],\"maxts\":100,\"visitors\":{\"count\":2,\"percent\":\"66.67\"}},{\"avgts\":300,\"bytes\":{\"count\":5,\"percent\":\"14.29\"},\"cumts\":300,\"data\":\"image\",\"hits\":{\"count\":1,\"percent\":\"25.00\"},\"items\":[{\"avgts\":300,\"bytes\":{\"count\":5,\"percent\":\"14.29\"},\"cumts\":300,\"data\":\"image/png\",\"hits\":{\"count\":1,\"percent\":\"25.00\"},\"maxts\":300,\"visitors\":{\"count\":1,\"percent\":\"33.33\"}}],\"maxts\":300,\"visitors\":{\"count\":1,\"percent\":\"33.33\"}}]},\"not_found\":{\"data\":[{\"avgts\":7,\"bytes\":{\"count\":10,\"percent\":\"28.57\"},\"cumts\":7,\"data\":\"/x\",\"hits\":{\"count\":1,\"percent\":\"25.00\"},\"maxts\":7,\"method\":\"GET\",\"protocol\":\"HTTP/1.1\",\"visitors\":{\"count\":0,\"percent\":\"0.00\"}}]},\"os\":{\"data\":[{\"avgts\":114,\"bytes\":{\"count\":35,\"percent\":\"100.00\"},\"cumts\":457,\"data\":\"Windows\",\"hits\":{\"count\":4,\"percent\":\"100.00\"},\"items\":[{\"avgts\":114,\"bytes\":{\"count\":35,\"percent\":\"100.00\"},\"cumts\":457,\"data\":\"Windows 10\",\"hits\":{\"count\":4,\"percent\":\"100.00\"},\"maxts\":300,\"visitors\":{\"count\":3,\"percent\":\"100.00\"}}],\"maxts\":300,\"visitors\":{\"count\":3,\"percent\":\"100.00\"}}]},\"referrers\":{\"data\":[{\"avgts\":114,\"bytes\":{\"count\":35,\"percent\":\"100.00\"},\"cumts\":457,\"data\":\"https://www.google.com/search?q=new+word\",\"hits\":{\"count\":4,\"percent\":\"100.00\"},\"maxts\":300,\"visitors\":{\"count\":3,\"percent\":\"100.00\"}}]},\"referring_sites\":{\"data\":[{\"avgts\":114,\"bytes\":{\"count\":35,\"percent\":\"100.00\"},\"cumts\":457,\"data\":\"www.google.com\",\"hits\":{\"count\":4,\"percent\":\"100.00\"},\"maxts\":300,\"visitors\":{\"count\":3,\"percent\":\"100.00\"}}]},\"remote_user\":{\"data\":[{\"avgts\":114,\"bytes\":{\"count\":35,\"percent\":\"100.00\"},\"cumts\":457,\"data\":\"ann\",\"hits\":{\"count\":4,\"percent\":\"100.00\"},\"maxts\":300,\"visitors\":{\"count\":3,\"percent\":\"100.00\"}}]},\"requests\":{\"data\":[{\"avgts\":100,\"bytes\":{\"count\":10,\"percent\":\"28.57\"},\"cumts\":100,\"data\":\"/a\",\"hits\":{\"count\":1,\"percent\":\"25.00\"},\"maxts\":100,\"method\":\"GET\",\"protocol\":\"HTTP/1.1\",\"visitors\":{\"count\":1,\"percent\":\"33.33\"}},{\"avgts\":300,\"bytes\":{\"count\":5,\"percent\":\"14.29\"},\"cumts\":300,\"data\":\"/b\",\"hits\":{\"count\":1,\"percent\":\"25.00\"},\"maxts\":300,\"method\":\"GET\",\"protocol\":\"HTTP/1.1\",\"visitors\":{\"count\":1,\"percent\":\"33.33\"}}]},\"requests_static\":{\"data\":[{\"avgts\":50,\"bytes\":{\"count\":10,\"percent\":\"28.57\"},\"cumts\":50,\"data\":\"/b.css\",\"hits\":{\"count\":1,\"percent\":\"25.00\"},\"maxts\":50,\"method\":\"GET\",\"protocol\":\"HTTP/1.1\",\"visitors\":{\"count\":1,\"percent\":\"33.33\"}}]},\"status_codes\":{\"data\":[{\"avgts\":150,\"bytes\":{\"count\":25,\"percent\":\"71.43\"},\"cumts\":450,\"data\":\"2xx Success\",\"hits\":{\"count\":3,\"percent\":\"75.00\"},\"items\":[{\"avgts\":150,\"bytes\":{\"count\":25,\"percent\":\"71.43\"},\"cumts\":450,\"data\":\"200\",\"hits\":{\"count\":3,\"percent\":\"75.00\"},\"maxts\":300,\"visitors\":{\"count\":3,\"percent\":\"100.00\"}}],\"maxts\":300,\"visitors\":{\"count\":3,\"percent\":\"100.00\"}},{\"avgts\":7,\"bytes\":{\"count\":10,\"percent\":\"28.57\"},\"cumts\":7,\"data\":\"4xx Client Errors\",\"hits\":{\"count\":1,\"percent\":\"25.00\"},\"items\":[{\"avgts\":7,\"bytes\":{\"count\":10,\"percent\":\"28.57\"},\"cumts\":7,\"data\":\"404\",\"hits\":{\"count\":1,\"percent\":\"25.00\"},\"maxts\":7,\"visitors\":{\"count\":0,\"percent\":\"0.00\"}}],\"maxts\":7,\"visitors\":{\"count\":0,\"percent\":\"0.00\"}}]},\"tls_type\":{\"data\":[{\"avgts\":52,\"bytes\":{\"count\":30,\"percent\":\"85.71\"},\"cumts\":157,\"data\":\"TLSv1.3\",\"hits\":{\"count\":3,\"percent\":\"75.00\"},\"maxts\":100,\"visitors\":{\"count\":2,\"percent\":\"66.67\"}},{\"avgts\":300,\"bytes\":{\"count\":5,\"percent\":\"14.29\"},\"cumts\":300,\"data\":\"TLSv1.2\",\"hits\":{\"count\":1,\"percent\":\"25.00\"},\"maxts\":300,\"visitors\":{\"count\":1,\"percent\":\"33.33\"}}]},\"virtual_hosts\":{\"data\":[{\"avgts\":52,\"bytes\":{\"count\":30,\"percent\":\"85.71\"},\"cumts\":157,\"data\":\"example.org\",\"hits\":{\"count\":3,\"percent\":\"75.00\"},\"maxts\":100,\"visitors\":{\"count\":2,\"percent\":\"66.67\"}},{\"avgts\":300,\"bytes\":{\"count\":5,\"percent\":\"14.29\"},\"cumts\":300,\"data\":\"www.example.org\",\"hits\":{\"count\":1,\"percent\":\"25.00\"},\"maxts\":300,\"visitors\":{\"count\":1,\"percent\":\"33.33\"}}]},\"visit_times\":{\"data\":[{\"avgts\":150,\"bytes\":{\"count\":25,\"percent\":\"71.43\"},\"cumts\":450,\"data\":\"08\",\"hits\":{\"count\":3,\"percent\":\"75.00\"},\"maxts\":300,\"visitors\":{\"count\":3,\"percent\":\"100.00\"}},{\"avgts\":7,\"bytes\":{\"count\":10,\"percent\":\"28.57\"},\"cumts\":7,\"data\":\"23\",\"hits\":{\"count\":1,\"percent\":\"25.00\"},\"maxts\":7,\"visitors\":{\"count\":0,\"percent\":\"0.00\"}}]},\"visitors\":{\"data\":[{\"avgts\":200,\"bytes\":{\"count\":15,\"percent\":\"42.86\"},\"cumts\":400,\"data\":\"20240301\",\"hits\":{\"count\":2,\"percent\":\"50.00\"},\"maxts\":300,\"visitors\":{\"count\":2,\"percent\":\"66.67\"}},{\"avgts\":28,\"bytes\":{\"count\":20,\"percent\":\"57.14\"},\"cumts\":57,\"data\":\"20240229\",\"hits\":{\"count\":2,\"percent\":\"50.00\"},\"maxts\":50,\"visitors\":{\"count\":1,\"percent\":\"33.33\"}}]}}

=====
a last day of lines that make no visitor
-----
--keep-last=1|--ignore-panel=REQUESTS|--ignore-panel=REQUESTS_STATIC|--ignore-panel=HOSTS|--ignore-panel=OS|--ignore-panel=BROWSERS|--ignore-panel=VISIT_TIMES|--ignore-panel=VIRTUAL_HOSTS|--ignore-panel=REFERRERS|--ignore-panel=REFERRING_SITES|--ignore-panel=KEYPHRASES|--ignore-panel=STATUS_CODES|--ignore-panel=REMOTE_USER|--ignore-panel=CACHE_STATUS|--ignore-panel=MIME_TYPE|--ignore-panel=TLS_TYPE|--log-format=COMMON|-o|csv|a.log
-----
192.0.2.1 - - [01/Jan/2024:00:00:00 +0000] \"GET /a HTTP/1.1\" 200 10
192.0.2.1 - - [02/Jan/2024:00:00:00 +0000] \"GET /a HTTP/1.1\" 200 10
192.0.2.1 - - [03/Jan/2024:00:00:00 +0000] \"GET /a HTTP/1.1\" 200 10
192.0.2.1 - - [04/Jan/2024:00:00:00 +0000] \"GET /x HTTP/1.1\" 404 10

-----
0
id,parent_id,panel,hits,hits%,visitors,visitors%,bytes,bytes%,avgts,cumts,maxts,method,protocol,data
0,,general,4,,,,,,,,,,,total_requests
1,,general,1,,,,,,,,,,,valid_requests
2,,general,0,,,,,,,,,,,failed_requests
3,,general,0,,,,,,,,,,,excluded_hits
4,,general,0,,,,,,,,,,,unique_visitors
5,,general,10,,,,,,,,,,,bandwidth
0,,visitors,1,100.00,0,0.00,10,100.00,0,0,0,,,20240104
0,,not_found,1,100.00,0,0.00,10,100.00,0,0,0,GET,HTTP/1.1,/x

=====
no day
-----
--keep-last=1|--log-format=COMMON|-o|csv|a.log
-----
broken

-----
0
id,parent_id,panel,hits,hits%,visitors,visitors%,bytes,bytes%,avgts,cumts,maxts,method,protocol,data
0,,general,1,,,,,,,,,,,total_requests
1,,general,0,,,,,,,,,,,valid_requests
2,,general,1,,,,,,,,,,,failed_requests
3,,general,0,,,,,,,,,,,excluded_hits
4,,general,0,,,,,,,,,,,unique_visitors
5,,general,0,,,,,,,,,,,bandwidth

=====
the last three days of the generator's lines
-----
--generate=300|--keep-last=3|--max-items=2|--jobs=4
-----

-----
0
generated 300
valid 30
failed 0
visitors 26
bandwidth 4560
report 9f4d3c3a7043466fa454c1a1d6ad473da3cbd06f5fe0a6353c09d6357b8362ac
";
