//! Reports that were worked out by a program in another language: those of `tracked_runs_answer_as_worked_out`.

/// One line, for `/a`.
pub const ONE_LINE: &str = "\
id,parent_id,panel,hits,hits%,visitors,visitors%,bytes,bytes%,avgts,cumts,maxts,method,protocol,data
0,,general,1,,,,,,,,,,,total_requests
1,,general,1,,,,,,,,,,,valid_requests
2,,general,0,,,,,,,,,,,failed_requests
3,,general,0,,,,,,,,,,,excluded_hits
4,,general,1,,,,,,,,,,,unique_visitors
5,,general,10,,,,,,,,,,,bandwidth
0,,visitors,1,100.00,1,100.00,10,100.00,0,0,0,,,20240101
0,,requests,1,100.00,1,100.00,10,100.00,0,0,0,GET,HTTP/1.1,/a
0,,hosts,1,100.00,1,100.00,10,100.00,0,0,0,,,192.0.2.1
0,,visit_times,1,100.00,1,100.00,10,100.00,0,0,0,,,00
0,,status_codes,1,100.00,1,100.00,10,100.00,0,0,0,,,2xx Success
1,0,status_codes,1,100.00,1,100.00,10,100.00,0,0,0,,,200
";

/// Two lines, for `/a` and `/b`.
pub const TWO_LINES: &str = "\
id,parent_id,panel,hits,hits%,visitors,visitors%,bytes,bytes%,avgts,cumts,maxts,method,protocol,data
0,,general,2,,,,,,,,,,,total_requests
1,,general,2,,,,,,,,,,,valid_requests
2,,general,0,,,,,,,,,,,failed_requests
3,,general,0,,,,,,,,,,,excluded_hits
4,,general,1,,,,,,,,,,,unique_visitors
5,,general,20,,,,,,,,,,,bandwidth
0,,visitors,2,100.00,1,100.00,20,100.00,0,0,0,,,20240101
0,,requests,1,50.00,1,100.00,10,50.00,0,0,0,GET,HTTP/1.1,/a
1,,requests,1,50.00,1,100.00,10,50.00,0,0,0,GET,HTTP/1.1,/b
0,,hosts,2,100.00,1,100.00,20,100.00,0,0,0,,,192.0.2.1
0,,visit_times,2,100.00,1,100.00,20,100.00,0,0,0,,,00
0,,status_codes,2,100.00,1,100.00,20,100.00,0,0,0,,,2xx Success
1,0,status_codes,2,100.00,1,100.00,20,100.00,0,0,0,,,200
";

/// Four lines, for `/a` to `/d`.
pub const FOUR_LINES: &str = "\
id,parent_id,panel,hits,hits%,visitors,visitors%,bytes,bytes%,avgts,cumts,maxts,method,protocol,data
0,,general,4,,,,,,,,,,,total_requests
1,,general,4,,,,,,,,,,,valid_requests
2,,general,0,,,,,,,,,,,failed_requests
3,,general,0,,,,,,,,,,,excluded_hits
4,,general,1,,,,,,,,,,,unique_visitors
5,,general,40,,,,,,,,,,,bandwidth
0,,visitors,4,100.00,1,100.00,40,100.00,0,0,0,,,20240101
0,,requests,1,25.00,1,100.00,10,25.00,0,0,0,GET,HTTP/1.1,/a
1,,requests,1,25.00,1,100.00,10,25.00,0,0,0,GET,HTTP/1.1,/b
2,,requests,1,25.00,1,100.00,10,25.00,0,0,0,GET,HTTP/1.1,/c
3,,requests,1,25.00,1,100.00,10,25.00,0,0,0,GET,HTTP/1.1,/d
0,,hosts,4,100.00,1,100.00,40,100.00,0,0,0,,,192.0.2.1
0,,visit_times,4,100.00,1,100.00,40,100.00,0,0,0,,,00
0,,status_codes,4,100.00,1,100.00,40,100.00,0,0,0,,,2xx Success
1,0,status_codes,4,100.00,1,100.00,40,100.00,0,0,0,,,200
";

/// Five lines, for `/a` to `/e`.
pub const FIVE_LINES: &str = "\
id,parent_id,panel,hits,hits%,visitors,visitors%,bytes,bytes%,avgts,cumts,maxts,method,protocol,data
0,,general,5,,,,,,,,,,,total_requests
1,,general,5,,,,,,,,,,,valid_requests
2,,general,0,,,,,,,,,,,failed_requests
3,,general,0,,,,,,,,,,,excluded_hits
4,,general,1,,,,,,,,,,,unique_visitors
5,,general,50,,,,,,,,,,,bandwidth
0,,visitors,5,100.00,1,100.00,50,100.00,0,0,0,,,20240101
0,,requests,1,20.00,1,100.00,10,20.00,0,0,0,GET,HTTP/1.1,/a
1,,requests,1,20.00,1,100.00,10,20.00,0,0,0,GET,HTTP/1.1,/b
2,,requests,1,20.00,1,100.00,10,20.00,0,0,0,GET,HTTP/1.1,/c
3,,requests,1,20.00,1,100.00,10,20.00,0,0,0,GET,HTTP/1.1,/d
4,,requests,1,20.00,1,100.00,10,20.00,0,0,0,GET,HTTP/1.1,/e
0,,hosts,5,100.00,1,100.00,50,100.00,0,0,0,,,192.0.2.1
0,,visit_times,5,100.00,1,100.00,50,100.00,0,0,0,,,00
0,,status_codes,5,100.00,1,100.00,50,100.00,0,0,0,,,2xx Success
1,0,status_codes,5,100.00,1,100.00,50,100.00,0,0,0,,,200
";
