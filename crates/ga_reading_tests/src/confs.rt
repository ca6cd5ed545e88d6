use ga_base::{NoMemory, Texts};
use ga_cases::hold;
use ga_conf::read_conf;
use std::alloc::Global;
use std::test::Fail;

/// Configuration files, and the words that each gives, with bars after them, or its fault. In a file `;` represents a line feed,
/// `!` a byte that no UTF-8 text has, and `*` a thousand and twenty-four bytes.
const FILES: &str = "\
## options with values, in their order
log-format COMBINED;date-format %d/%b/%Y; => --log-format=COMBINED|--date-format=%d/%b/%Y|
exclude-ip 192.0.2.1;exclude-ip 192.0.2.5-192.0.2.9; => --exclude-ip=192.0.2.1|--exclude-ip=192.0.2.5-192.0.2.9|
jobs 2;jobs 4 => --jobs=2|--jobs=4|
log-format %h %^[%d:%t %^] \"%r\" %s %b; => --log-format=%h %^[%d:%t %^] \"%r\" %s %b|
db-path=/x => line 1: not a setting
## flags
persist true;restore false;all-static-files true; => --persist|--all-static-files|
persist; => line 1: not a setting
persist yes; => line 1: not a setting
persist TRUE; => line 1: not a setting
## spaces and tabs
 \tjobs\t \t2 \t; => --jobs=2|
jobs  2;;\t ; => --jobs=2|
static-file a b  ; => --static-file=a b|
## lines and their ends
jobs 2\r;persist true\r; => --jobs=2|--persist|
jobs 2\r => line 1: not a setting
jobs 2\r\r; => line 1: not a setting
 => 
; => 
## comments
# x;#jobs 17; \t# x;jobs 2 # x; => line 4: not a setting
#é;# x => 
## settings of others
hl-header true;color-scheme 3;no-color;html-prefs {\"theme\":\"bright\"};agent-list false;4 x;- => 
config-file other.conf;json-pretty-print true;o csv => 
# Colours;#color-scheme 2;color-scheme 1;hl-header true;json-pretty-print false;no-color false;http-method yes;no-query-string false;444-as-404 false;double-decode false;ignore-panel REFERRERS;ignore-panel KEYPHRASES;real-os true;static-file .css;static-file .js; => --ignore-panel=REFERRERS|--ignore-panel=KEYPHRASES|--static-file=.css|--static-file=.js|
## names that are none
Jobs 2; => line 1: not a setting
jobs_ 2; => line 1: not a setting
--jobs 2; => 
é 2; => line 1: not a setting
## names that are refused
generate 5; => line 1: not a setting
generate; => line 1: not a setting
jobs 2;log-file access.log; => line 2: not a setting
## values that an option doesn't take
# x;jobs 17; => line 2: not a setting
jobs; => line 1: not a setting
jobs +2; => line 1: not a setting
static-file; => line 1: not a setting
output x.txt; => line 1: not a setting
output r.csv;date-spec hr; => --output=r.csv|--date-spec=hr|
ignore-panel hosts; => line 1: not a setting
## a format may be empty
log-format;time-format \t; => --log-format=|--time-format=|
## text, and its length
jobs 2;# !; => line 2: not a setting
static-file é; => --static-file=é|
#***; => 
#***x => 
x***xxxxxxxxxxxxxxxxx => 
;#****; => line 2: not a setting
#****\r; => line 1: not a setting
";

/// The bytes of a case's file.
pub(crate) fn file_of(alloc: Global, text: &str) -> Result<Vec<u8>, NoMemory> {
    let mut file = Vec::new(alloc);
    for byte in text.bytes() {
        match byte {
            b';' => file.push(b'\n')?,
            b'!' => file.push(0xff)?,
            b'*' => {
                for _ in 0..1_024 {
                    file.push(b'x')?;
                }
            }
            other => file.push(other)?,
        }
    }
    Ok(file)
}

/// Words with bars after them.
fn shown(alloc: Global, words: &Texts) -> Result<String, Fail> {
    let mut shown = String::new(alloc);
    for word in words.items() {
        shown.push_str(word.as_str())?;
        shown.push('|')?;
    }
    Ok(shown)
}

/// What a file gives.
fn given(alloc: Global, file: &str) -> Result<String, Fail> {
    match read_conf(alloc, &file_of(alloc, file)?) {
        Ok(words) => shown(alloc, &words),
        Err(fault) => Ok(format!(in alloc; "{fault}")?),
    }
}

#[test]
fn configuration_files_give_words_or_a_fault(rt: HostRuntime) -> Result<(), Fail> {
    hold(rt.alloc(), FILES, given)
}
