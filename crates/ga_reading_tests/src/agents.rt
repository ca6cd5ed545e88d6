use ga_agents::Rules;
use ga_base::Text;
use ga_cases::hold;
use std::alloc::Global;
use std::test::Fail;

/// Agents, and what the built-in rules tell of each: its browser, category, system and group.
const AGENTS: &str = "\
## browsers on desktops
Mozilla/5.0 (Windows NT 10.0; Win64; x64) AppleWebKit/537.36 (KHTML, like Gecko) Chrome/120.0.0.0 Safari/537.36 => Chrome/120.0.0.0|Chrome|Windows 10|Windows
Mozilla/5.0 (Windows NT 10.0; Win64; x64) AppleWebKit/537.36 (KHTML, like Gecko) Chrome/120.0.0.0 Safari/537.36 Edg/120.0.2210.91 => Edg/120.0.2210.91|Edge|Windows 10|Windows
Mozilla/5.0 (Windows NT 6.1; Win64; x64) AppleWebKit/537.36 (KHTML, like Gecko) Chrome/119.0.0.0 Safari/537.36 OPR/105.0.0.0 => OPR/105.0.0.0|Opera|Windows 7|Windows
Opera/9.80 (Windows NT 6.0) Presto/2.12.388 Version/12.14 => Opera/9.80|Opera|Windows Vista|Windows
Mozilla/5.0 (Macintosh; Intel Mac OS X 10_15_7) AppleWebKit/605.1.15 (KHTML, like Gecko) Version/17.2 Safari/605.1.15 => Safari/605.1.15|Safari|macOS|macOS
Mozilla/5.0 (X11; Ubuntu; Linux x86_64; rv:121.0) Gecko/20100101 Firefox/121.0 => Firefox/121.0|Firefox|Ubuntu|Linux
Mozilla/5.0 (X11; Linux x86_64) AppleWebKit/537.36 (KHTML, like Gecko) Chrome/120.0.0.0 Safari/537.36 => Chrome/120.0.0.0|Chrome|Linux|Linux
Mozilla/5.0 (X11; CrOS x86_64 14541.0.0) AppleWebKit/537.36 (KHTML, like Gecko) Chrome/120.0.0.0 Safari/537.36 => Chrome/120.0.0.0|Chrome|Chrome OS|Chrome OS
Mozilla/5.0 (X11; OpenBSD amd64; rv:109.0) Gecko/20100101 Firefox/118.0 => Firefox/118.0|Firefox|OpenBSD|BSD
Mozilla/5.0 (X11; SunOS i86pc; rv:45.0) Gecko/20100101 Firefox/45.0 => Firefox/45.0|Firefox|Solaris|Unix
Mozilla/4.0 (compatible; MSIE 8.0; Windows NT 5.1; Trident/4.0) => MSIE|MSIE|Windows XP|Windows
Mozilla/5.0 (Windows NT 6.3; WOW64; Trident/7.0; rv:11.0) like Gecko => Trident/7.0|MSIE|Windows 8.1|Windows
## browsers on phones
Mozilla/5.0 (iPhone; CPU iPhone OS 17_2 like Mac OS X) AppleWebKit/605.1.15 (KHTML, like Gecko) Version/17.2 Mobile/15E148 Safari/604.1 => Safari/604.1|Safari|iOS|iOS
Mozilla/5.0 (iPad; CPU OS 16_6 like Mac OS X) AppleWebKit/605.1.15 (KHTML, like Gecko) CriOS/120.0.6099.119 Mobile/15E148 Safari/604.1 => CriOS/120.0.6099.119|Chrome|iOS|iOS
Mozilla/5.0 (iPhone; CPU iPhone OS 17_2 like Mac OS X) AppleWebKit/605.1.15 (KHTML, like Gecko) FxiOS/121.0 Mobile/15E148 Safari/605.1.15 => FxiOS/121.0|Firefox|iOS|iOS
Mozilla/5.0 (Linux; Android 13; SM-S901B) AppleWebKit/537.36 (KHTML, like Gecko) SamsungBrowser/23.0 Chrome/115.0.0.0 Mobile Safari/537.36 => SamsungBrowser/23.0|Others|Android|Android
## tools
curl/8.4.0 => curl/8.4.0|Others|Unknown|Unknown
Wget/1.21.3 (linux-gnu) => Wget/1.21.3|Others|Unknown|Unknown
python-requests/2.31.0 => python-requests/2.31.0|Others|Unknown|Unknown
## crawlers, by their names and by their words for themselves
Mozilla/5.0 (compatible; Googlebot/2.1; +http://www.google.com/bot.html) => Googlebot/2.1|Crawlers|Unknown|Unknown
Mozilla/5.0 (Linux; Android 6.0.1; Nexus 5X Build/MMB29P) AppleWebKit/537.36 (KHTML, like Gecko) Chrome/120.0.6099.109 Mobile Safari/537.36 (compatible; Googlebot/2.1; +http://www.google.com/bot.html) => Googlebot/2.1|Crawlers|Android|Android
Mozilla/5.0 AppleWebKit/537.36 (KHTML, like Gecko; compatible; bingbot/2.0; +http://www.bing.com/bingbot.htm) Chrome/103.0.5060.134 Safari/537.36 => bingbot/2.0|Crawlers|Unknown|Unknown
Mozilla/5.0 (compatible; YandexBot/3.0; +http://yandex.com/bots) => YandexBot/3.0|Crawlers|Unknown|Unknown
DuckDuckBot/1.1; (+http://duckduckgo.com/duckduckbot.html) => DuckDuckBot/1.1|Crawlers|Unknown|Unknown
Mozilla/5.0 (Macintosh; Intel Mac OS X 10_15_5) AppleWebKit/605.1.15 (KHTML, like Gecko) Version/13.1.1 Safari/605.1.15 (Applebot/0.1; +http://www.apple.com/go/applebot) => Applebot/0.1|Crawlers|macOS|macOS
facebookexternalhit/1.1 (+http://www.facebook.com/externalhit_uatext.php) => facebookexternalhit/1.1|Crawlers|Unknown|Unknown
mycrawler/3.1 (+https://example.org) => crawler/3.1|Crawlers|Unknown|Unknown
Sogou web spider/4.0(+http://www.sogou.com/docs/help/webmasters.htm#07) => spider/4.0|Crawlers|Unknown|Unknown
Mozilla/5.0 AppleWebKit/537.36 (KHTML, like Gecko; compatible; GPTBot/1.0; +https://openai.com/gptbot) => Bot/1.0|Crawlers|Unknown|Unknown
## no agent, a name alone, and a name that no rule has
 => Unknown|Unknown|Unknown|Unknown
Firefox => Firefox|Firefox|Unknown|Unknown
Foo \"bar\" Baz => Unknown|Unknown|Unknown|Unknown
Mozilla/5.0 => Mozilla/5.0|Others|Unknown|Unknown
## where a browser's text ends
Safari,Safari/2 Windows => Safari|Safari|Windows|Windows
é Firefox/é1 x => Firefox/é1|Firefox|Unknown|Unknown
";

/// What the built-in rules tell of an agent, in borrowed texts.
fn told(alloc: Global, agent: &str) -> Result<String, Fail> {
    let rules = Rules::builtin(alloc);
    let class = rules.class_of(agent);
    Ok(format!(in alloc;
        "{}|{}|{}|{}",
        class.browser, class.category, class.system, class.system_group
    )?)
}

#[test]
fn agents_are_told_apart(rt: HostRuntime) -> Result<(), Fail> {
    hold(rt.alloc(), AGENTS, told)
}

/// What stands between a browsers file and an agent.
const ASKED: &str = " ? ";

/// Browsers files and agents, and what the file's rules and the built-in ones tell of the agent, or the file's fault. In a file
/// `;` represents a line feed and `!` a byte that no UTF-8 text has.
const FILES: &str = "\
## rules before those built in
Foo\t\tCrawlers ? a FooBar/1 b => FooBar/1|Crawlers|Unknown|Unknown
Chrome\tMine ? Edg Chrome/1;2 => Chrome/1|Mine|Unknown|Unknown
Fo\tX;Foo\tY; ? Foo => Foo|X|Unknown|Unknown
 ? Firefox/1 => Firefox/1|Firefox|Unknown|Unknown
## blanks in tokens and categories
 Foo\tA  B  ? x Foo y =>  Foo|A  B |Unknown|Unknown
a(b c\tX ? a(b cd e => a(b cd|X|Unknown|Unknown
## a file names no systems
Foo\tCrawlers ? Foo/2 (X11; Linux i686) => Foo/2|Crawlers|Linux|Linux
## line ends
Foo\tBar\r; ? Foo => Foo|Bar|Unknown|Unknown
Foo\tBar\r ? Foo => Foo|Bar\r|Unknown|Unknown
Foo\tBar\r\r; ? Foo => Foo|Bar\r|Unknown|Unknown
## empty lines and comments
;\r;# c;#!\r;Foo\tBar ? Foo => Foo|Bar|Unknown|Unknown
#Foo\tBar;Foo\té; ? Foo => Foo|é|Unknown|Unknown
## lines that are no rules
# x;Foo ? Foo => line 2: not a rule
Foo Crawlers; ? Foo => line 1: not a rule
\tFoo ? Foo => line 1: not a rule
Foo\t\t; ? Foo => line 1: not a rule
Foo\tBar\tBaz; ? Foo => line 1: not a rule
Foo\tBar\t; ? Foo => line 1: not a rule
a\tb;;c\t!d ? a => line 3: not a rule
a\tb\r;\r;#c\r;x\r;y\r; ? a => line 4: not a rule
a\tb;\r ? a => line 2: not a rule
";

/// The bytes of a file of the table.
fn file_of(alloc: Global, text: &str) -> Result<Vec<u8>, Fail> {
    let mut file = Vec::new(alloc);
    for byte in text.bytes() {
        file.push(match byte {
            b';' => b'\n',
            b'!' => 0xff,
            other => other,
        })?;
    }
    Ok(file)
}

/// What these rules tell of an agent, in texts of its own.
fn told_by(alloc: Global, rules: &Rules, agent: &str) -> Result<String, Fail> {
    let said = rules.classify(&Text::of(alloc, agent)?)?;
    Ok(format!(in alloc;
        "{}|{}|{}|{}",
        said.browser.as_str(),
        said.category.as_str(),
        said.system.as_str(),
        said.system_group.as_str()
    )?)
}

/// What is told by the file of a case, or its fault.
fn told_by_file(alloc: Global, case: &str) -> Result<String, Fail> {
    let (file, agent) = case.split_once(ASKED).unwrap_or((case, ""));
    match Rules::read(alloc, &file_of(alloc, file)?) {
        Ok(rules) => told_by(alloc, &rules, agent),
        Err(fault) => Ok(format!(in alloc; "{fault}")?),
    }
}

#[test]
fn files_give_rules_or_a_fault(rt: HostRuntime) -> Result<(), Fail> {
    hold(rt.alloc(), FILES, told_by_file)
}
