ghost use Rattle.std.specs.Prelude.{◌≡◌, map};
ghost use Rattle.ga_agents.specs.Tables.{builtin_rules, systems};
ghost use Rattle.ga_agents.specs.Steps.{rule_of, system_of};

use crate::entries::HasToken;

/// A built-in rule, a token and a category: agents with the token have the category.
#[derive(Clone, Copy)]
pub(crate) struct BrowserEntry(pub(crate) &'static str, pub(crate) &'static str);

/// An entry of the systems, a token, a system and its group: agents with the token have the system.
#[derive(Clone, Copy)]
pub(crate) struct SystemEntry(
    pub(crate) &'static str,
    pub(crate) &'static str,
    pub(crate) &'static str,
);

impl HasToken for BrowserEntry {
    ghost token_of = { λ entry. entry.0.now };

    fn token(&self) -> &str {
        self.0
    }
}

impl HasToken for SystemEntry {
    ghost token_of = { λ entry. entry.0.now };

    fn token(&self) -> &str {
        self.0
    }
}

/// The built-in rules, in the order in which they count.
const BROWSERS: [BrowserEntry; 29] = [
    BrowserEntry("Googlebot", "Crawlers"),
    BrowserEntry("bingbot", "Crawlers"),
    BrowserEntry("Baiduspider", "Crawlers"),
    BrowserEntry("YandexBot", "Crawlers"),
    BrowserEntry("DuckDuckBot", "Crawlers"),
    BrowserEntry("AhrefsBot", "Crawlers"),
    BrowserEntry("SemrushBot", "Crawlers"),
    BrowserEntry("Applebot", "Crawlers"),
    BrowserEntry("Twitterbot", "Crawlers"),
    BrowserEntry("facebookexternalhit", "Crawlers"),
    BrowserEntry("crawler", "Crawlers"),
    BrowserEntry("spider", "Crawlers"),
    BrowserEntry("bot/", "Crawlers"),
    BrowserEntry("Bot/", "Crawlers"),
    BrowserEntry("curl", "Others"),
    BrowserEntry("Wget", "Others"),
    BrowserEntry("python-requests", "Others"),
    BrowserEntry("Edg", "Edge"),
    BrowserEntry("OPR", "Opera"),
    BrowserEntry("Opera", "Opera"),
    BrowserEntry("Firefox", "Firefox"),
    BrowserEntry("FxiOS", "Firefox"),
    BrowserEntry("SamsungBrowser", "Others"),
    BrowserEntry("CriOS", "Chrome"),
    BrowserEntry("Chrome", "Chrome"),
    BrowserEntry("Safari", "Safari"),
    BrowserEntry("MSIE", "MSIE"),
    BrowserEntry("Trident", "MSIE"),
    BrowserEntry("Mozilla", "Others"),
];

/// The systems, in the order in which they count.
const SYSTEMS: [SystemEntry; 21] = [
    SystemEntry("Windows NT 10.0", "Windows 10", "Windows"),
    SystemEntry("Windows NT 6.3", "Windows 8.1", "Windows"),
    SystemEntry("Windows NT 6.2", "Windows 8", "Windows"),
    SystemEntry("Windows NT 6.1", "Windows 7", "Windows"),
    SystemEntry("Windows NT 6.0", "Windows Vista", "Windows"),
    SystemEntry("Windows NT 5.1", "Windows XP", "Windows"),
    SystemEntry("Windows", "Windows", "Windows"),
    SystemEntry("iPhone", "iOS", "iOS"),
    SystemEntry("iPad", "iOS", "iOS"),
    SystemEntry("Android", "Android", "Android"),
    SystemEntry("CrOS", "Chrome OS", "Chrome OS"),
    SystemEntry("Mac OS X", "macOS", "macOS"),
    SystemEntry("Macintosh", "macOS", "macOS"),
    SystemEntry("Ubuntu", "Ubuntu", "Linux"),
    SystemEntry("Fedora", "Fedora", "Linux"),
    SystemEntry("Debian", "Debian", "Linux"),
    SystemEntry("Linux", "Linux", "Linux"),
    SystemEntry("FreeBSD", "FreeBSD", "BSD"),
    SystemEntry("OpenBSD", "OpenBSD", "BSD"),
    SystemEntry("NetBSD", "NetBSD", "BSD"),
    SystemEntry("SunOS", "Solaris", "Unix"),
];

/// The built-in rules.
pub(crate) fn browsers() -> &'static [BrowserEntry]
    ensures { map rule_of result.now ≡ builtin_rules }
{
    &BROWSERS
}

/// The systems.
pub(crate) fn system_entries() -> &'static [SystemEntry]
    ensures { map system_of result.now ≡ systems }
{
    &SYSTEMS
}
