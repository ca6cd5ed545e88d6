ghost use Rattle.ga_format.specs.Named.{StandsFor};

/// The common log format of web servers.
pub const COMMON: &str = "%h %^[%d:%t %^] \"%r\" %s %b";

/// The common format with the referrer and the agent after it.
pub const COMBINED: &str = "%h %^[%d:%t %^] \"%r\" %s %b \"%R\" \"%u\"";

/// The common format with the virtual host and its port in front.
pub const VCOMMON: &str = "%v:%^ %h %^[%d:%t %^] \"%r\" %s %b";

/// The combined format with the virtual host and its port in front.
pub const VCOMBINED: &str = "%v:%^ %h %^[%d:%t %^] \"%r\" %s %b \"%R\" \"%u\"";

/// The format text that a word represents: `COMMON`, `COMBINED`, `VCOMMON` and `VCOMBINED`, byte for byte, are names,
/// and any other word is a format text itself.
pub fn format_text(word: &str) -> &str
    ensures { StandsFor word.now result.now }
{
    match word {
        "COMMON" => COMMON,
        "COMBINED" => COMBINED,
        "VCOMMON" => VCOMMON,
        "VCOMBINED" => VCOMBINED,
        _ => word,
    }
}
