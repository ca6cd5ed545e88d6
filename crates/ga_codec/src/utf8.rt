ghost use Rattle.std.specs.Prelude.{◌≡◌, ◌<◌, length};
ghost use Rattle.std.specs.Str.{StartsWithNoChar};
ghost use Rattle.ga_codec.specs.Shapes.{IsLongest};
ghost use Rattle.ga_codec.specs.Steps.Utf8.{IsTextOf, char_size, continues, may_follow};

/// How many bytes a character has that begins with this byte, or 0 where none does (Unicode Standard, table 3-7).
fn char_size(first: u8) -> u64
    ensures { result ≡ char_size first }
{
    if first < 0x80 {
        1
    } else if first < 0xC2 {
        0
    } else if first < 0xE0 {
        2
    } else if first < 0xF0 {
        3
    } else if first < 0xF5 {
        4
    } else {
        0
    }
}

/// Whether a byte may stand second, after this first one.
fn may_follow(first: u8, byte: u8) -> bool
    ensures { result ≡ may_follow first byte }
{
    if first == 0xE0 {
        0xA0 <= byte && byte <= 0xBF
    } else if first == 0xED {
        0x80 <= byte && byte <= 0x9F
    } else if first == 0xF0 {
        0x90 <= byte && byte <= 0xBF
    } else if first == 0xF4 {
        0x80 <= byte && byte <= 0x8F
    } else {
        continues(byte)
    }
}

/// Whether a byte continues a character.
fn continues(byte: u8) -> bool
    ensures { result ≡ continues byte }
{
    0x80 <= byte && byte <= 0xBF
}

/// How many of the bytes begin a text of `size` bytes, where no character begins them whole.
pub(crate) fn bytes_begun(bytes: &[u8], size: u64) -> usize
    requires some { 0 < length bytes.now }
    requires no_char { StartsWithNoChar bytes.now }
    ensures { IsLongest (IsTextOf size) bytes.now result }
{
    let first = bytes[0];
    let char_size = char_size(first);
    if char_size == 0 {
        return 0;
    }
    if size < char_size {
        return 0;
    }
    if bytes.len() < 2 {
        return 1;
    }
    if !may_follow(first, bytes[1]) {
        return 1;
    }
    if bytes.len() < 3 {
        return 2;
    }
    if !continues(bytes[2]) {
        return 2;
    }
    3
}
