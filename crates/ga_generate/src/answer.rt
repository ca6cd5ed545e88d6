ghost use Rattle.std.specs.Prelude.{◌≡◌, ◌++◌, ◌%◌, ◌==◌, if◌then◌else◌, OnOk, codes};
ghost use Rattle.ga_generate.specs.Lines.{answer};

use crate::pieces::push_all;
use ga_base::NoMemory;
use itoa::Buffer;

const AGENT: &[u8] = b" \"-\" \"Mozilla/5.0 (X11; Linux x86_64; rv:100.0) Gecko/20100101 Firefox/";

/// Appends line `i`'s status, size, referrer and agent, and LF.
pub(crate) fn push_answer(lines: &mut Vec<u8>, i: u32) -> Result<(), NoMemory>
    ensures { OnOk result (lines.new.items ≡ lines.old.items ++ answer i) }
{
    let mut size = Buffer::new();
    let mut version = Buffer::new();
    push_all(
        lines,
        &[
            status(i),
            size.format(i % 1000).as_bytes(),
            AGENT,
            version.format(100 + i % 3).as_bytes(),
            b".0\"\n",
        ],
    )
}

fn status(i: u32) -> &'static [u8]
    ensures { result.now ≡ (if i % 10 == 9 then codes "404 " else codes "200 ") }
{
    if i % 10 == 9 { b"404 " } else { b"200 " }
}
