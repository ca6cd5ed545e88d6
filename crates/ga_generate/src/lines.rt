ghost use Rattle.std.specs.Prelude.{◌≡◌, ◌∷◌, ◌++◌, ◌<◌, ◌%◌, ◌==◌, [], if◌then◌else◌, IfOk, OnOk, codes};
ghost use Rattle.ga_base.specs.Days.{two_digits};
ghost use Rattle.ga_generate.specs.Lines.{generated, generated_line, host, moment, request};

use crate::answer::push_answer;
use crate::pieces::push_all;
use ga_base::{Bytes, NoMemory};
use itoa::Buffer;
use std::alloc::Global;

/// The lines 0 to `n - 1` (own profile), each ended by LF.
pub fn generate(alloc: Global, n: u32) -> Result<Bytes, NoMemory>
    ensures { IfOk result (λ lines. lines ≡ generated n) }
{
    let mut lines = Vec::new(alloc);
    for i in 0..n {
        push_line(&mut lines, i)?;
    }
    Ok(Bytes::from(lines))
}

#[tactic(auto, unfolding(crate::specs::Lines::generated_line))]
fn push_line(lines: &mut Vec<u8>, i: u32) -> Result<(), NoMemory>
    ensures { OnOk result (lines.new.items ≡ lines.old.items ++ generated_line i) }
{
    push_host(lines, i)?;
    push_moment(lines, i)?;
    push_request(lines, i)?;
    push_answer(lines, i)
}

fn push_host(lines: &mut Vec<u8>, i: u32) -> Result<(), NoMemory>
    ensures { OnOk result (lines.new.items ≡ lines.old.items ++ host i) }
{
    let mut second = Buffer::new();
    let mut third = Buffer::new();
    let mut fourth = Buffer::new();
    push_all(
        lines,
        &[
            b"10.",
            second.format(i % 7).as_bytes(),
            b".",
            third.format(i % 11).as_bytes(),
            b".",
            fourth.format(i % 13).as_bytes(),
        ],
    )
}

fn push_moment(lines: &mut Vec<u8>, i: u32) -> Result<(), NoMemory>
    ensures { OnOk result (lines.new.items ≡ lines.old.items ++ moment i) }
{
    let day = two_digits(1 + i % 28);
    let hour = two_digits(i % 24);
    push_all(
        lines,
        &[b" - - [", &day, b"/Jan/2024:", &hour, b":00:00 +0000] "],
    )
}

fn two_digits(n: u32) -> [u8; 2]
    requires { n < 100 }
    ensures { result ≡ two_digits n }
{
    [b'0' + (n / 10) as u8, b'0' + (n % 10) as u8]
}

fn push_request(lines: &mut Vec<u8>, i: u32) -> Result<(), NoMemory>
    ensures { OnOk result (lines.new.items ≡ lines.old.items ++ request i) }
{
    let mut page = Buffer::new();
    let page = page.format(i % 17).as_bytes();
    push_all(lines, &[b"\"GET /p", page, ending(i), b" HTTP/1.1\" "])
}

fn ending(i: u32) -> &'static [u8]
    ensures { result.now ≡ (if i % 5 == 0 then codes ".css" else []) }
{
    if i % 5 == 0 { b".css" } else { b"" }
}
