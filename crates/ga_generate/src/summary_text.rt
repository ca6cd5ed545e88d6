ghost use Rattle.std.specs.Prelude.{◌≡◌, IfOk};
ghost use Rattle.ga_generate.specs.Summary.{summary_text};

use crate::pieces::push_all;
use ga_base::{Bytes, NoMemory};
use ga_report::General;
use itoa::Buffer;
use sha2::{Digest, Sha256};
use std::alloc::Global;

/// What a run over `n` generated lines prints in place of the report whose general numbers and JSON text these are
/// (own profile): six lines, the last with the SHA-256 of the JSON text.
pub fn summary(alloc: Global, n: u32, general: &General, json: &[u8]) -> Result<Bytes, NoMemory>
    ensures { IfOk result (λ text. text ≡ summary_text n general.now json.now) }
{
    let digest = hex::encode(alloc, Sha256::digest(json))?;
    let mut generated = Buffer::new();
    let mut valid = Buffer::new();
    let mut failed = Buffer::new();
    let mut visitors = Buffer::new();
    let mut bandwidth = Buffer::new();
    let mut text = Vec::new(alloc);
    push_all(
        &mut text,
        &[
            b"generated ",
            generated.format(n).as_bytes(),
            b"\nvalid ",
            valid.format(general.valid_requests).as_bytes(),
            b"\nfailed ",
            failed.format(general.failed_requests).as_bytes(),
            b"\nvisitors ",
            visitors.format(general.unique_visitors).as_bytes(),
            b"\nbandwidth ",
            bandwidth.format(general.bandwidth).as_bytes(),
            b"\nreport ",
            digest.as_bytes(),
            b"\n",
        ],
    )?;
    Ok(Bytes::from(text))
}
