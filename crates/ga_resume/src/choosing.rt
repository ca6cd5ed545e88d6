ghost use Rattle.std.specs.Prelude.{◌≡◌, ◌≤◌, ◌⊎◌, ◌↔◌, true, ℕ, List, All, IfOk, IfSome, Some, None, length, min};
ghost use Rattle.std.specs.List.Sorted.{IsPermutation};
ghost use Rattle.ga_base.specs.declared.limits.TheConstants.{FRONT};
ghost use Rattle.sha2.specs.Hashers.{Holds256};
ghost use Rattle.sha2.specs.Sha256.{sha256};
ghost use Rattle.ga_resume.specs.Entries.{IsChoice, IsChosen};
ghost use Rattle.ga_resume.specs.Steps.Choosing.{AreCandidates, AreFitting, IsBest, Leads, Rise};

use ga_base::{Entry, NoMemory};
use sha2::{Digest, Sha256};
use std::alloc::Global;

/// An entry of a list, with its place there.
#[derive(Clone, Copy, Debug)]
pub(crate) struct Candidate {
    pub(crate) place: u64,
    pub(crate) entry: Entry,
}

/// The entry that a log of this front and size continues.
pub(crate) fn choose_entry(
    alloc: Global,
    entries: &[Entry],
    front: &[u8],
    end: u64,
) -> Result<Option<Candidate>, NoMemory>
    requires { length front.now ≡ min end FRONT }
    ensures none { IfOk result (λ chosen. chosen ≡ None → IsChoice entries.now front.now end None 0) }
    ensures some { IfOk result (λ chosen. IfSome chosen (λ c. IsChosen entries.now front.now end c.place c.entry)) }
{
    let candidates = by_offset(candidates(alloc, entries, end)?);
    let fitting = fitting_candidates(alloc, &candidates, front)?;
    Ok(best_candidate(&fitting))
}

/// The entries whose offset lies within the log.
fn candidates(alloc: Global, entries: &[Entry], end: u64) -> Result<Vec<Candidate>, NoMemory>
    ensures { IfOk result (λ candidates. AreCandidates entries.now (length entries.now) end candidates.items) }
{
    let mut candidates = Vec::new(alloc);
    for (place, entry) in entries.iter().enumerate() {
        if entry.offset <= end {
            candidates.push(Candidate {
                place: place as u64,
                entry: *entry,
            })?;
        }
    }
    Ok(candidates)
}

fn by_offset(candidates: Vec<Candidate>) -> Vec<Candidate>
    ensures same { IsPermutation candidates.items result.items }
    ensures rise { Rise result.items }
{
    let mut candidates = candidates;
    candidates.sort_unstable_by_key(|candidate| candidate.entry.offset);
    candidates
}

/// The candidates whose digest is that of the front's first bytes. The front is hashed once, as far as each needs it.
fn fitting_candidates(
    alloc: Global,
    candidates: &[Candidate],
    front: &[u8],
) -> Result<Vec<Candidate>, NoMemory>
    requires rise { Rise candidates.now }
    requires within { All (λ c. c.entry.lead ≤ length front.now) candidates.now }
    ensures { IfOk result (λ fits. AreFitting front.now candidates.now (length candidates.now) fits.items) }
{
    let mut fits = Vec::new(alloc);
    let mut hasher = Sha256::new();
    let mut hashed = 0usize;
    for candidate in candidates {
        let lead = usize::from(candidate.entry.lead);
        hasher.update(&front[hashed..lead]);
        hashed = lead;
        let fit = has_digest(&hasher, &candidate.entry.digest)?;
        if fit {
            fits.push(*candidate)?;
        }
    }
    Ok(fits)
}

/// Whether this is the digest of the bytes that the hasher took.
fn has_digest(hasher: &Sha256, digest: &[u8; 32]) -> Result<bool, NoMemory>
    ensures { IfOk result (λ same. (bytes : List ℕ) → Holds256 hasher.now bytes → (same ≡ true) ↔ (digest.now ≡ sha256 bytes)) }
{
    Ok(hasher.clone()?.finalize() == *digest)
}

/// The one with the greatest offset, and among these the one that comes first in the list of entries.
fn best_candidate(candidates: &[Candidate]) -> Option<Candidate>
    ensures { IsBest candidates.now (length candidates.now) result }
{
    let mut best = None;
    for candidate in candidates {
        best = Some(better_of(best, *candidate));
    }
    best
}

fn better_of(best: Option<Candidate>, other: Candidate) -> Candidate
    ensures chosen { (result ≡ other) ⊎ (best ≡ Some result) }
    ensures leads { Leads result other }
    ensures best { IfSome best (λ best. Leads result best) }
{
    match best {
        Some(best) => { if best.leads(&other) { best } else { other } }
        None => other,
    }
}

impl Candidate {
    /// Whether it is to be chosen before the other, or is it.
    fn leads(&self, other: &Candidate) -> bool
        ensures { (result ≡ true) ↔ Leads self.now other.now }
    {
        other.entry.offset < self.entry.offset
            || other.entry.offset == self.entry.offset && self.place <= other.place
    }
}
