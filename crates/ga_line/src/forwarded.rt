ghost use Rattle.std.specs.Prelude.{◌≡◌, true, false, ℕ, List, Option, Some, IfSome, IfNone};
ghost use Rattle.std.specs.Option.{option_copied};
ghost use Rattle.bstr.specs.Bytes.{is_in};
ghost use Rattle.ga_base.specs.declared.formats.FormatItem.TheVariants.{Literal};
ghost use Rattle.ga_line.specs.Forwarded.{EndsAddress, FirstAddress, IsLongestChain, entries};
ghost use Rattle.ga_line.specs.Steps.Forwarding.{Forwards, GoesOn, BeginsAddress, IsNextAddress, IsEndOf, IsLastOf, HasChain, HasNoLiteral};

use crate::cut_field::cut_at;
use bstr::ByteSlice;
use ga_base::FormatItem;
use ga_hosts::is_address;

/// What the field `~h{C}` says, and what is left of the line.
#[derive(Clone, Copy)]
pub(crate) struct Forwarded<'a> {
    /// The host, if the field has one.
    pub host: Option<&'a [u8]>,
    /// What follows the field, from the literal on that ends it. `None` where no item after the field is asked for.
    pub after: Option<&'a [u8]>,
}

/// The field `~h{C}` that begins `rest` before the next item of the format. `None` where none is there.
pub(crate) fn forwarded_in<'a>(
    rest: &'a [u8],
    separators: &[u8],
    next: Option<&FormatItem>,
) -> Option<Forwarded<'a>>
    ensures found { IfSome result
        (λ f. Forwards (option_copied next.entry) separators.now rest.now (option_copied f.host) (option_copied f.after)) }
    ensures none { IfNone result
        ((host after : Option (List ℕ)) → ¬ Forwards (option_copied next.entry) separators.now rest.now host after) }
{
    match literal_in(next) {
        Some(stop) => forwarded_before(rest, separators, stop),
        None => last_forwarded(rest, separators),
    }
}

/// The byte of the next item, where that is a literal.
fn literal_in(next: Option<&FormatItem>) -> Option<u8>
    ensures found { IfSome result (λ stop. option_copied next.entry ≡ Some (Literal stop)) }
    ensures none { IfNone result (HasNoLiteral (option_copied next.entry)) }
{
    match next {
        Some(FormatItem::Literal(stop)) => Some(*stop),
        _ => None,
    }
}

/// The field before no literal: the longest chain of addresses.
fn last_forwarded<'a>(rest: &'a [u8], separators: &[u8]) -> Option<Forwarded<'a>>
    ensures found { IfSome result
        (λ f. IsLastOf separators.now rest.now (option_copied f.host) (option_copied f.after)) }
    ensures none { IfNone result
        ((host after : Option (List ℕ)) → ¬ IsLastOf separators.now rest.now host after) }
{
    let (host, _) = chain_in(rest, separators)?;
    Some(Forwarded {
        host: Some(host),
        after: None,
    })
}

/// The field before the literal `stop`.
fn forwarded_before<'a>(rest: &'a [u8], separators: &[u8], stop: u8) -> Option<Forwarded<'a>>
    ensures found { IfSome result
        (λ f. GoesOn (is_in separators.now stop) separators.now stop rest.now (option_copied f.host) (option_copied f.after)) }
    ensures none { IfNone result
        ((host after : Option (List ℕ)) → ¬ GoesOn (is_in separators.now stop) separators.now stop rest.now host after) }
{
    if is_separator(stop, separators) {
        chain_before(rest, separators, stop)
    } else {
        Some(entries_before(rest, separators, stop))
    }
}

/// Whether the byte is one of the separators.
fn is_separator(byte: u8, separators: &[u8]) -> bool
    ensures { result ≡ is_in separators.now byte }
{
    separators.contains(&byte)
}

/// The field that ends as any other does before the literal `stop`.
fn entries_before<'a>(rest: &'a [u8], separators: &[u8], stop: u8) -> Forwarded<'a>
    ensures { GoesOn false separators.now stop rest.now (option_copied result.host) (option_copied result.after) }
{
    match cut_at(rest, stop) {
        Some((text, after)) => Forwarded {
            host: address_among(text, separators),
            after: Some(after),
        },
        None => Forwarded {
            host: address_among(rest, separators),
            after: None,
        },
    }
}

/// The first entry of a text that is an address.
fn address_among<'a>(text: &'a [u8], separators: &[u8]) -> Option<&'a [u8]>
    ensures { FirstAddress (entries separators.now text.now) (option_copied result) }
{
    let mut rest = text;
    while let Some(end) = rest.find_byteset(separators) {
        let (entry, after) = rest.split_at(end);
        if is_address(entry) {
            return Some(entry);
        }
        rest = &after[1..];
    }
    if is_address(rest) { Some(rest) } else { None }
}

/// The field that is a chain of addresses before the literal `stop`.
fn chain_before<'a>(rest: &'a [u8], separators: &[u8], stop: u8) -> Option<Forwarded<'a>>
    ensures found { IfSome result
        (λ f. GoesOn true separators.now stop rest.now (option_copied f.host) (option_copied f.after)) }
    ensures none { IfNone result
        ((host after : Option (List ℕ)) → ¬ GoesOn true separators.now stop rest.now host after) }
{
    let (host, after) = chain_in(rest, separators)?;
    match after.first() {
        None => Some(Forwarded {
            host: Some(host),
            after: None,
        }),
        Some(byte) if *byte == stop => Some(Forwarded {
            host: Some(host),
            after: Some(after),
        }),
        Some(_) => None,
    }
}

/// The first address of the longest chain with which `rest` begins, and what follows the chain. `None` where there is none.
fn chain_in<'a>(rest: &'a [u8], separators: &[u8]) -> Option<(&'a [u8], &'a [u8])>
    ensures found { IfSome result (λ cut. HasChain separators.now rest.now cut.0.now cut.1.now) }
    ensures none { IfNone result ((host after : List ℕ) → ¬ HasChain separators.now rest.now host after) }
{
    let (host, after) = address_in(rest, separators)?;
    Some((host, after_chain(after, separators)))
}

/// What is left where a chain ends that goes on with `rest`, after an address.
fn after_chain<'a>(rest: &'a [u8], separators: &[u8]) -> &'a [u8]
    requires { EndsAddress separators.now rest.now }
    ensures { IsEndOf separators.now rest.now result.now }
{
    let mut after = rest;
    while let Some(next) = after_next(after, separators) {
        after = next;
    }
    after
}

/// What follows the next address of a chain that goes on with `rest`. `None` where it doesn't go on.
fn after_next<'a>(rest: &'a [u8], separators: &[u8]) -> Option<&'a [u8]>
    requires { EndsAddress separators.now rest.now }
    ensures found { IfSome result (λ next. IsNextAddress separators.now rest.now next.now) }
    ensures none { IfNone result ((next : List ℕ) → ¬ IsNextAddress separators.now rest.now next) }
{
    let gap = rest.find_not_byteset(separators)?;
    let (_, next) = address_in(&rest[gap..], separators)?;
    Some(next)
}

/// The address without a separator with which `rest` begins, and what follows it. `None` where there is none.
fn address_in<'a>(rest: &'a [u8], separators: &[u8]) -> Option<(&'a [u8], &'a [u8])>
    ensures found { IfSome result (λ cut. BeginsAddress separators.now rest.now cut.0.now cut.1.now) }
    ensures none { IfNone result
        ((host after : List ℕ) → ¬ BeginsAddress separators.now rest.now host after) }
{
    let end = rest.find_byteset(separators).unwrap_or(rest.len());
    let (entry, after) = rest.split_at(end);
    if is_address(entry) {
        Some((entry, after))
    } else {
        None
    }
}
