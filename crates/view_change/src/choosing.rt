//! What a new view decides: one pass for its base and top, and one for each slot that is asked for.
ghost use Rattle.std.specs.Prelude.{◌≡◌, ◌≢◌, ◌↔◌, max, fold, [], None, IsNone};
ghost use Rattle.std.specs.List.{flat_map};
ghost use Rattle.std.specs.Option.{option_copied, option_map, unwrap_or};
ghost use Rattle.fab_base.specs.declared.messages.PreparedCert.{PreparedCert};
ghost use Rattle.fab_rules.specs.Lists.{In};
ghost use Rattle.fab_rules.specs.Choice.{certificates_of, base, top, deciding, chosen, better};

use fab_base::{Batch, NewView, PreparedCert, ViewChange};

/// Which slots a new view decides: those above the base, up to the top. There are none where the two are equal.
#[derive(Clone, Copy, Debug, PartialEq, Eq)]
pub struct Choice {
    /// The greatest low mark of the changes: slots up to it are closed. 0 to 2^62 in a shaped new view.
    pub base: u64,
    /// The greatest slot of a prepared certificate above the base, or else the base itself. 0 to 2^62 in a shaped new view.
    pub top: u64,
}

/// Which slots a new view decides (PBFT, section 4.4: min-s and max-s). Takes no memory.
pub fn choose(new_view: &NewView) -> Choice
    ensures base { result.base ≡ base new_view.now }
    ensures top { result.top ≡ top new_view.now }
{
    choice_of(new_view.changes.as_slice())
}

/// The batch that a new view chooses for a slot (PBFT, section 4.4): that of the slot's certificate of the greatest view. Of equal
/// views the first one counts, by the order of the changes and then by that of a change's certificates (ours). `None`, which stands
/// for the null batch, comes exactly where no certificate is of the slot. Takes no memory.
pub fn chosen(new_view: &NewView, slot: u64) -> Option<&Batch>
    ensures is { option_copied result ≡ option_map (λ k. k.batch) (deciding new_view.now slot) }
    ensures batch { unwrap_or (option_copied result) [] ≡ chosen new_view.now slot }
    ensures none { IsNone result ↔ ((k : PreparedCert) → In k (certificates_of new_view.now) → k.slot ≢ slot) }
{
    Some(&deciding(new_view, slot)?.batch)
}

/// What one pass over these changes finds.
fn choice_of(changes: &[ViewChange]) -> Choice
    ensures base { result.base ≡ fold (λ low c. max low c.low) 0 changes.now }
    ensures top { result.top ≡ max result.base (fold (λ slot k. max slot k.slot) 0 (flat_map (λ c. c.prepared) changes.now)) }
{
    let mut base = 0;
    let mut last = 0;
    for change in changes {
        base = base.max(change.low);
        last = last_slot(change.prepared.as_slice(), last);
    }
    Choice {
        base,
        top: base.max(last),
    }
}

/// The greatest of this slot and those of the certificates.
fn last_slot(certificates: &[PreparedCert], slot: u64) -> u64
    ensures { result ≡ fold (λ slot k. max slot k.slot) slot certificates.now }
{
    certificates.iter().fold(slot, |last, k| last.max(k.slot))
}

/// The certificate that decides a slot: of those of the slot the first whose view is the greatest.
fn deciding(new_view: &NewView, slot: u64) -> Option<&PreparedCert>
    ensures is { option_copied result ≡ deciding new_view.now slot }
    ensures none { IsNone result ↔ ((k : PreparedCert) → In k (certificates_of new_view.now) → k.slot ≢ slot) }
{
    latest_in(new_view.changes.as_slice(), slot)
}

/// What one pass over the certificates of these changes finds.
fn latest_in(changes: &[ViewChange], slot: u64) -> Option<&PreparedCert>
    ensures { option_copied result ≡ fold (better slot) None (flat_map (λ c. c.prepared) changes.now) }
{
    let mut kept = None;
    for change in changes {
        kept = latest(kept, change.prepared.as_slice(), slot);
    }
    kept
}

/// The kept certificate, or the one of these that decides the slot in its place.
fn latest<'a>(
    earlier: Option<&'a PreparedCert>,
    certificates: &'a [PreparedCert],
    slot: u64,
) -> Option<&'a PreparedCert>
    ensures { option_copied result ≡ fold (better slot) (option_copied earlier.entry) certificates.now }
{
    let mut kept = earlier;
    for certificate in certificates {
        kept = later(kept, certificate, slot);
    }
    kept
}

/// The certificate, where it is of the slot and none of its view or a greater one is kept; else what is kept.
fn later<'a>(
    kept: Option<&'a PreparedCert>,
    certificate: &'a PreparedCert,
    slot: u64,
) -> Option<&'a PreparedCert>
    ensures { option_copied result ≡ better slot (option_copied kept.entry) certificate.now }
{
    match kept {
        None if certificate.slot == slot => Some(certificate),
        Some(held) if certificate.slot == slot && held.view < certificate.view => Some(certificate),
        _ => kept,
    }
}
