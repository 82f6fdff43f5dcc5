//! Outlets: where the letters to each receiver go.

ghost use Rattle.std.specs.Prelude.{◌≡◌, ◌≢◌, ◌++◌, ◌∷◌, [], List, Some, IfSome, IsNone, option_to_list, IfOk, IfErr, true, false, ◌<◌, length};
ghost use Rattle.run_words.specs.declared.logs.Parcel as parcels;
ghost use Rattle.stage_link.specs.Links.{pushed, IsSameIn};
ghost use Rattle.stage_workers.specs.declared.look.Look.TheVariants.{Idle, NoMemory as NoMemoryLook};
ghost use Rattle.stage_looks.specs.Letters.{letter_of, letters_of};
ghost use Rattle.stage_looks.specs.Sending.{IsPlaceOf, AreApart, AreSent, AreSameOutlets, letters_left};

use crate::letters::Letter;
use crossbeam_utils::Backoff;
use fab_base::{NoMemory, ReplicaId};
use run_words::Parcel;
use stage_link::{Full, LinkIn};
use stage_workers::Look;

/// The end of the link to one receiver at which its letters are pushed.
#[derive(Drop)]
pub struct Outlet {
    /// The receiver.
    pub to: ReplicaId,
    /// The link's sending end.
    pub link: LinkIn<Letter>,
}

/// Where the outlet to a receiver stands, if there is one.
fn place_of(outlets: &[Outlet], to: ReplicaId) -> Option<usize>
    ensures { IsPlaceOf to outlets.now result }
{
    for place in 0..outlets.len() {
        if outlets[place].to == to {
            return Some(place);
        }
    }
    None
}

/// The parcel of a letter that came back.
fn parcel_of(to: ReplicaId, passes: u8, letter: Letter) -> Parcel
    ensures { (result.to ≡ to) × (result.passes ≡ passes) × (letter_of result ≡ letter) }
{
    Parcel {
        to,
        number: letter.parcel,
        time: letter.time,
        bytes: letter.bytes,
        passes,
    }
}

/// Pushes a letter with the parcel's own bytes. Where the link is full the parcel comes back.
fn push_own(link: &mut LinkIn<Letter>, parcel: Parcel) -> Option<Parcel>
    ensures same { IsSameIn link.old link.new }
    ensures pushed { IsNone result → pushed link.new ≡ pushed link.old ++ letter_of parcel ∷ [] }
    ensures back { IfSome result (λ p. (p ≡ parcel) × (pushed link.new ≡ pushed link.old)) }
{
    let Parcel {
        to,
        number,
        time,
        bytes,
        passes,
    } = parcel;
    let letter = Letter {
        parcel: number,
        time,
        bytes,
    };
    match link.push(letter) {
        Ok(()) => None,
        Err(Full { item }) => Some(parcel_of(to, passes, item)),
    }
}

/// Pushes a letter with a copy of the parcel's bytes. Answers whether the link had room.
fn push_copy(link: &mut LinkIn<Letter>, parcel: &Parcel) -> Result<bool, NoMemory>
    ensures same { IsSameIn link.old link.new }
    ensures pushed { result ≡ Ok true → pushed link.new ≡ pushed link.old ++ letter_of parcel.now ∷ [] }
    ensures full { result ≡ Ok false → pushed link.new ≡ pushed link.old }
    ensures refused { IfErr result (λ e. link.new ≡ link.old) }
{
    let bytes = parcel.bytes.copy()?;
    match link.push(Letter {
        parcel: parcel.number,
        time: parcel.time,
        bytes,
    }) {
        Ok(()) => Ok(true),
        Err(full) => {
            drop(full);
            Ok(false)
        }
    }
}

/// Pushes one letter of a parcel. Answers what of the parcel is left.
fn push_one(link: &mut LinkIn<Letter>, mut parcel: Parcel) -> (Option<Parcel>, Look)
    ensures same { IsSameIn link.old link.new }
    ensures letters { pushed link.new ++ letters_left result.0 ≡ pushed link.old ++ letters_of parcel }
    ensures to { IfSome result.0 (λ p. p.to ≡ parcel.to) }
    ensures busy { result.1 ≢ Idle }
    ensures refused { result.1 ≡ NoMemoryLook → (result.0 ≡ Some parcel) × (link.new ≡ link.old) }
{
    if parcel.passes == 0 {
        drop(parcel);
        return (None, Look::Moved);
    }
    if parcel.passes == 1 {
        let back = push_own(link, parcel);
        if back.is_some() {
            Backoff::new().snooze();
        }
        return (back, Look::Moved);
    }
    match push_copy(link, &parcel) {
        Err(NoMemory) => (Some(parcel), Look::NoMemory),
        Ok(false) => {
            Backoff::new().snooze();
            (Some(parcel), Look::Moved)
        }
        Ok(true) => {
            parcel.passes -= 1;
            (Some(parcel), Look::Moved)
        }
    }
}

/// Pushes one letter of a parcel on the outlet to its receiver, and answers what of the parcel is left: it passes no more, it passes once less, or
/// it is as it was, since the link is full (after a moment's rest) or memory is refused to a copy. A parcel to which no outlet leads is let go.
pub(crate) fn post(outlets: &mut Vec<Outlet>, parcel: Parcel) -> (Option<Parcel>, Look)
    requires apart { AreApart outlets.old.items }
    ensures apart { AreApart outlets.new.items }
    ensures sent { (put hand : List parcels.Parcel) → AreSent put (parcel ∷ hand) outlets.old.items → AreSent put (option_to_list result.0 ++ hand) outlets.new.items }
    ensures same { AreSameOutlets outlets.old.items outlets.new.items }
    ensures busy { result.1 ≢ Idle }
    ensures refused { result.1 ≡ NoMemoryLook → (result.0 ≡ Some parcel) × (outlets.new.items ≡ outlets.old.items) }
{
    match place_of(outlets, parcel.to) {
        None => {
            drop(parcel);
            (None, Look::Moved)
        }
        Some(place) => push_one(&mut outlets[place].link, parcel),
    }
}
