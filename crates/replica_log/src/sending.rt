//! Emit: the first item that waits is sent.
ghost use Rattle.std.specs.Prelude.{◌≡◌, ◌+◌, ◌∷◌, ◌<◌, ◌^◌, true, false, [], length, None, IfOk, OnOk, OnErr, vec_len, vec_capacity};
ghost use Rattle.lms_tree.specs.Signatures.{tree_signature_len};
ghost use Rattle.fab_machine.specs.Step.{first};
ghost use Rattle.run_words.specs.Journal.{needs_leaf, moves, entry_of};
ghost use Rattle.run_words.specs.Acts.{told_of_emit};
ghost use Rattle.run_words.specs.declared.movers.Mover.{Mover};
ghost use Rattle.replica_log.specs.Acting.{told_anyway};
ghost use Rattle.replica_log.specs.Logs.{KeepsSigner};
ghost use Rattle.replica_log.specs.Keeping.{maker_of, Keeps, IsLive, IsLiveThen, Enters, Moves};
ghost use Rattle.parcel_post.specs.Posting.{sent_with};
ghost use Rattle.replica_log.specs.Sending.{Waits, content_in, bytes_in, IsSpelledIn, receivers_in, sent_in, after_sending, parcels_next, ArePacked, AreWhole, IsSealed};

use crate::keepers::Keeper;
use bft_msg::{encode, put_seal_front, signer};
use fab_base::{Answer, Bytes, Item, NoMemory, ReplicaId, Who};
use lms_tree::{SignFault, Signer};
use parcel_post::{Numbers, Prepared, prepare};
use replica_core::{Core, Event};
use run_words::{Entry, Parcels, Told};
use std::alloc::Global;

/// The parcels of what is to be signed: a content, the length of its signature in two bytes, and the signature, which is still open. The
/// numbers stay until they are sent. It fails only where memory is refused or 2^64 - 1 parcels were put to a receiver.
fn pack(
    alloc: Global,
    numbers: &Numbers,
    time: u64,
    content: &[u8],
    to: &[ReplicaId],
    signature_len: usize,
) -> Result<Prepared, NoMemory>
    requires { signature_len < 2 ^ 16 }
    ensures { IfOk result (λ draft. ArePacked numbers.now time content.now to.now signature_len draft) }
{
    let mut front = Vec::new(alloc);
    front.extend_from_slice(content)?;
    put_seal_front(&mut front, signature_len)?;
    prepare(alloc, numbers, time, &front, signature_len, to)
}

/// Whether an item waits. Takes no memory.
fn has_first(core: &Core) -> bool
    ensures some { result ≡ true → Waits (first core.now.state) }
    ensures none { result ≡ false → first core.now.state ≡ None }
{
    core.first().is_some()
}

/// Whether the first item that waits is to be signed by this replica. Takes no memory.
pub(crate) fn needs_leaf(me: ReplicaId, core: &Core) -> bool
    ensures { result ≡ needs_leaf me (first core.now.state) }
{
    match core.first() {
        Some(item) => signer(&item.message) == Some(Who::Replica(me)),
        None => false,
    }
}

/// Whether a leaf is left. Takes no memory.
fn has_leaf<S: Signer>(signer: &S) -> bool
    ensures some { result ≡ true → S.made signer.now < S.limit signer.now }
    ensures none { result ≡ false → S.made signer.now ≡ S.limit signer.now }
{
    // For the proof: no more leaves were used than there are.
    let _used = signer.used();
    !signer.spent()
}

/// The next signature, with room for its entry and for what was signed. After a refusal of memory the signer is what it was.
fn sign<S: Signer>(
    journal: &mut Vec<Entry>,
    signed: &mut Vec<Bytes>,
    signer: &mut S,
    content: &[u8],
) -> Result<Bytes, NoMemory>
    requires unspent { S.made signer.old < S.limit signer.old }
    ensures signed { IfOk result (λ sig. (sig ≡ S.gives signer.old (S.made signer.old) content.now) × (S.made signer.new ≡ S.made signer.old + 1)) }
    ensures len { IfOk result (λ sig. length sig ≡ tree_signature_len (S.key signer.old).ots (S.key signer.old).height) }
    ensures room { OnOk result ((vec_len journal.new < vec_capacity journal.new) × (vec_len signed.new < vec_capacity signed.new)) }
    ensures items { (journal.new.items ≡ journal.old.items) × (signed.new.items ≡ signed.old.items) }
    ensures same { (S.key signer.new ≡ S.key signer.old) × (S.limit signer.new ≡ S.limit signer.old) × (S.gives signer.new ≡ S.gives signer.old) }
    ensures refused { OnErr result (signer.new ≡ signer.old) }
{
    journal.reserve(1)?;
    signed.reserve(1)?;
    match signer.sign(content) {
        Ok(sig) => Ok(sig),
        Err(SignFault::NoMemory) => Err(NoMemory),
        Err(SignFault::KeySpent { .. }) => unreachable!(),
    }
}

/// Sends the first item that waits, with this signature where the replica itself signs it. Takes no memory.
fn send_first(core: &mut Core, sig: Bytes) -> Item
    requires calm { core.old.shut ≡ false }
    requires waits { Waits (first core.old.state) }
    ensures item { result ≡ sent_in core.old.me sig (first core.old.state) }
    ensures core { core.new ≡ after_sending core.old sig }
{
    match core.step(Event::Emit { sig }) {
        Ok(Answer::Sent(item)) => item,
        _ => unreachable!(),
    }
}

/// What is to be sent, but for its signature: all memory for it is taken.
#[derive(Drop)]
struct Outgoing {
    /// What is to be signed.
    content: Bytes,
    /// The parcels, whose signature is still open.
    parcels: Prepared,
}

impl<S: Signer + Drop> Keeper<S> {
    /// The first item, which the replica itself signs, with all memory for sending it. It fails only where memory is refused or 2^64 - 1
    /// parcels were put to a receiver.
    fn outgoing(&self) -> Result<Outgoing, NoMemory>
        requires waits { Waits (first self.now.core.state) }
        ensures content { IfOk result (λ out. out.content ≡ content_in self.now.core.me (first self.now.core.state)) }
        ensures parcels { IfOk result (λ out. ArePacked self.now.numbers self.now.clock out.content (receivers_in (first self.now.core.state))
            (tree_signature_len (S.key self.now.signer).ots (S.key self.now.signer).height) out.parcels) }
    {
        let item = self.core.first().unwrap();
        let content = self.core.draft()?.unwrap();
        let parcels = pack(
            *self.journal.allocator(),
            &self.numbers,
            self.clock,
            content.as_slice(),
            item.to.as_slice(),
            self.signer.public().signature_len(),
        )?;
        Ok(Outgoing { content, parcels })
    }

    /// Sends what is now signed, and enters it. Takes no memory: there is room for it.
    fn seal(&mut self, out: Outgoing, sig: Bytes) -> Parcels
        requires calm { self.old.core.shut ≡ false }
        requires waits { Waits (first self.old.core.state) }
        requires len { length sig ≡ out.parcels.room }
        requires journal { vec_len self.old.journal < vec_capacity self.old.journal }
        requires signed { vec_len self.old.signed < vec_capacity self.old.signed }
        ensures parcels { result ≡ sent_with sig out.parcels }
        ensures sealed { IsSealed self.old (out.content ∷ []) out.parcels sig self.new }
    {
        let parcels = out.parcels.send(&mut self.numbers, sig.as_slice());
        let item = send_first(&mut self.core, sig);
        self.journal.push(Entry::Sent(item)).unwrap();
        self.signed.push(out.content).unwrap();
        parcels
    }

    /// Sends the first item that waits, which the replica itself signs, by the next leaf. All memory is taken before the leaf is used: after a
    /// refusal nothing has changed.
    fn send(&mut self) -> Result<Parcels, NoMemory>
        requires kept { Keeps S.limit S.made S.gives self.old }
        requires live { IsLive S.limit S.gives self.old }
        requires waits { Waits (first self.old.core.state) }
        requires own { needs_leaf self.old.me (first self.old.core.state) ≡ true }
        requires unspent { S.made self.old.signer < S.limit self.old.signer }
        ensures parcels { IfOk result (λ parcels. parcels ≡ parcels_next (maker_of S.limit S.gives self.old) self.old.journal.items) }
        ensures enters { OnOk result (Enters S.limit S.made S.gives self.old
            (entry_of (maker_of S.limit S.gives self.old) self.old.journal.items Mover.Emit) self.new) }
        ensures err { OnErr result (IsLiveThen S.limit S.made S.gives self.old self.old.journal.items self.new) }
        ensures refused { OnErr result (self.new.signer ≡ self.old.signer) }
    {
        let out = self.outgoing()?;
        let sig = sign(
            &mut self.journal,
            &mut self.signed,
            &mut self.signer,
            out.content.as_slice(),
        );
        match sig {
            Ok(sig) => Ok(self.seal(out, sig)),
            Err(NoMemory) => {
                drop(out);
                Err(NoMemory)
            }
        }
    }

    /// The parcels of the first item as it stands: another signed it, or nobody does. It fails only where memory is refused or 2^64 - 1
    /// parcels were put to a receiver.
    fn passing(&self) -> Result<Prepared, NoMemory>
        requires waits { Waits (first self.now.core.state) }
        requires spelled { IsSpelledIn (first self.now.core.state) }
        ensures { IfOk result (λ draft. AreWhole self.now.numbers self.now.clock (bytes_in (first self.now.core.state))
            (receivers_in (first self.now.core.state)) draft) }
    {
        let item = self.core.first().unwrap();
        let alloc = *self.journal.allocator();
        let bytes = encode(alloc, &item.message)?;
        prepare(
            alloc,
            &self.numbers,
            self.clock,
            bytes.as_slice(),
            0,
            item.to.as_slice(),
        )
    }

    /// Sends these parcels of the first item, and enters it as it stands. Takes no memory: there is room for it.
    fn pass(&mut self, out: Prepared, none: Bytes) -> Parcels
        requires calm { self.old.core.shut ≡ false }
        requires waits { Waits (first self.old.core.state) }
        requires none { none ≡ [] }
        requires len { out.room ≡ 0 }
        requires journal { vec_len self.old.journal < vec_capacity self.old.journal }
        ensures parcels { result ≡ sent_with none out }
        ensures sealed { IsSealed self.old [] out none self.new }
    {
        let parcels = out.send(&mut self.numbers, none.as_slice());
        let item = send_first(&mut self.core, none);
        self.journal.push(Entry::Sent(item)).unwrap();
        parcels
    }

    /// Passes on the first item that waits, which the replica doesn't sign: it is sent as it stands, and no leaf is used. All memory is taken
    /// first: after a refusal nothing has changed.
    fn pass_on(&mut self) -> Result<Parcels, NoMemory>
        requires kept { Keeps S.limit S.made S.gives self.old }
        requires live { IsLive S.limit S.gives self.old }
        requires waits { Waits (first self.old.core.state) }
        requires another { needs_leaf self.old.me (first self.old.core.state) ≡ false }
        ensures parcels { IfOk result (λ parcels. parcels ≡ parcels_next (maker_of S.limit S.gives self.old) self.old.journal.items) }
        ensures enters { OnOk result (Enters S.limit S.made S.gives self.old
            (entry_of (maker_of S.limit S.gives self.old) self.old.journal.items Mover.Emit) self.new) }
        ensures err { OnErr result (IsLiveThen S.limit S.made S.gives self.old self.old.journal.items self.new) }
        ensures signer { self.new.signer ≡ self.old.signer }
    {
        let out = self.passing()?;
        match self.journal.reserve(1) {
            Ok(()) => {
                let none = Bytes::new(*self.journal.allocator());
                Ok(self.pass(out, none))
            }
            Err(_) => {
                drop(out);
                Err(NoMemory)
            }
        }
    }

    /// Sends the first item that waits, signed by the next leaf where the replica itself signs it, and as it stands where it doesn't. All
    /// memory is taken before the leaf is used: after a refusal nothing has changed.
    pub(crate) fn emit(&mut self) -> Result<Told, NoMemory>
        requires kept { Keeps S.limit S.made S.gives self.old }
        requires live { IsLive S.limit S.gives self.old }
        ensures told { IfOk result (λ told. told ≡ told_of_emit (maker_of S.limit S.gives self.old) self.old.journal.items) }
        ensures moves { IfOk result (λ told. Moves S.limit S.made S.gives self.old
            (entry_of (maker_of S.limit S.gives self.old) self.old.journal.items Mover.Emit)
            (moves (maker_of S.limit S.gives self.old) self.old.journal.items Mover.Emit) self.new) }
        ensures err { OnErr result (IsLiveThen S.limit S.made S.gives self.old self.old.journal.items self.new) }
        ensures signer { KeepsSigner (told_anyway result) self.old.signer self.new.signer }
    {
        if !has_first(&self.core) {
            return Ok(Told::Core(Answer::Nothing));
        }
        if !needs_leaf(self.me, &self.core) {
            return Ok(Told::Out(self.pass_on()?));
        }
        if !has_leaf(&self.signer) {
            return Ok(Told::KeySpent {
                used: self.signer.used(),
            });
        }
        Ok(Told::Out(self.send()?))
    }
}
