//! The lines of a report that say who has which ledger, who is faulty, and how the run ended.
ghost use Rattle.std.specs.Prelude.{◌≡◌, ◌<◌, ◌≤◌, ◌++◌, codes, length, sum, IfOk, OnOk};
ghost use Rattle.hex.specs.Hex.{encode_lower};
ghost use Rattle.ledger_report.specs.Report.{id_text, head_line, ledger_line, kind_text, faulty_line, who_text, end_text, end_line};

use crate::text::{push_bytes, push_number};
use fab_base::{Hash32, MOST_REPLICAS, NoMemory, ReplicaId, Who};
use fault_script::Fault;
use round_exec::Rounds;
use run_words::{End, Evidence};

/// Adds a digest in lower-case hex.
fn push_digest(text: &mut Vec<u8>, digest: &Hash32) -> Result<(), NoMemory>
    ensures { OnOk result (text.new.items ≡ text.old.items ++ encode_lower digest.now.bytes) }
{
    let mut digits = [0; 64];
    hex::encode_to_slice(&digest.bytes[..], &mut digits).unwrap();
    push_bytes(text, &digits)
}

/// Adds an id.
fn push_id(text: &mut Vec<u8>, id: ReplicaId) -> Result<(), NoMemory>
    ensures { OnOk result (text.new.items ≡ text.old.items ++ id_text id) }
{
    push_number(text, id.cluster as u64)?;
    push_bytes(text, b".")?;
    push_number(text, id.index as u64)
}

/// The sum of the sizes of clusters, within the limits of a fabric.
fn sum_of(sizes: &[u8]) -> u64
    requires { sum sizes.now ≤ MOST_REPLICAS }
    ensures { result ≡ sum sizes.now }
{
    let mut total = 0;
    for size in sizes {
        total += *size as u64;
    }
    total
}

/// Adds the first line: how many clusters and replicas there are.
pub(crate) fn push_head(text: &mut Vec<u8>, sizes: &[u8]) -> Result<(), NoMemory>
    requires { sum sizes.now ≤ MOST_REPLICAS }
    ensures { OnOk result (text.new.items ≡ text.old.items ++ head_line sizes.now) }
{
    push_bytes(text, b"fabric ")?;
    push_number(text, sizes.len() as u64)?;
    push_bytes(text, b" ")?;
    push_number(text, sum_of(sizes))?;
    push_bytes(text, b"\n")
}

/// Adds the line of a replica's ledger, and answers how many blocks that has.
pub(crate) fn push_ledger(
    text: &mut Vec<u8>,
    clusters: u8,
    id: ReplicaId,
    rounds: &Rounds,
) -> Result<usize, NoMemory>
    requires { 0 < clusters }
    ensures line { OnOk result (text.new.items ≡ text.old.items ++ ledger_line clusters id rounds.now.rounds.blocks) }
    ensures blocks { IfOk result (λ blocks. blocks ≡ length rounds.now.rounds.blocks) }
{
    let blocks = rounds.ledger().len();
    push_bytes(text, b"ledger ")?;
    push_id(text, id)?;
    push_bytes(text, b" ")?;
    push_number(text, blocks as u64 / clusters as u64)?;
    push_bytes(text, b" ")?;
    push_digest(text, &rounds.chain())?;
    push_bytes(text, b"\n")?;
    Ok(blocks)
}

/// Adds what a replica has wrong, as a script says it.
fn push_kind(text: &mut Vec<u8>, fault: Fault) -> Result<(), NoMemory>
    ensures { OnOk result (text.new.items ≡ text.old.items ++ kind_text fault) }
{
    match fault {
        Fault::Silent => push_bytes(text, b"silent"),
        Fault::Equivocate => push_bytes(text, b"equivocate"),
        Fault::Withhold { cluster } => {
            push_bytes(text, b"withhold ")?;
            push_number(text, cluster as u64)
        }
        Fault::Garble { every } => {
            push_bytes(text, b"garble ")?;
            push_number(text, every as u64)
        }
        Fault::Replay => push_bytes(text, b"replay"),
    }
}

/// Adds the line of a faulty replica.
pub(crate) fn push_faulty(text: &mut Vec<u8>, id: ReplicaId, fault: Fault) -> Result<(), NoMemory>
    ensures { OnOk result (text.new.items ≡ text.old.items ++ faulty_line id fault) }
{
    push_bytes(text, b"faulty ")?;
    push_id(text, id)?;
    push_bytes(text, b" ")?;
    push_kind(text, fault)?;
    push_bytes(text, b"\n")
}

/// Adds whoever signs.
fn push_who(text: &mut Vec<u8>, who: Who) -> Result<(), NoMemory>
    ensures { OnOk result (text.new.items ≡ text.old.items ++ who_text who) }
{
    match who {
        Who::Replica(id) => push_id(text, id),
        Who::Client(client) => {
            push_bytes(text, b"client ")?;
            push_number(text, client.number as u64)
        }
    }
}

/// Adds how the run ended.
fn push_ending(text: &mut Vec<u8>, end: &End) -> Result<(), NoMemory>
    ensures { OnOk result (text.new.items ≡ text.old.items ++ end_text end.now) }
{
    match end {
        End::Done => push_bytes(text, b"done"),
        End::Stalled { client, stamp } => {
            push_bytes(text, b"stalled ")?;
            push_number(text, client.number as u64)?;
            push_bytes(text, b" ")?;
            push_number(text, *stamp as u64)
        }
        End::Spent { entries } => {
            push_bytes(text, b"spent ")?;
            push_number(text, *entries)
        }
        End::Broken(evidence) => push_evidence(text, evidence),
    }
}

/// Adds what was forged, or which digest two batches share.
fn push_evidence(text: &mut Vec<u8>, evidence: &Evidence) -> Result<(), NoMemory>
    ensures { OnOk result (text.new.items ≡ text.old.items ++ end_text (End.Broken evidence.now)) }
{
    match evidence {
        Evidence::Forged {
            replica,
            place,
            signer,
        } => {
            push_bytes(text, b"forged ")?;
            push_id(text, *replica)?;
            push_bytes(text, b" ")?;
            push_number(text, *place)?;
            push_bytes(text, b" ")?;
            push_who(text, *signer)
        }
        Evidence::Clash { digest, .. } => push_clash(text, digest),
    }
}

/// Adds the digest that two batches share.
fn push_clash(text: &mut Vec<u8>, digest: &Hash32) -> Result<(), NoMemory>
    ensures { OnOk result (text.new.items ≡ text.old.items ++ (codes "clash " ++ encode_lower digest.now.bytes)) }
{
    push_bytes(text, b"clash ")?;
    push_digest(text, digest)
}

/// Adds the last line.
pub(crate) fn push_end(text: &mut Vec<u8>, end: &End) -> Result<(), NoMemory>
    ensures { OnOk result (text.new.items ≡ text.old.items ++ end_line end.now) }
{
    push_bytes(text, b"end ")?;
    push_ending(text, end)?;
    push_bytes(text, b"\n")
}
