//! Operations, requests, batches, and what is proposed.
ghost use Rattle.std.specs.Prelude.{◌≡◌, IsTrue, OnOk};
ghost use Rattle.fab_base.specs.Fields.{op_fits};
ghost use Rattle.fab_rules.specs.Spelling.{op_bytes, request_body, spelling_of_batch, pre_prepare_body};
ghost use Rattle.fab_rules.specs.Format.{request_fits, batch_fits, proposal_fits};
ghost use Rattle.msg_spell.specs.Pieces.{Gains};

use crate::fields::{
    bytes_fit, id_fits, put_replica, put_short, put_signature, put_u8, put_u32, put_u64,
    signature_fits,
};
use crate::spelled::{Fits, Spelled, all_fit, put_counted};
use crate::tags::{CUT, GET, PRE_PREPARE, PUT, REQUEST, SWAP};
use crate::writers::Writer;
use fab_base::{Batch, LONGEST_KEY, LONGEST_VALUE, MOST_REQUESTS, Op, PrePrepare, Request};

/// Whether the key and the values of an operation are within their lengths.
fn op_fits(op: &Op) -> bool
    ensures { result ≡ op_fits op.now }
{
    match op {
        Op::Put { key, value } => {
            bytes_fit(key.as_slice(), LONGEST_KEY) && bytes_fit(value.as_slice(), LONGEST_VALUE)
        }
        Op::Get { key } => bytes_fit(key.as_slice(), LONGEST_KEY),
        Op::Cut { key } => bytes_fit(key.as_slice(), LONGEST_KEY),
        Op::Swap {
            key,
            expected,
            fresh,
        } => {
            bytes_fit(key.as_slice(), LONGEST_KEY)
                && bytes_fit(expected.as_slice(), LONGEST_VALUE)
                && bytes_fit(fresh.as_slice(), LONGEST_VALUE)
        }
    }
}

impl Fits for Request {
    ghost use Rattle.fab_rules.specs.Format.{request_fits};

    ghost fits = { request_fits };

    fn fits(&self) -> bool {
        let _number = self.client.number;
        let _stamp = self.stamp;
        op_fits(&self.op) && signature_fits(&self.sig)
    }
}

/// Whether there are at most so many requests as a batch may have, each within the ranges and lengths.
pub fn batch_fits(batch: &Batch) -> bool
    ensures { result ≡ batch_fits batch.now }
{
    batch.len() <= MOST_REQUESTS as usize && all_fit(batch.as_slice())
}

/// Whether a proposal is within the ranges, counts and lengths.
pub fn proposal_fits(proposal: &PrePrepare) -> bool
    ensures { result ≡ proposal_fits proposal.now }
{
    let _view = proposal.view;
    let _slot = proposal.slot;
    id_fits(proposal.signer) && batch_fits(&proposal.batch) && signature_fits(&proposal.sig)
}

/// Writes an operation: its kind, its key and its values.
fn put_op<W: Writer>(out: &mut W, op: &Op) -> Result<(), W::Fault>
    requires { IsTrue (op_fits op.now) }
    ensures { OnOk result (Gains W.holds out.old out.new (op_bytes op.now)) }
{
    match op {
        Op::Put { key, value } => {
            put_u8(out, PUT)?;
            put_short(out, key)?;
            put_short(out, value)
        }
        Op::Get { key } => {
            put_u8(out, GET)?;
            put_short(out, key)
        }
        Op::Cut { key } => {
            put_u8(out, CUT)?;
            put_short(out, key)
        }
        Op::Swap {
            key,
            expected,
            fresh,
        } => {
            put_u8(out, SWAP)?;
            put_short(out, key)?;
            put_short(out, expected)?;
            put_short(out, fresh)
        }
    }
}

/// Writes what is signed of a request, but for the format.
pub fn put_request_body<W: Writer>(out: &mut W, request: &Request) -> Result<(), W::Fault>
    requires { IsTrue (request_fits request.now) }
    ensures { OnOk result (Gains W.holds out.old out.new (request_body request.now)) }
{
    put_u8(out, REQUEST)?;
    put_u8(out, request.client.number)?;
    put_u32(out, request.stamp)?;
    put_op(out, &request.op)?;
    Ok(())
}

impl Spelled for Request {
    ghost use Rattle.fab_rules.specs.Spelling.{request_bytes};

    ghost spelling = { request_bytes };

    fn put<W: Writer>(&self, out: &mut W) -> Result<(), W::Fault> {
        put_request_body(out, self)?;
        put_signature(out, &self.sig)?;
        Ok(())
    }
}

/// Writes the number of the requests and their spellings.
pub fn put_batch<W: Writer>(out: &mut W, batch: &Batch) -> Result<(), W::Fault>
    requires { IsTrue (batch_fits batch.now) }
    ensures { OnOk result (Gains W.holds out.old out.new (spelling_of_batch batch.now)) }
{
    put_counted(out, batch)
}

/// Writes what is signed of a proposal, but for the format.
pub fn put_proposal_body<W: Writer>(out: &mut W, proposal: &PrePrepare) -> Result<(), W::Fault>
    requires { IsTrue (proposal_fits proposal.now) }
    ensures { OnOk result (Gains W.holds out.old out.new (pre_prepare_body proposal.now)) }
{
    put_u8(out, PRE_PREPARE)?;
    put_replica(out, proposal.signer)?;
    put_u64(out, proposal.view)?;
    put_u64(out, proposal.slot)?;
    put_batch(out, &proposal.batch)?;
    Ok(())
}
