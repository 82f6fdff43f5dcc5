//! What a replica asks others for.
ghost use Rattle.std.specs.Prelude.{◌≡◌, OnOk};
ghost use Rattle.fab_base.specs.declared.messages.Message.{Message};
ghost use Rattle.fab_rules.specs.Spelling.{plea_body, body_of};
ghost use Rattle.fab_rules.specs.Format.{plea_fits, ask_fits};
ghost use Rattle.msg_spell.specs.Pieces.{Gains};

use crate::fields::{id_fits, put_replica, put_u8, put_u32, put_u64, signature_fits};
use crate::tags::FETCH;
use crate::writers::Writer;
use fab_base::{Ask, Plea};

/// Whether a plea is within the ranges and lengths.
pub fn plea_fits(plea: &Plea) -> bool
    ensures { result ≡ plea_fits plea.now }
{
    let _target = plea.target;
    let _round = plea.round;
    let _count = plea.count;
    id_fits(plea.signer) && signature_fits(&plea.sig)
}

/// Writes what is signed of a plea, but for the format, under the tag of a Drvc or of an Rvc.
pub fn put_plea_body<W: Writer>(out: &mut W, tag: u8, plea: &Plea) -> Result<(), W::Fault>
    ensures { OnOk result (Gains W.holds out.old out.new (plea_body tag plea.now)) }
{
    put_u8(out, tag)?;
    put_replica(out, plea.signer)?;
    put_u8(out, plea.target)?;
    put_u64(out, plea.round)?;
    put_u32(out, plea.count)?;
    Ok(())
}

/// That an ask is within the ranges, as its type tells.
pub fn ask_fits(ask: &Ask) -> bool
    ensures { result ≡ ask_fits ask.now }
{
    let _cluster = ask.cluster;
    let _round = ask.round;
    id_fits(ask.asker)
}

/// Writes an ask, but for the format. It has no signature.
pub fn put_ask<W: Writer>(out: &mut W, ask: &Ask) -> Result<(), W::Fault>
    ensures { OnOk result (Gains W.holds out.old out.new (body_of (Message.Fetch ask.now))) }
{
    put_u8(out, FETCH)?;
    put_replica(out, ask.asker)?;
    put_u8(out, ask.cluster)?;
    put_u64(out, ask.round)?;
    Ok(())
}
