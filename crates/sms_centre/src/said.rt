//! The pieces that the centre writes, and their octets.

ghost use Rattle.std.specs.Prelude.{◌≡◌, ◌++◌, List, ℕ, IfOk, OnOk, OnErr};
ghost use Rattle.std.specs.List.{AllZip};
ghost use Rattle.sms_pdu.specs.Borrowed.{owned_pdu, owned_sm};
ghost use Rattle.sms_pdu.specs.Writing.{Adds};
ghost use Rattle.sms_centre.specs.Says.{IsSaid, Puts, PutsAll, answer_to, empty_sm};
ghost use Rattle.sms_centre.specs.declared.said.Said.TheVariants.{BindResp, CutResp};

use sms_core::ESME_ROK;
use sms_pdu::{BodyRef, Mode, Octets, PduRef, SmRef, encode_into};
use std::alloc::{AllocError, Global};

/// A piece that the centre writes: a PDU, a truncated one, or a command_length alone.
#[derive(Clone, Copy, Debug, PartialEq, Eq)]
pub(crate) enum Said {
    /// The answer to a bind (SMPP 3.4 4.1.2, 4.1.6): with the system_id `TEST` where the status is
    /// 0, else without a body.
    BindResp {
        mode: Mode,
        status: u32,
        number: u32,
    },
    /// The answer to submit_sm k (4.4.2): with the message_id `m` and k in decimal where the status
    /// is 0, else without a body.
    SubmitResp {
        submit: u64,
        status: u32,
        number: u32,
    },
    /// The first ten octets of the answer with status 0 to submit_sm k.
    CutResp {
        submit: u64,
        number: u32,
    },
    /// A generic_nack (4.3.1).
    GenericNack {
        status: u32,
        number: u32,
    },
    /// An unbind of the centre's own, with sequence_number 1 (4.2.1).
    Unbind,
    /// The answer to an unbind (4.2.2).
    UnbindResp {
        number: u32,
    },
    /// The answer to an enquire_link (4.11.2).
    EnquireLinkResp {
        number: u32,
    },
    /// A deliver_sm with empty fields and sequence_number 2 (4.6.1).
    Deliver,
    /// A command_length that no PDU has.
    HugeLength,
}

/// The system_id of the centre.
const SYSTEM_ID: &[u8] = b"TEST";

/// How many octets of an answer that is cut are written.
const CUT: usize = 10;

/// A command_length that no PDU has.
const HUGE: u32 = 70_001;

/// The sequence_number of the centre's own unbind.
const UNBIND_NUMBER: u32 = 1;

/// The sequence_number of the centre's own deliver_sm.
const DELIVER_NUMBER: u32 = 2;

/// Writes a piece after what is there. An `Err` changes nothing.
pub(crate) fn put(alloc: Global, said: &Said, out: &mut Vec<u8>) -> Result<(), AllocError>
    ensures answers { OnOk result (Puts said.now out.old.items out.new.items) }
    ensures err { OnErr result (out.new.items ≡ out.old.items) }
{
    match *said {
        Said::BindResp {
            mode,
            status,
            number,
        } => put_bind_resp(mode, status, number, out),
        Said::SubmitResp {
            submit,
            status,
            number,
        } => put_answer(alloc, submit, status, number, out),
        Said::CutResp { submit, number } => put_cut(alloc, submit, number, out),
        Said::GenericNack { status, number } => put_pdu(status, number, BodyRef::GenericNack, out),
        Said::Unbind => put_pdu(ESME_ROK, UNBIND_NUMBER, BodyRef::Unbind, out),
        Said::UnbindResp { number } => put_pdu(ESME_ROK, number, BodyRef::UnbindResp, out),
        Said::EnquireLinkResp { number } => put_pdu(
            ESME_ROK,
            number,
            BodyRef::EnquireLinkResp,
            out,
        ),
        Said::Deliver => put_pdu(
            ESME_ROK,
            DELIVER_NUMBER,
            BodyRef::Deliver(empty_message()),
            out,
        ),
        Said::HugeLength => out.extend_from_slice(&HUGE.to_be_bytes()),
    }
}

/// Writes a PDU after what is there. An `Err` changes nothing.
fn put_pdu(status: u32, number: u32, body: BodyRef<'_>, out: &mut Vec<u8>) -> Result<(), AllocError>
    ensures answers { OnOk result (Adds (owned_pdu (record { status = status; number = number; body = body.entry })) out.old.items out.new.items) }
    ensures err { OnErr result (out.new.items ≡ out.old.items) }
{
    let pdu = PduRef {
        status,
        number,
        body,
    };
    match encode_into(out, &pdu) {
        Ok(_length) => Ok(()),
        Err(_full) => Err(AllocError),
    }
}

/// A message with empty fields.
fn empty_message() -> SmRef<'static>
    ensures { owned_sm result ≡ empty_sm }
{
    SmRef {
        service_type: &[],
        source_ton: 0,
        source_npi: 0,
        source_addr: &[],
        dest_ton: 0,
        dest_npi: 0,
        dest_addr: &[],
        esm_class: 0,
        protocol_id: 0,
        priority: 0,
        schedule: &[],
        validity: &[],
        registered: 0,
        replace: 0,
        data_coding: 0,
        default_msg: 0,
        short_message: &[],
        params: &[],
    }
}

/// Writes the answer to a bind.
fn put_bind_resp(mode: Mode, status: u32, number: u32, out: &mut Vec<u8>) -> Result<(), AllocError>
    ensures answers { OnOk result (Puts (BindResp mode status number) out.old.items out.new.items) }
    ensures err { OnErr result (out.new.items ≡ out.old.items) }
{
    let system_id = if status == ESME_ROK {
        Some(SYSTEM_ID)
    } else {
        None
    };
    let body = BodyRef::BindResp {
        mode,
        system_id,
        params: &[],
    };
    put_pdu(status, number, body, out)
}

/// Writes the answer to submit_sm k.
fn put_answer(
    alloc: Global,
    submit: u64,
    status: u32,
    number: u32,
    out: &mut Vec<u8>,
) -> Result<(), AllocError>
    ensures answers { OnOk result (Adds (answer_to submit status number) out.old.items out.new.items) }
    ensures err { OnErr result (out.new.items ≡ out.old.items) }
{
    if status != ESME_ROK {
        return put_pdu(
            status,
            number,
            BodyRef::SubmitResp { message_id: None },
            out,
        );
    }
    match format!(in alloc; "m{submit}") {
        Ok(id) => {
            let message_id = Some(id.as_bytes());
            put_pdu(ESME_ROK, number, BodyRef::SubmitResp { message_id }, out)
        }
        Err(_full) => Err(AllocError),
    }
}

/// Writes the beginning of the answer with status 0 to submit_sm k.
fn put_cut(alloc: Global, submit: u64, number: u32, out: &mut Vec<u8>) -> Result<(), AllocError>
    ensures answers { OnOk result (Puts (CutResp submit number) out.old.items out.new.items) }
    ensures err { OnErr result (out.new.items ≡ out.old.items) }
{
    let before = out.len();
    match put_answer(alloc, submit, ESME_ROK, number, out) {
        Ok(()) => {
            out.truncate(before + CUT);
            Ok(())
        }
        Err(e) => Err(e),
    }
}

/// Writes pieces one after another, up to where memory is refused.
pub(crate) fn put_all(alloc: Global, saids: &[Said], out: &mut Vec<u8>) -> Result<(), AllocError>
    ensures all { OnOk result (PutsAll saids.now out.old.items out.new.items) }
    ensures some { (more : List ℕ) × (out.new.items ≡ out.old.items ++ more) }
{
    for said in saids {
        put(alloc, said, out)?;
    }
    Ok(())
}

/// The octets of pieces, each by itself.
pub(crate) fn pieces_of(alloc: Global, saids: &[Said]) -> Result<Vec<Octets>, AllocError>
    ensures { IfOk result (λ v. AllZip IsSaid saids.now v.items) }
{
    let mut pieces = Vec::new(alloc);
    for said in saids {
        let piece = piece_of(alloc, said)?;
        if pieces.push(piece).is_err() {
            return Err(AllocError);
        }
    }
    Ok(pieces)
}

/// The octets of a piece.
fn piece_of(alloc: Global, said: &Said) -> Result<Octets, AllocError>
    ensures { IfOk result (λ octets. IsSaid said.now octets) }
{
    let mut octets = Vec::new(alloc);
    match put(alloc, said, &mut octets) {
        Ok(()) => Ok(Octets::new(octets)),
        Err(e) => Err(e),
    }
}
