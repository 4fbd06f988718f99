//! What is said to each frame: the table of the treatments, and the replies to all but submit_sm.

ghost use Rattle.std.specs.Prelude.{◌≡◌, ◌++◌, ◌∷◌, [], option_to_list, OnOk};
ghost use Rattle.sms_centre.specs.Says.{at_once, reply_said};
ghost use Rattle.sms_centre.specs.declared.said.Said.TheVariants.{SubmitResp};

use crate::said::Said;
use crate::treatment::Treatment;
use sms_core::{ESME_RINVCMDID, ESME_ROK};
use sms_pdu::{
    BIND_TRANSCEIVER, BIND_TRANSMITTER, ENQUIRE_LINK, FIRST_RESPONSE, Header, Mode, UNBIND,
};
use std::alloc::AllocError;

/// How far the sequence_number of a stray answer is from the submit_sm's.
const STRAY: u32 = 1_000_000;

/// Says what is said at once to submit_sm k.
pub(crate) fn say_at_once(
    treatment: Treatment,
    k: u64,
    number: u32,
    out: &mut Vec<Said>,
) -> Result<(), AllocError>
    ensures { OnOk result (out.new.items ≡ out.old.items ++ at_once treatment k number) }
{
    match treatment {
        Treatment::Status(status) => say(answer(k, status, number), out),
        Treatment::Nack(status) => say(Said::GenericNack { status, number }, out),
        Treatment::Silent => Ok(()),
        Treatment::Unbind => say(Said::Unbind, out),
        Treatment::Twice(status) => say_both(
            answer(k, status, number),
            answer(k, status, number),
            out,
        ),
        Treatment::Stray(status) => say(answer(k, status, number.wrapping_add(STRAY)), out),
        Treatment::Late {
            after: _,
            status: _,
        } => Ok(()),
        Treatment::Deliver => say_both(Said::Deliver, answer(k, ESME_ROK, number), out),
        Treatment::Cut => say(Said::CutResp { submit: k, number }, out),
        Treatment::Huge => say(Said::HugeLength, out),
    }
}

/// The answer to submit_sm k.
fn answer(k: u64, status: u32, number: u32) -> Said
    ensures { result ≡ SubmitResp k status number }
{
    Said::SubmitResp {
        submit: k,
        status,
        number,
    }
}

/// Says a piece.
pub(crate) fn say(said: Said, out: &mut Vec<Said>) -> Result<(), AllocError>
    ensures { OnOk result (out.new.items ≡ out.old.items ++ said ∷ []) }
{
    match out.push(said) {
        Ok(()) => Ok(()),
        Err(_full) => Err(AllocError),
    }
}

/// Says two pieces.
fn say_both(first: Said, second: Said, out: &mut Vec<Said>) -> Result<(), AllocError>
    ensures { OnOk result (out.new.items ≡ out.old.items ++ first ∷ second ∷ []) }
{
    match say(first, out) {
        Ok(()) => say(second, out),
        Err(e) => Err(e),
    }
}

/// What is said to any frame but a submit_sm. A response is said nothing.
pub(crate) fn reply_to(bind_status: u32, header: &Header) -> Option<Said>
    ensures { option_to_list result ≡ reply_said bind_status header.now }
{
    let number = header.number;
    match header.command {
        BIND_TRANSMITTER => Some(Said::BindResp {
            mode: Mode::Transmitter,
            status: bind_status,
            number,
        }),
        BIND_TRANSCEIVER => Some(Said::BindResp {
            mode: Mode::Transceiver,
            status: bind_status,
            number,
        }),
        UNBIND => Some(Said::UnbindResp { number }),
        ENQUIRE_LINK => Some(Said::EnquireLinkResp { number }),
        FIRST_RESPONSE.. => None,
        _ => Some(Said::GenericNack {
            status: ESME_RINVCMDID,
            number,
        }),
    }
}
