//! The length of a PDU's spelling, or its first fault, before anything is written.

ghost use Rattle.std.specs.Prelude.{◌≡◌, ℕ, List, ◌+◌, ◌^◌, ◌<◌, ◌≤◌, length, Ok, option_copied};
ghost use Rattle.sms_pdu.specs.Layout.{sm_fields, bind_fields};
ghost use Rattle.sms_pdu.specs.Grammar.{sm_values, Spells};
ghost use Rattle.sms_pdu.specs.Borrowed.{bind_values, owned_sm, owned_body, owned_pdu};
ghost use Rattle.sms_pdu.specs.Size.{size_of, text_size, time_size, message_size, values_size, parameters_fit, parameters_checked, whole_size, tail_size, sm_size, absent_size, bind_resp_size, message_id_size, bind_size, body_size};

use crate::borrowed::{BindRef, BodyRef, PduRef, SmRef};
use crate::error::PduError;
use crate::field::Field;
use crate::header::{HEADER_LENGTH, MOST_LENGTH};
use crate::layout::{
    MESSAGE_MAXIMUM, TIME_LENGTH, bind_fields, bind_resp_fields, sm_fields, sm_resp_fields,
};
use crate::octets::has_zero;
use crate::parameter::Parameter;

/// The length of a C-Octet String with its 0.
#[tactic(auto, unfolding(crate::specs::Size::text_size))]
#[inline(always)]
fn text(field: Field, maximum: u8, text: &[u8]) -> Result<u8, PduError>
    ensures { result ≡ text_size field maximum text.now }
{
    if text.len() >= maximum as usize {
        return Err(PduError::TooLong { field });
    }
    if has_zero(text) {
        return Err(PduError::Malformed { field });
    }
    Ok(text.len() as u8 + 1)
}

/// The length of a time with its 0.
#[tactic(auto, unfolding(crate::specs::Size::time_size))]
#[inline(always)]
fn time(field: Field, time: &[u8]) -> Result<u8, PduError>
    ensures { result ≡ time_size field time.now }
{
    let size = text(field, TIME_LENGTH + 1, time)?;
    if size == 1 || size == TIME_LENGTH + 1 {
        Ok(size)
    } else {
        Err(PduError::Malformed { field })
    }
}

/// The length of a short_message with its sm_length.
#[tactic(auto, unfolding(crate::specs::Size::message_size))]
fn message(message: &[u8]) -> Result<u8, PduError>
    ensures { result ≡ message_size message.now }
{
    if message.len() > MESSAGE_MAXIMUM {
        return Err(PduError::TooLong {
            field: Field::ShortMessage,
        });
    }
    Ok(message.len() as u8 + 1)
}

/// No value of a parameter is too long.
#[tactic(auto, unfolding(crate::specs::Size::parameters_checked))]
fn check_parameters(params: &[Parameter]) -> Result<(), PduError>
    ensures { result ≡ parameters_checked params.now }
{
    if values_fit(params) {
        Ok(())
    } else {
        Err(PduError::TooLong {
            field: Field::Params,
        })
    }
}

/// Whether each value has a length of two octets (SMPP 3.4 5.3.1).
fn values_fit(params: &[Parameter]) -> bool
    ensures { result ≡ parameters_fit params.now }
{
    params.iter().all(|p| p.value.len() < 0x1_0000)
}

/// The length of the whole: what stands before the parameters, and they.
fn whole(before: usize, params: &[Parameter]) -> Result<usize, PduError>
    requires { before ≤ 70000 }
    ensures { result ≡ whole_size before params.now }
{
    let mut size = before;
    for p in params {
        let len = p.value.len();
        if len > MOST_LENGTH || size + 4 + len > MOST_LENGTH {
            return Err(PduError::TooLong {
                field: Field::Whole,
            });
        }
        size += 4 + len;
    }
    Ok(size)
}

/// The length of the whole with its parameters.
#[tactic(auto, unfolding(crate::specs::Size::tail_size))]
#[inline(always)]
fn tail(before: usize, params: &[Parameter]) -> Result<usize, PduError>
    requires { before ≤ 70000 }
    ensures { result ≡ tail_size before params.now }
{
    check_parameters(params)?;
    whole(before, params)
}

/// The length of a row's field of this value, or its fault.
macro_rules! measure_field {
    (($value:expr) $name:ident: $field:ident is number,) => {
        1
    };
    (($value:expr) $name:ident: $field:ident is text($maximum:literal),) => {
        text(Field::$field, $maximum, $value)?
    };
    (($value:expr) $name:ident: $field:ident is time,) => {
        time(Field::$field, $value)?
    };
    (($value:expr) $name:ident: $field:ident is message,) => {
        message($value)?
    };
}

/// The length of the fields of a table behind `$before` octets, or the first fault from left to
/// right.
macro_rules! measure_fields {
    (
        ($before:ident, $of:ident)
        $($name:ident: $field:ident is $kind:ident $(($maximum:literal))?,)*
    ) => {{
        let size: usize = $before;
        $(let size = size
            + measure_field!(($of.$name) $name: $field is $kind $(($maximum))?,) as usize;)*
        size
    }};
}

/// The length of a bind.
#[tactic(auto, unfolding(crate::specs::Size::bind_size))]
fn bind(bind: &BindRef<'_>) -> Result<usize, PduError>
    ensures { result ≡ bind_size (bind_values bind.now) }
{
    Ok(bind_fields!(measure_fields!(HEADER_LENGTH, bind)))
}

/// The length of a PDU with a message.
#[tactic(auto, unfolding(crate::specs::Size::sm_size))]
#[inline(always)]
fn sm(sm: &SmRef<'_>) -> Result<usize, PduError>
    ensures { result ≡ sm_size (owned_sm sm.now) }
{
    let size = sm_fields!(measure_fields!(HEADER_LENGTH, sm));
    tail(size, sm.params)
}

/// The length of a bind's response.
#[tactic(auto, unfolding(crate::specs::Size::bind_resp_size))]
fn bind_resp(status: u32, system_id: Option<&[u8]>, params: &[Parameter]) -> Result<usize, PduError>
    ensures { result ≡ bind_resp_size status (option_copied system_id.entry) params.now }
{
    match system_id {
        None => {
            if status == 0 {
                return Err(PduError::Malformed {
                    field: Field::SystemId,
                });
            }
            check_parameters(params)?;
            absent(params)
        }
        Some(system_id) => {
            let size = bind_resp_fields!(measure_field!(system_id));
            tail(HEADER_LENGTH + size as usize, params)
        }
    }
}

/// The length of a response without a body.
fn absent(params: &[Parameter]) -> Result<usize, PduError>
    ensures { result ≡ absent_size params.now }
{
    match params {
        [] => Ok(HEADER_LENGTH),
        [_, ..] => Err(PduError::Malformed {
            field: Field::Params,
        }),
    }
}

/// The length of a response to a message.
#[tactic(auto, unfolding(crate::specs::Size::message_id_size))]
fn message_id(status: u32, message_id: Option<&[u8]>) -> Result<usize, PduError>
    ensures { result ≡ message_id_size status (option_copied message_id.entry) }
{
    match message_id {
        None => {
            if status == 0 {
                Err(PduError::Malformed {
                    field: Field::MessageId,
                })
            } else {
                Ok(HEADER_LENGTH)
            }
        }
        Some(message_id) => {
            let size = sm_resp_fields!(measure_field!(message_id));
            Ok(HEADER_LENGTH + size as usize)
        }
    }
}

/// The length of a PDU with this body.
#[inline(always)]
pub(crate) fn body_length(status: u32, body: &BodyRef<'_>) -> Result<usize, PduError>
    ensures { result ≡ body_size status (owned_body body.now) }
{
    match body {
        BodyRef::Bind(fields) => bind(fields),
        BodyRef::BindResp {
            mode: _,
            system_id,
            params,
        } => bind_resp(status, *system_id, params),
        BodyRef::Submit(fields) => sm(fields),
        BodyRef::Deliver(fields) => sm(fields),
        BodyRef::SubmitResp { message_id: id } => message_id(status, *id),
        BodyRef::DeliverResp { message_id: id } => message_id(status, *id),
        BodyRef::Unbind
        | BodyRef::UnbindResp
        | BodyRef::EnquireLink
        | BodyRef::EnquireLinkResp
        | BodyRef::GenericNack => Ok(HEADER_LENGTH),
    }
}

/// How many octets spell the PDU, or why none do: the first fault of its fields from left to right,
/// and then of the length of the whole. Takes no memory.
#[inline(always)]
pub fn encoded_length(pdu: &PduRef<'_>) -> Result<usize, PduError>
    // The length, or which fault it is.
    ensures exact { result ≡ size_of (owned_pdu pdu.now) }
    // What spells the PDU has this length.
    ensures only { (octets : List ℕ) → Spells (owned_pdu pdu.now) octets → result ≡ Ok (length octets) }
{
    body_length(pdu.status, &pdu.body)
}
