//! A deliver_sm read as a delivery receipt.

ghost use Rattle.std.specs.Prelude.{◌≡◌, codes};
ghost use Rattle.sms_pdu.specs.Borrowed.{owned_sm};
ghost use Rattle.sms_inbox.specs.Receipt.{code_or, error_text, has_receipt_text, in_text as said_in_text, or_else as this_or, receipt_in, said_by, text_of as text_said};

use crate::parameters::{
    MESSAGE_PAYLOAD, RECEIPTED_MESSAGE_ID, before_zero, code_in, state_in, value_of,
};
use crate::words::{Fields, fields_in};
use sms_pdu::SmRef;

/// Why a message was not delivered, in the network's own numbers.
#[derive(Clone, Copy, Debug)]
pub enum ErrorRef<'a> {
    /// As the text says it, or nothing.
    Text(&'a [u8]),
    /// As a parameter says it.
    Code(u16),
}

/// What a receipt says of a message. Empty octets say nothing.
#[derive(Clone, Copy, Debug)]
pub struct Receipt<'a> {
    /// The id by which the centre answered the submit_sm, in whatever digits.
    pub id: &'a [u8],
    /// What became of the message, by a word of Appendix B.
    pub state: &'a [u8],
    pub error: ErrorRef<'a>,
}

/// The first octets, or the others where there are none.
fn or_else<'a>(first: &'a [u8], others: &'a [u8]) -> &'a [u8]
    ensures { result.now ≡ this_or first.now others.now }
{
    if first.is_empty() { others } else { first }
}

/// Whether a deliver_sm's text is that of a receipt: it has an SMSC delivery receipt or an intermediate notification
/// (SMPP 3.4 5.2.12).
fn is_receipt(esm_class: u8) -> bool
    ensures { result ≡ has_receipt_text esm_class }
{
    let kind = esm_class / 4 % 16;
    kind == 1 || kind == 8
}

/// The text of a deliver_sm, which may be a parameter (SMPP 3.4 5.3.2.32).
pub(crate) fn text_of<'a>(sm: &SmRef<'a>) -> &'a [u8]
    ensures { result.now ≡ text_said (owned_sm sm.now) }
{
    or_else(sm.short_message, value_of(MESSAGE_PAYLOAD, sm.params))
}

/// The fields of the text, where that is a receipt's.
fn in_text<'a>(sm: &SmRef<'a>) -> Fields<'a>
    ensures id { result.id.now ≡ said_in_text (codes "id:") (owned_sm sm.now) }
    ensures stat { result.stat.now ≡ said_in_text (codes "stat:") (owned_sm sm.now) }
    ensures err { result.err.now ≡ said_in_text (codes "err:") (owned_sm sm.now) }
{
    if is_receipt(sm.esm_class) {
        fields_in(text_of(sm))
    } else {
        Fields {
            id: &[],
            stat: &[],
            err: &[],
        }
    }
}

/// An error code, or else what the text says.
fn code_or_text<'a>(code: Option<u16>, text: &'a [u8]) -> ErrorRef<'a>
    ensures { error_text result ≡ code_or code text.now }
{
    match code {
        Some(code) => ErrorRef::Code(code),
        None => ErrorRef::Text(text),
    }
}

/// What a deliver_sm says as a receipt: each of id, state and error by the optional parameter that has it (SMPP 3.4 5.3.2.12,
/// 5.3.2.35, 5.3.2.31), else by the text of a receipt (Appendix B), else nothing.
pub fn receipt_of<'a>(sm: &SmRef<'a>) -> Receipt<'a>
    ensures { said_by result ≡ receipt_in (owned_sm sm.now) }
{
    let id = before_zero(value_of(RECEIPTED_MESSAGE_ID, sm.params));
    let state = state_in(sm.params);
    match code_in(sm.params) {
        Some(code) if !id.is_empty() && !state.is_empty() => Receipt {
            id,
            state,
            error: ErrorRef::Code(code),
        },
        code => {
            let fields = in_text(sm);
            Receipt {
                id: or_else(id, fields.id),
                state: or_else(state, fields.stat),
                error: code_or_text(code, fields.err),
            }
        }
    }
}
