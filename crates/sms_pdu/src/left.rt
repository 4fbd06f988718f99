//! Fields read one after the other, where the first fault stays: behind it nothing is read, and it
//! is asked for once, at the end.

ghost use Rattle.std.specs.Prelude.{◌≡◌, [], Ok, Err, IfOk, IfErr};
ghost use Rattle.sms_pdu.specs.Reading.{ReadsOn, number_octet_at, text_at, time_at, message_at};

use crate::error::PduError;
use crate::field::Field;
use crate::reading::{message, number, text, time};

/// The octets of a body that are left, or the first fault of the fields before them.
pub(crate) type Left<'a> = Result<&'a [u8], PduError>;

/// The next octet. (0 where there is a fault.)
#[inline(always)]
pub(crate) fn next_number(field: Field, left: &mut Left<'_>) -> u8
    ensures { ReadsOn (λ n. n) 0 (number_octet_at field) left.old (result, left.new) }
{
    let Ok(octets) = *left else {
        return 0;
    };
    match number(field, octets) {
        Ok((number, rest)) => {
            *left = Ok(rest);
            number
        }
        Err(fault) => {
            *left = Err(fault);
            0
        }
    }
}

/// The next C-Octet String (SMPP 3.4 3.1). (No octets where there is a fault.)
#[inline(always)]
pub(crate) fn next_text<'a>(field: Field, maximum: usize, left: &mut Left<'a>) -> &'a [u8]
    ensures { ReadsOn (λ string. string.now) [] (text_at field maximum) left.old (result, left.new) }
{
    let Ok(octets) = *left else {
        return &[];
    };
    kept(left, text(field, maximum, octets))
}

/// The next time (SMPP 3.4 7.1.1). (No octets where there is a fault.)
#[inline(always)]
pub(crate) fn next_time<'a>(field: Field, left: &mut Left<'a>) -> &'a [u8]
    ensures { ReadsOn (λ string. string.now) [] (time_at field) left.old (result, left.new) }
{
    let Ok(octets) = *left else {
        return &[];
    };
    kept(left, time(field, octets))
}

/// The next short_message, behind its sm_length. (No octets where there is a fault.)
#[inline(always)]
pub(crate) fn next_message<'a>(left: &mut Left<'a>) -> &'a [u8]
    ensures { ReadsOn (λ string. string.now) [] message_at left.old (result, left.new) }
{
    let Ok(octets) = *left else {
        return &[];
    };
    kept(left, message(octets))
}

/// The string that was read; what stands after it, or the fault, is left. (No octets where there is
/// a fault.)
#[inline(always)]
fn kept<'a>(left: &mut Left<'a>, read: Result<(&'a [u8], &'a [u8]), PduError>) -> &'a [u8]
    ensures string { IfOk read.entry (λ x. (result ≡ x.0) × (left.new ≡ Ok x.1)) }
    ensures fault { IfErr read.entry (λ e. (result.now ≡ []) × (left.new ≡ Err e)) }
{
    match read {
        Ok((string, rest)) => {
            *left = Ok(rest);
            string
        }
        Err(fault) => {
            *left = Err(fault);
            &[]
        }
    }
}
