//! The values of a PDU's fields, read from left to right. Only the list of parameters takes memory.

ghost use Rattle.std.specs.Prelude.{◌≡◌, ◌==◌, ◌<◌, length, take, position, IfSome};
ghost use Rattle.sms_pdu.specs.Reading.{Says, Gives, number_octet_at, text_at, time_at, message_at, parameter_at, parameters_at, parameter_count, ended};

use crate::error::PduError;
use crate::field::Field;
use crate::layout::{MESSAGE_MAXIMUM, TIME_LENGTH};
use crate::octets::{Octets, first_zero};
use crate::parameter::{Parameter, Params};
use std::alloc::Global;

/// The next octet.
#[tactic(auto, unfolding(crate::specs::Reading::number_octet_at))]
pub(crate) fn number(field: Field, octets: &[u8]) -> Result<(u8, &[u8]), PduError>
    ensures { Says (λ x. (x.0, x.1.now)) result (number_octet_at field octets.now) }
{
    if octets.is_empty() {
        return Err(PduError::Malformed { field });
    }
    let (_, rest) = octets.split_at(1);
    Ok((octets[0], rest))
}

/// Where the first 0 stands among the first octets, at most so many. (Where so many are there, their
/// number is known to the compiler at each call, which makes the search straight code.)
#[inline(always)]
fn zero_among(maximum: usize, octets: &[u8]) -> Option<usize>
    ensures place { result ≡ position (λ octet. octet == 0) (take maximum octets.now) }
    ensures within { IfSome result (λ place. place < length octets.now) }
{
    if octets.len() < maximum {
        return last_zero(octets);
    }
    first_zero(&octets[..maximum])
}

/// Where the first 0 stands, in octets that end before a string's maximum.
#[inline(never)]
fn last_zero(octets: &[u8]) -> Option<usize>
    ensures place { result ≡ position (λ octet. octet == 0) octets.now }
    ensures within { IfSome result (λ place. place < length octets.now) }
{
    first_zero(octets)
}

/// A C-Octet String (SMPP 3.4 3.1) whose maximum counts its 0.
#[tactic(auto, unfolding(crate::specs::Reading::text_at))]
#[inline(always)]
pub(crate) fn text(field: Field, maximum: usize, octets: &[u8]) -> Result<(&[u8], &[u8]), PduError>
    ensures { Says (λ x. (x.0.now, x.1.now)) result (text_at field maximum octets.now) }
{
    let Some(len) = zero_among(maximum, octets) else {
        if maximum <= octets.len() {
            return Err(PduError::TooLong { field });
        }
        return Err(PduError::Malformed { field });
    };
    let (text, _) = octets.split_at(len);
    let (_, rest) = octets.split_at(len + 1);
    Ok((text, rest))
}

/// A time: a C-Octet String of 0 or 16 octets before its 0 (SMPP 3.4 7.1.1).
#[tactic(auto, unfolding(crate::specs::Reading::time_at))]
#[inline(always)]
pub(crate) fn time(field: Field, octets: &[u8]) -> Result<(&[u8], &[u8]), PduError>
    ensures { Says (λ x. (x.0.now, x.1.now)) result (time_at field octets.now) }
{
    let (time, rest) = text(field, TIME_LENGTH as usize + 1, octets)?;
    let len = time.len();
    if len == 0 || len == TIME_LENGTH as usize {
        Ok((time, rest))
    } else {
        Err(PduError::Malformed { field })
    }
}

/// The short_message behind its sm_length.
#[tactic(auto, unfolding(crate::specs::Reading::message_at))]
pub(crate) fn message(octets: &[u8]) -> Result<(&[u8], &[u8]), PduError>
    ensures { Says (λ x. (x.0.now, x.1.now)) result (message_at octets.now) }
{
    let (len, rest) = number(Field::SmLength, octets)?;
    let len = len as usize;
    if MESSAGE_MAXIMUM < len {
        return Err(PduError::TooLong {
            field: Field::ShortMessage,
        });
    }
    if rest.len() < len {
        return Err(PduError::Malformed {
            field: Field::ShortMessage,
        });
    }
    Ok(rest.split_at(len))
}

/// An optional parameter (SMPP 3.4 5.3.1): its tag, its value, and the octets after it.
#[tactic(auto, unfolding(crate::specs::Reading::parameter_at))]
fn parameter(octets: &[u8]) -> Result<(u16, &[u8], &[u8]), PduError>
    ensures { Says (λ x. (record { tag = x.0; value = x.1.now }, x.2.now)) result (parameter_at octets.now) }
{
    if octets.len() < 4 {
        return Err(PduError::Malformed {
            field: Field::Params,
        });
    }
    let (head, rest) = octets.split_at(4);
    let tag = u16::from_be_bytes([head[0], head[1]]);
    let len = u16::from_be_bytes([head[2], head[3]]) as usize;
    if rest.len() < len {
        return Err(PduError::Malformed {
            field: Field::Params,
        });
    }
    let (value, rest) = rest.split_at(len);
    Ok((tag, value, rest))
}

/// How many optional parameters there are to the end of the octets.
fn count_parameters(octets: &[u8]) -> Result<usize, PduError>
    ensures { result ≡ parameter_count octets.now }
{
    let mut count = 0;
    let mut rest = octets;
    while !rest.is_empty() {
        let (_, _, after) = parameter(rest)?;
        count += 1;
        rest = after;
    }
    Ok(count)
}

/// The optional parameters to the end of the octets.
#[inline(always)]
pub(crate) fn parameters(alloc: Global, octets: &[u8]) -> Result<Params, PduError>
    ensures { Gives (λ params. params) result (parameters_at octets.now) }
{
    // (Most messages have none.)
    if octets.is_empty() {
        return Ok(Params::none(alloc));
    }
    some_parameters(alloc, octets)
}

/// The same. They are all looked at before memory is asked for.
#[inline(never)]
fn some_parameters(alloc: Global, octets: &[u8]) -> Result<Params, PduError>
    ensures { Gives (λ params. params) result (parameters_at octets.now) }
{
    let mut list = Vec::with_capacity(alloc, count_parameters(octets)?)?;
    let mut rest = octets;
    while !rest.is_empty() {
        let (tag, value, after) = parameter(rest)?;
        let value = Octets::copy(alloc, value)?;
        list.push(Parameter { tag, value })?;
        rest = after;
    }
    Ok(Params::new(list))
}

/// Nothing is left.
pub(crate) fn end(octets: &[u8]) -> Result<(), PduError>
    ensures { result ≡ ended octets.now }
{
    if octets.is_empty() {
        Ok(())
    } else {
        Err(PduError::Malformed { field: Field::Rest })
    }
}
