//! The optional parameters in a fields file (SMPP 3.4 5.3), as texts: four hexadecimal digits of the tag, a colon, and
//! two of each octet of the value.

ghost use Rattle.std.specs.Prelude.{◌≡◌, ◌+◌, ◌*◌, ◌<◌, None, Some, true, IfErr, IfOk, IfSome, map, option_and_then, string_bytes};
ghost use Rattle.toml.specs.View.{items_view, table_view, view};
ghost use Rattle.sms_centre.specs.Keys.{strings_in as texts_in};
ghost use Rattle.sms_message.specs.Room.{are_few};
ghost use Rattle.sms_files.specs.Parameters.{hex_octet, hex_octets, hex_value as value_of_digit, parameter_of as parameter_in, parameters_of};
ghost use Rattle.sms_files.specs.ParametersRead.{IsBadParameters, IsReadOf};
ghost use Rattle.sms_files.specs.declared.fields.parameters.Read.TheVariants.{Bad};
ghost use Rattle.sms_files.specs.SubmitFields.{AreParametersAt, AreParametersOf, IsFoundFor, IsListOf, TellsField, few_parameters, params_fault, params_of, parameters_in};

use crate::config::ConfigValue;
use crate::config::config_value::shown_value;
use crate::fault::InputFault;
use crate::memory::{NoMemory, push, strings_in, text_of};
use sms_pdu::{Octets, Parameter, Params};
use std::alloc::Global;
use toml::{Table, Value};

/// How many octets the parameters take at most, with their tags and lengths.
const MOST_OCTETS: usize = 1_024;

/// What a hexadecimal digit is worth; none of another octet.
fn hex_value(digit: u8) -> Option<u8>
    ensures value { result ≡ value_of_digit digit }
    ensures bound { IfSome result (λ value. value < 16) }
{
    if b'0' <= digit && digit <= b'9' {
        return Some(digit - b'0');
    }
    if b'a' <= digit && digit <= b'f' {
        return Some(digit - (b'a' - 10));
    }
    if b'A' <= digit && digit <= b'F' {
        return Some(digit - (b'A' - 10));
    }
    None
}

/// The octet of two digits.
fn octet_of(high: u8, low: u8) -> Option<u8>
    ensures { result ≡ hex_octet high low }
{
    let Some(high) = hex_value(high) else {
        return None;
    };
    let Some(low) = hex_value(low) else {
        return None;
    };
    Some(16 * high + low)
}

/// The octets of pairs of digits; none where they are no such.
#[tactic(auto, using(crate::proofs::ParameterTexts::at_first, crate::proofs::ParameterTexts::pair_unread, crate::proofs::ParameterTexts::none_left, crate::proofs::ParameterTexts::one_left))]
fn octets_of(alloc: Global, digits: &[u8]) -> Result<Option<Octets>, NoMemory>
    ensures { IfOk result (λ found. found ≡ hex_octets digits.now) }
{
    let mut octets = Vec::new(alloc);
    let pairs = digits.len() / 2;
    for place in 0..pairs {
        let Some(octet) = octet_of(digits[2 * place], digits[2 * place + 1]) else {
            return Ok(None);
        };
        push(&mut octets, octet)?;
    }
    if digits.len() == 2 * pairs {
        Ok(Some(Octets::new(octets)))
    } else {
        Ok(None)
    }
}

/// The tag of two octets.
fn tag_of(high: u8, low: u8) -> u16
    ensures { result ≡ 256 * high + low }
{
    256 * u16::from(high) + u16::from(low)
}

/// The parameter that a text spells; none where it spells none.
fn parameter_of(alloc: Global, text: &[u8]) -> Result<Option<Parameter>, NoMemory>
    ensures { IfOk result (λ found. found ≡ parameter_in text.now) }
{
    let [a, b, c, d, colon, digits @ ..] = text else {
        return Ok(None);
    };
    if *colon != b':' {
        return Ok(None);
    }
    let Some(high) = octet_of(*a, *b) else {
        return Ok(None);
    };
    let Some(low) = octet_of(*c, *d) else {
        return Ok(None);
    };
    match octets_of(alloc, digits)? {
        Some(value) => Ok(Some(Parameter {
            tag: tag_of(high, low),
            value,
        })),
        None => Ok(None),
    }
}

/// What texts are read as: the parameters that they spell, or the place, from 0, of the first that spells none.
#[derive(Drop)]
enum Read {
    All(Params),
    Bad(usize),
}

/// What these texts are read as.
#[tactic(auto, using(crate::proofs::ParameterTexts::all_read))]
fn read_texts(alloc: Global, texts: &[String]) -> Result<Read, NoMemory>
    ensures { IfOk result (IsReadOf (map string_bytes texts.now)) }
{
    let mut parameters = Vec::new(alloc);
    for place in 0..texts.len() {
        match parameter_of(alloc, texts[place].as_bytes())? {
            Some(parameter) => push(&mut parameters, parameter)?,
            None => {
                drop(parameters);
                return Ok(Read::Bad(place));
            }
        }
    }
    Ok(Read::All(Params::new(parameters)))
}

/// Whether parameters take no more octets than a sending may ask for.
fn take_few_octets(params: &[Parameter]) -> bool
    ensures { result ≡ are_few params.now }
{
    let mut size = 0usize;
    for p in params {
        let len = p.value.len();
        if len > MOST_OCTETS || size + 4 + len > MOST_OCTETS {
            return false;
        }
        size += 4 + len;
    }
    true
}

/// What was found where parameters are wanted: these, or what stands there in place of any.
#[derive(Drop)]
enum Found {
    Good(Params),
    Bad(ConfigValue),
}

/// The first text that spells no parameter, with its number, from 1.
fn bad_text(alloc: Global, texts: &[String], place: usize) -> Result<Found, NoMemory>
    requires { IsReadOf (map string_bytes texts.now) (Bad place) }
    ensures { IfOk result (IsFoundFor (option_and_then few_parameters (parameters_of (map string_bytes texts.now))) (AreParametersOf (map string_bytes texts.now))) }
{
    let text = text_of(alloc, texts[place].as_str())?;
    Ok(Found::Bad(ConfigValue::BadText(place + 1, text)))
}

/// What texts are where parameters are wanted.
fn texts_found(alloc: Global, texts: &[String]) -> Result<Found, NoMemory>
    ensures { IfOk result (IsFoundFor (option_and_then few_parameters (parameters_of (map string_bytes texts.now))) (AreParametersOf (map string_bytes texts.now))) }
{
    match read_texts(alloc, texts)? {
        Read::All(params) => {
            if take_few_octets(params.as_slice()) {
                Ok(Found::Good(params))
            } else {
                drop(params);
                Ok(Found::Bad(ConfigValue::Texts))
            }
        }
        Read::Bad(place) => bad_text(alloc, texts, place),
    }
}

/// What a list of values is where parameters are wanted.
fn list_found(alloc: Global, values: &[Value]) -> Result<Found, NoMemory>
    ensures { IfOk result (IsFoundFor (option_and_then few_parameters (option_and_then parameters_of (texts_in (items_view values.now)))) (IsListOf (texts_in (items_view values.now)))) }
{
    match strings_in(alloc, values)? {
        Some(texts) => texts_found(alloc, texts.as_slice()),
        None => Ok(Found::Bad(ConfigValue::Values)),
    }
}

/// What a value is where parameters are wanted.
fn value_found(alloc: Global, value: &Value) -> Result<Found, NoMemory>
    ensures { IfOk result (IsFoundFor (parameters_in (Some (view value.now))) (AreParametersAt (Some (view value.now)))) }
{
    match value {
        Value::Array(values) => list_found(alloc, values.as_slice()),
        _ => Ok(Found::Bad(shown_value(alloc, value)?)),
    }
}

/// The fault of the parameters, of which this stands there.
fn bad_parameters(alloc: Global, value: ConfigValue) -> InputFault
    ensures { IsBadParameters value result }
{
    match text_of(alloc, "parameters") {
        Ok(name) => InputFault::BadKey(name, value),
        Err(no) => {
            drop(value);
            InputFault::OutOfMemory(no)
        }
    }
}

/// The parameters of a table.
pub(super) fn parameters_at(alloc: Global, table: &Table) -> Result<Params, InputFault>
    ensures params { IfOk result (λ params. params_of (table_view table.now) ≡ Some params) }
    ensures few { IfOk result (λ params. are_few params ≡ true) }
    ensures refused { IfErr result (TellsField (table_view table.now) (params_fault (table_view table.now))) }
{
    match table.get("parameters") {
        None => Ok(Params::none(alloc)),
        Some(value) => match value_found(alloc, value)? {
            Found::Good(params) => Ok(params),
            Found::Bad(value) => Err(bad_parameters(alloc, value)),
        },
    }
}
