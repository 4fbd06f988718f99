//! The keys of a fields file's TOML text, read group by group.

ghost use Rattle.std.specs.Prelude.{◌≡◌, ◌≤◌, ◌&&◌, None, Some, true, IfErr, IfOk, IfSome, OnOk, codes, is_some};
ghost use Rattle.toml.specs.Data.{get_member};
ghost use Rattle.toml.specs.View.{table_view};
ghost use Rattle.sms_message.specs.Room.{is_service_type, is_time as has_room};
ghost use Rattle.sms_files.specs.Config.{fault_at};
ghost use Rattle.sms_files.specs.ConfigFaults.{TellsKey};
ghost use Rattle.sms_files.specs.FieldGroups.{SaysAddressing, SaysHandling, SaysTimes};
ghost use Rattle.sms_files.specs.SubmitFields.{IsFields, SaysFields, TellsField, TellsFields, addressing_fault, faulty_field, handling_fault, seconds_of, times_fault, validity_by};

use crate::config::reading::table_of;
use crate::config::toml_value::{
    bad_key, flag_at, number_at, number_if_at, octet_if_at, octets_at,
};
use crate::fault::InputFault;
use crate::fields::keys::check_fields;
use crate::fields::parameters::parameters_at;
use crate::fields::times::{from_now, time_at};
use crate::memory::NoMemory;
use sms_message::Fields;
use sms_pdu::Octets;
use std::alloc::Global;
use toml::Table;

/// The most seconds of a validity: 30 days.
const MOST_SECONDS: u32 = 2_592_000;

/// How the addresses are sent, and by which service.
#[derive(Drop)]
struct Addressing {
    service_type: Octets,
    source_ton: Option<u8>,
    source_npi: Option<u8>,
    dest_ton: Option<u8>,
    dest_npi: Option<u8>,
}

/// What the centre is to do with a message.
#[derive(Clone, Copy)]
struct Handling {
    protocol_id: u8,
    priority: u8,
    registered: Option<u8>,
    replace: bool,
}

/// When it is to deliver it.
#[derive(Drop)]
struct Times {
    schedule: Octets,
    validity: Octets,
}

/// How the addresses are sent, and by which service.
fn addressing_at(alloc: Global, table: &Table) -> Result<Addressing, InputFault>
    ensures says { IfOk result (SaysAddressing (table_view table.now)) }
    ensures room { IfOk result (λ a. is_service_type a.service_type ≡ true) }
    ensures faultless { OnOk result (addressing_fault (table_view table.now) ≡ None) }
    ensures refused { IfErr result (TellsKey (table_view table.now) (addressing_fault (table_view table.now))) }
{
    let service_type = octets_at(alloc, table, "service_type", "", 6)?;
    let source_ton = octet_if_at(alloc, table, "source_ton", 255)?;
    let source_npi = octet_if_at(alloc, table, "source_npi", 255)?;
    let dest_ton = octet_if_at(alloc, table, "destination_ton", 255)?;
    let dest_npi = octet_if_at(alloc, table, "destination_npi", 255)?;
    Ok(Addressing {
        service_type,
        source_ton,
        source_npi,
        dest_ton,
        dest_npi,
    })
}

/// What the centre is to do with a message.
fn handling_at(alloc: Global, table: &Table) -> Result<Handling, InputFault>
    ensures says { IfOk result (SaysHandling (table_view table.now)) }
    ensures faultless { OnOk result (handling_fault (table_view table.now) ≡ None) }
    ensures refused { IfErr result (TellsKey (table_view table.now) (handling_fault (table_view table.now))) }
{
    let protocol_id = number_at(alloc, table, "protocol_id", 0, 0, 255)?;
    let priority = number_at(alloc, table, "priority", 0, 0, 3)?;
    let registered = octet_if_at(alloc, table, "registered_delivery", 31)?;
    let replace = flag_at(alloc, table, "replace")?;
    Ok(Handling {
        protocol_id: protocol_id as u8,
        priority: priority as u8,
        registered,
        replace,
    })
}

/// Whether a table has a key.
fn has_key(table: &Table, key: &str) -> bool
    ensures { result ≡ is_some (get_member key.now (table_view table.now)) }
{
    table.get(key).is_some()
}

/// Whether a table has both validities.
fn has_both(table: &Table) -> bool
    ensures { result ≡ (is_some (get_member (codes "validity") (table_view table.now)) && is_some (get_member (codes "validity_s") (table_view table.now))) }
{
    has_key(table, "validity") && has_key(table, "validity_s")
}

/// The seconds of a validity, which can't stand beside the other.
fn seconds_at(alloc: Global, table: &Table) -> Result<Option<u32>, InputFault>
    ensures seconds { IfOk result (λ seconds. seconds_of (table_view table.now) ≡ Some seconds) }
    ensures bound { IfOk result (λ seconds. IfSome seconds (λ n. n ≤ 2_592_000)) }
    ensures refused { IfErr result (TellsKey (table_view table.now) (fault_at (codes "validity_s") (seconds_of (table_view table.now)))) }
{
    if has_both(table) {
        return Err(bad_key(alloc, table, "validity_s"));
    }
    number_if_at(alloc, table, "validity_s", 1, MOST_SECONDS)
}

/// The validity of a text, or of seconds where these are given.
fn validity_of(alloc: Global, text: Octets, seconds: Option<u32>) -> Result<Octets, NoMemory>
    requires room { has_room text ≡ true }
    requires bound { IfSome seconds (λ n. n ≤ 2_592_000) }
    ensures validity { IfOk result (λ validity. validity ≡ validity_by text seconds) }
    ensures room { IfOk result (λ validity. has_room validity ≡ true) }
{
    match seconds {
        None => Ok(text),
        Some(seconds) => {
            drop(text);
            from_now(alloc, seconds)
        }
    }
}

/// When the centre is to deliver a message.
fn times_at(alloc: Global, table: &Table) -> Result<Times, InputFault>
    ensures says { IfOk result (SaysTimes (table_view table.now)) }
    ensures room { IfOk result (λ t. (has_room t.schedule ≡ true) × (has_room t.validity ≡ true)) }
    ensures faultless { OnOk result (times_fault (table_view table.now) ≡ None) }
    ensures refused { IfErr result (TellsKey (table_view table.now) (times_fault (table_view table.now))) }
{
    let schedule = time_at(alloc, table, "schedule")?;
    let validity = time_at(alloc, table, "validity")?;
    let seconds = seconds_at(alloc, table)?;
    match validity_of(alloc, validity, seconds) {
        Ok(validity) => Ok(Times { schedule, validity }),
        Err(no) => {
            drop(schedule);
            Err(InputFault::OutOfMemory(no))
        }
    }
}

/// What a table says. The first key whose value is of another type or out of range is refused, then the least unknown
/// key.
#[tactic(auto, using(crate::proofs::TimeTexts::all_room))]
fn fields_in(alloc: Global, table: &Table) -> Result<Fields, InputFault>
    ensures says { IfOk result (SaysFields (table_view table.now)) }
    ensures faultless { OnOk result (faulty_field (table_view table.now) ≡ None) }
    ensures refused { IfErr result (TellsField (table_view table.now) (faulty_field (table_view table.now))) }
{
    let addressing = addressing_at(alloc, table)?;
    let handling = handling_at(alloc, table)?;
    let times = times_at(alloc, table)?;
    let params = parameters_at(alloc, table)?;
    check_fields(alloc, table)?;
    Ok(Fields {
        service_type: addressing.service_type,
        source_ton: addressing.source_ton,
        source_npi: addressing.source_npi,
        dest_ton: addressing.dest_ton,
        dest_npi: addressing.dest_npi,
        protocol_id: handling.protocol_id,
        priority: handling.priority,
        schedule: times.schedule,
        validity: times.validity,
        registered: handling.registered,
        replace: handling.replace,
        params,
    })
}

/// What the octets of a fields file say: `NotToml` where they are no TOML in UTF-8, else `BadKey` of the first faulty
/// key.
pub fn fields_of(alloc: Global, octets: &[u8]) -> Result<Fields, InputFault>
    ensures fields { IfOk result (IsFields octets.now) }
    ensures refused { IfErr result (TellsFields octets.now) }
{
    let table = table_of(alloc, octets)?;
    fields_in(alloc, &table)
}
