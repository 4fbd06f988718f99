//! Schedules: a world's limits and the events on it, as the records of a file.

ghost use Rattle.std.specs.Prelude.{◌≡◌, None, IfErr, IfOk, IfSome};
ghost use Rattle.csv.specs.Records.{fields_of};
ghost use Rattle.sms_files.specs.Fields.{records_of};
ghost use Rattle.sms_files.specs.Records.{ReadsAll, TellsRecords, records_left};
ghost use Rattle.sms_files.specs.Schedule.{one_number as one_spelled, two_numbers as two_spelled, three_numbers as three_spelled, event_of as event_spelled, limits_flaw, limits_of as limits_spelled, AreSchedule, MakesWorld, Spells, event_flaw, made_by, request_forms, respond_form, schedule_fault, slot_forms, within};

use crate::fault::{InputFault, Source};
use crate::flaw::Flaw;
use crate::memory::{make_world, next_record};
use crate::tables::csv_file::CsvFile;
use crate::tables::field::{number_at, u32_at};
use crate::tables::record_flaw::{line_of, missing_record};
use crate::tables::records::{FromRecord, RowFault, read_all, read_records};
use csv::{ByteRecord, Reader};
use sms_core::{Event, MOST_ACCOUNTS, MOST_ATTEMPTS, MOST_SLOTS, World};
use std::alloc::Global;
use std::io::Read;

/// How many events a schedule has at the most.
pub const MOST_EVENTS: usize = 1_000_000;

/// The greatest number in a field that says yes or no.
pub const MOST_FLAG: u32 = 1;

/// The one number after a record's word.
fn one_number(record: &ByteRecord) -> Result<u32, Flaw>
    ensures { result ≡ one_spelled (fields_of «record».now) }
{
    if record.len() != 2 {
        return Err(Flaw::Fields(record.len()));
    }
    u32_at(record, 1)
}

/// The two numbers after a record's word, the second at most `most`.
fn two_numbers(record: &ByteRecord, most: u64) -> Result<(u32, u64), Flaw>
    ensures { result ≡ two_spelled most (fields_of «record».now) }
{
    if record.len() != 3 {
        return Err(Flaw::Fields(record.len()));
    }
    match u32_at(record, 1) {
        Ok(first) => match number_at(record, 2, most) {
            Ok(second) => Ok((first, second)),
            Err(flaw) => Err(flaw),
        },
        Err(flaw) => Err(flaw),
    }
}

/// The three numbers after a record's word, the third at most `most`.
fn three_numbers(record: &ByteRecord, most: u32) -> Result<(u32, u32, u32), Flaw>
    ensures { result ≡ three_spelled most (fields_of «record».now) }
{
    if record.len() != 4 {
        return Err(Flaw::Fields(record.len()));
    }
    match u32_at(record, 1) {
        Ok(first) => match u32_at(record, 2) {
            Ok(second) => match number_at(record, 3, u64::from(most)) {
                Ok(third) => Ok((first, second, third as u32)),
                Err(flaw) => Err(flaw),
            },
            Err(flaw) => Err(flaw),
        },
        Err(flaw) => Err(flaw),
    }
}

/// A worker and a slot, after a record's word.
fn worker_and_slot(record: &ByteRecord) -> Result<(u32, u32), Flaw>
    ensures { result ≡ two_spelled u32.MAX (fields_of «record».now) }
{
    match two_numbers(record, u64::from(u32::MAX)) {
        Ok((worker, slot)) => Ok((worker, slot as u32)),
        Err(flaw) => Err(flaw),
    }
}

/// The event that a record spells, or its flaw.
fn event_of(record: &ByteRecord) -> Result<Event, Flaw>
    ensures { result ≡ event_spelled (fields_of «record».now) }
{
    let Some(word) = record.get(0) else {
        return Err(Flaw::Word);
    };
    if word == b"topup".as_slice() {
        return match two_numbers(record, u64::MAX) {
            Ok((account, amount)) => Ok(Event::TopUp { account, amount }),
            Err(flaw) => Err(flaw),
        };
    }
    if word == b"reserve".as_slice() {
        return match three_numbers(record, u32::MAX) {
            Ok((request, account, cost)) => Ok(Event::Reserve {
                request,
                account,
                cost,
            }),
            Err(flaw) => Err(flaw),
        };
    }
    request_event_of(word, record)
}

/// The event on a request, or of a worker at a slot, that a record with this word spells.
fn request_event_of(word: &[u8], record: &ByteRecord) -> Result<Event, Flaw>
    ensures { result ≡ made_by request_forms word.now (fields_of «record».now) }
{
    if word == b"post".as_slice() {
        return match three_numbers(record, u32::MAX) {
            Ok((worker, slot, request)) => Ok(Event::Post {
                worker,
                slot,
                request,
            }),
            Err(flaw) => Err(flaw),
        };
    }
    if word == b"respond".as_slice() {
        return respond_of(record);
    }
    if word == b"discard".as_slice() {
        return match one_number(record) {
            Ok(request) => Ok(Event::Discard { request }),
            Err(flaw) => Err(flaw),
        };
    }
    slot_event_of(word, record)
}

/// The answer that a record spells after its word.
fn respond_of(record: &ByteRecord) -> Result<Event, Flaw>
    ensures { result ≡ respond_form (fields_of «record».now) }
{
    match three_numbers(record, MOST_FLAG) {
        Ok((number, status, nack)) => Ok(Event::Respond {
            number,
            status,
            nack: nack == 1,
        }),
        Err(flaw) => Err(flaw),
    }
}

/// The event of a worker at a slot that a record with this word spells.
fn slot_event_of(word: &[u8], record: &ByteRecord) -> Result<Event, Flaw>
    ensures { result ≡ made_by slot_forms word.now (fields_of «record».now) }
{
    if word == b"claim".as_slice() {
        return match worker_and_slot(record) {
            Ok((worker, slot)) => Ok(Event::Claim { worker, slot }),
            Err(flaw) => Err(flaw),
        };
    }
    if word == b"settle".as_slice() {
        return match worker_and_slot(record) {
            Ok((worker, slot)) => Ok(Event::Settle { worker, slot }),
            Err(flaw) => Err(flaw),
        };
    }
    if word == b"expire".as_slice() {
        return match worker_and_slot(record) {
            Ok((worker, slot)) => Ok(Event::Expire { worker, slot }),
            Err(flaw) => Err(flaw),
        };
    }
    if word == b"release".as_slice() {
        return match worker_and_slot(record) {
            Ok((worker, slot)) => Ok(Event::Release { worker, slot }),
            Err(flaw) => Err(flaw),
        };
    }
    Err(Flaw::Word)
}

impl FromRecord for Event {
    ghost flaw = { event_flaw };

    ghost Says = { Spells };

    fn from_record(_alloc: Global, record: &ByteRecord) -> Result<Event, RowFault> {
        match event_of(record) {
            Ok(event) => Ok(event),
            Err(flaw) => Err(RowFault::Flawed(flaw)),
        }
    }
}

/// The three numbers of the record that sets a world up, or its flaw.
fn limits_of(record: &ByteRecord) -> Result<(u32, u32, u32), Flaw>
    ensures { result ≡ limits_spelled (fields_of «record».now) }
{
    let Some(word) = record.get(0) else {
        return Err(Flaw::Word);
    };
    if word == b"world".as_slice() {
        return three_numbers(record, u32::MAX);
    }
    Err(Flaw::Word)
}

/// Whether there may be this number of something.
fn is_within(most: u32, number: u32) -> bool
    ensures { result ≡ within most number }
{
    number >= 1 && number <= most
}

/// The flaw of the first number out of range in a record that sets a world up.
fn limits_flaw(accounts: u32, slots: u32, attempts: u32) -> Option<Flaw>
    ensures { result ≡ limits_flaw accounts slots attempts }
{
    if !is_within(MOST_ACCOUNTS, accounts) {
        return Some(Flaw::NotNumber(2));
    }
    if !is_within(MOST_SLOTS, slots) {
        return Some(Flaw::NotNumber(3));
    }
    if !is_within(MOST_ATTEMPTS, attempts) {
        return Some(Flaw::NotNumber(4));
    }
    None
}

/// The world that a record sets up, or its flaw. It has no requests yet.
fn world_of(alloc: Global, record: &ByteRecord) -> Result<World, RowFault>
    ensures { MakesWorld (fields_of «record».now) result }
{
    let (accounts, slots, attempts) = match limits_of(record) {
        Ok(limits) => limits,
        Err(flaw) => return Err(RowFault::Flawed(flaw)),
    };
    if let Some(flaw) = limits_flaw(accounts, slots, attempts) {
        return Err(RowFault::Flawed(flaw));
    }
    match make_world(alloc, accounts, slots, attempts) {
        Ok(world) => Ok(world),
        Err(no) => Err(RowFault::OutOfMemory(no)),
    }
}

/// A world before any event, and the events that a schedule has for it.
#[derive(Drop)]
pub struct Schedule {
    /// The world that the first record sets up.
    pub world: World,
    /// The event of each record after it, in their order.
    pub events: Vec<Event>,
}

/// Reads a schedule to its end, to its first faulty record, or to one record past the 1,000,000
/// events that it may have. That record is the fault; `Unreadable` where the reader fails.
pub fn read_schedule<R: Read + Drop>(alloc: Global, input: R) -> Result<Schedule, InputFault>
    ensures schedule { IfOk result (λ schedule. IfSome (R.remaining input) (λ bytes.
        AreSchedule (records_of bytes) schedule.world schedule.events.items × (schedule_fault (records_of bytes) ≡ None))) }
    ensures faulty { IfErr result (λ fault. IfSome (R.remaining input) (λ bytes. TellsRecords Source.Schedule (schedule_fault (records_of bytes)) fault)) }
{
    let mut reader = read_all(alloc, input);
    let mut record = ByteRecord::new(alloc);
    let schedule = schedule_left(alloc, &mut reader, &mut record);
    drop(record);
    drop(reader);
    schedule
}

/// The same of the records that a reader has left, which are all of a file.
fn schedule_left<R: Read>(
    alloc: Global,
    reader: &mut Reader<CsvFile<R>>,
    record: &mut ByteRecord,
) -> Result<Schedule, InputFault>
    requires { ReadsAll reader.old }
    ensures schedule { IfOk result (λ schedule. IfSome (records_left R.remaining reader.old) (λ left.
        AreSchedule left schedule.world schedule.events.items × (schedule_fault left ≡ None))) }
    ensures faulty { IfErr result (λ fault. IfSome (records_left R.remaining reader.old) (λ left. TellsRecords Source.Schedule (schedule_fault left) fault)) }
{
    if !next_record(reader, record, Source::Schedule)? {
        return Err(missing_record(alloc, Source::Schedule, 1));
    }
    let world = match world_of(alloc, record) {
        Ok(world) => world,
        Err(fault) => {
            let line = line_of(reader, record, false);
            return Err(fault.at(alloc, Source::Schedule, 1, record, line));
        }
    };
    match read_records(alloc, reader, record, Source::Schedule, MOST_EVENTS) {
        Ok(events) => Ok(Schedule { world, events }),
        Err(fault) => {
            drop(world);
            Err(fault)
        }
    }
}
