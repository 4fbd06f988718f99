//! The records of a CSV file and the tables of a TOML text, which are read with memory.

ghost use Rattle.std.specs.Prelude.{◌≡◌, ◌<◌, false, true, IfErr, IfOk, IfSome, OnOk};
ghost use Rattle.csv.specs.Reading.{error_kind, is_io, reader_source};
ghost use Rattle.csv.specs.Records.{fields_of};
ghost use Rattle.toml.specs.Errors.{IsMemory};
ghost use Rattle.sms_files.specs.Faults.{CountsErrors, IsDevice, IsUnreadable};
ghost use Rattle.sms_files.specs.Records.{GivesFirst, IsDeviceError, ReadsAll, reader_left, records_left};
ghost use Rattle.sms_files.specs.declared.fault.InputFault.TheVariants.{OutOfMemory};
ghost use Rattle.sms_pdu.specs.Devices.{faults_of};

use crate::fault::{InputFault, Source};
use crate::memory::NoMemory;
use crate::tables::CsvFile;
use csv::{ByteRecord, Error, Reader};
use sms_pdu::{DeviceError, Tap};
use std::io::Read;

/// Reads the next record into `record`, and answers whether there was one.
pub(crate) fn next_record<R: Read>(
    reader: &mut Reader<CsvFile<R>>,
    record: &mut ByteRecord,
    source: Source,
) -> Result<bool, InputFault>
    requires { ReadsAll reader.old }
    ensures reads { OnOk result (ReadsAll reader.new) }
    ensures first { IfOk result (λ found. IfSome (records_left R.remaining reader.old) (λ left.
        GivesFirst left found (fields_of «record».new) (records_left R.remaining reader.new))) }
    ensures device { IfErr result (IsDevice source) }
    ensures counted { IfErr result (CountsErrors (reader_source reader.new).tap) }
{
    match reader.read_byte_record(record) {
        Ok(found) => Ok(found),
        Err(error) => Err(fault_of(&error, reader.get_ref().tap(), source)),
    }
}

/// The fault that an error in reading a source is, by the errors that its device answered.
fn fault_of<T>(error: &Error, device: &Tap<T>, source: Source) -> InputFault
    requires { IsDeviceError (error_kind error.now) }
    ensures reader { is_io (error_kind error.now) ≡ true → 0 < faults_of device.now → IsUnreadable source result }
    ensures memory { is_io (error_kind error.now) ≡ false → result ≡ OutOfMemory tt }
    ensures device { IsDevice source result }
    ensures counted { CountsErrors device.now result }
{
    if !error.is_io_error() {
        return InputFault::OutOfMemory(NoMemory { refused: () });
    }
    match DeviceError::of(device) {
        Some(failure) => InputFault::Unreadable(source, failure),
        None => InputFault::OutOfMemory(NoMemory { refused: () }),
    }
}

/// Reads the next record of octets that can always be read into `record`, and answers whether there was one: the
/// one error is refused memory.
pub fn next_of<R: Read>(reader: &mut Reader<R>, record: &mut ByteRecord) -> Result<bool, NoMemory>
    requires { ReadsAll reader.old }
    ensures reads { OnOk result (ReadsAll reader.new) }
    ensures first { IfOk result (λ found. IfSome (reader_left R.remaining reader.old) (λ left.
        GivesFirst left found (fields_of «record».new) (reader_left R.remaining reader.new))) }
{
    let Ok(found) = reader.read_byte_record(record) else {
        return Err(NoMemory { refused: () });
    };
    Ok(found)
}

/// That TOML couldn't be read for lack of memory: its parser alone gives such an error.
pub(crate) fn toml_refusal(_error: &toml::de::Error) -> NoMemory
    requires { IsMemory _error.now }
{
    NoMemory { refused: () }
}
