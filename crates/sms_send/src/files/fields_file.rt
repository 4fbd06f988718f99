//! The fields of a sending, read from their file, and its config with them.

ghost use Rattle.std.specs.Prelude.{◌≡◌, ◌⊎◌, Some, IfErr, IfOk, string_bytes};
ghost use Rattle.sms_driver.specs.declared.start.StartPhase.TheVariants.{Idle};
ghost use Rattle.sms_send.specs.ConfigFiles.{FailsReadingConfig, IsConfigFile};
ghost use Rattle.sms_send.specs.Words.{bytes_of};
ghost use Rattle.sms_send.specs.Faults.{ComesAt, fault_of_fields as of_fields};
ghost use Rattle.sms_send.specs.FieldFiles.{AreFieldsAt, FailsFields};

use crate::faults::exposed::{FileModes, read_warned};
use crate::faults::fault::Fault;
use crate::files::config_file::ConfigFile;
use crate::files::opened::{InputFiles, octets_of};
use sms_devices::Screen;
use sms_files::{InputFault, fields_of};
use sms_message::Fields;
use std::io::Eprint;
use std::thread::Threads;
use std::time::Clock;

/// What is wrong with a fields file.
fn fault_of_fields(fault: InputFault) -> Fault
    ensures { result ≡ of_fields fault }
{
    match fault {
        InputFault::Unreadable(source, error) => Fault::Unreadable(source, error),
        InputFault::BadRecord(source, place, flaw) => Fault::BadRecord(source, place, flaw),
        InputFault::NotToml(flaw) => Fault::NotFields(flaw),
        InputFault::BadKey(key, value) => Fault::BadField(key, value),
        InputFault::OutOfMemory(_) => Fault::OutOfMemory,
    }
}

/// The fields in the file of this name. The whole of it is checked.
fn fields_in<R: AllocGlobal + InputFiles>(rt: &R, name: &str) -> Result<Fields, Fault>
    ensures read { IfOk result (AreFieldsAt (R.finds rt.now) (Some name.now)) }
    ensures refused { IfErr result (FailsFields (R.finds rt.now) (Some name.now)) }
    // The fault is none of an output.
    ensures early { IfErr result (ComesAt Idle) }
{
    let Ok(text) = String::from_str(rt.alloc(), name) else {
        return Err(Fault::OutOfMemory);
    };
    let octets = match octets_of(rt, text) {
        Ok(octets) => octets,
        Err(fault) => return Err(fault),
    };
    match fields_of(rt.alloc(), octets.as_slice()) {
        Ok(fields) => Ok(fields),
        Err(fault) => Err(fault_of_fields(fault)),
    }
}

/// The fields in the file of this name; none without a name.
pub fn read_fields<R: AllocGlobal + InputFiles>(
    rt: &R,
    name: &Option<String>,
) -> Result<Fields, Fault>
    ensures read { IfOk result (AreFieldsAt (R.finds rt.now) (bytes_of name.now)) }
    ensures refused { IfErr result (FailsFields (R.finds rt.now) (bytes_of name.now)) }
    // The fault is none of an output.
    ensures early { IfErr result (ComesAt Idle) }
{
    match name {
        Some(name) => fields_in(rt, name.as_str()),
        None => Ok(Fields::none(rt.alloc())),
    }
}

/// The config of this name, with the fields of a sending.
pub(crate) fn read_sending<
    R: AllocGlobal + Clock + Eprint + FileModes + InputFiles + Screen + Threads,
>(rt: &R, config: String, fields: &Option<String>, at_length: bool) -> Result<ConfigFile, Fault>
    ensures read { IfOk result (IsConfigFile (R.finds rt.now) (string_bytes config)) }
    ensures fields { IfOk result (λ file. AreFieldsAt (R.finds rt.now) (bytes_of fields.now) file.config.fields) }
    ensures refused { IfErr result (λ fault. FailsReadingConfig (R.finds rt.now) config fault ⊎ FailsFields (R.finds rt.now) (bytes_of fields.now) fault) }
    ensures early { IfErr result (ComesAt Idle) }
{
    let read = match read_warned(rt, config, at_length) {
        Ok(read) => read,
        Err(fault) => return Err(fault),
    };
    match read_fields(rt, fields) {
        Ok(fields) => {
            let ConfigFile { octets, config } = read;
            Ok(ConfigFile {
                octets,
                config: config.with_fields(fields),
            })
        }
        Err(fault) => {
            drop(read);
            Err(fault)
        }
    }
}
