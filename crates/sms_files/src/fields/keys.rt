//! The keys of a fields file.

ghost use Rattle.std.specs.Prelude.{◌≡◌, None, IfErr, OnOk};
ghost use Rattle.toml.specs.View.{table_view};
ghost use Rattle.sms_files.specs.Config.{is_among};
ghost use Rattle.sms_files.specs.ConfigFaults.{TellsKey};
ghost use Rattle.sms_files.specs.SubmitFields.{known_fields, unknown_field};

use crate::config::reading::is_one_of;
use crate::config::toml_value::bad_key;
use crate::fault::InputFault;
use std::alloc::Global;
use toml::Table;

/// The keys that a fields file may have.
const KEYS: [&str; 13] = [
    "parameters",
    "service_type",
    "source_ton",
    "source_npi",
    "destination_ton",
    "destination_npi",
    "protocol_id",
    "priority",
    "registered_delivery",
    "replace",
    "schedule",
    "validity",
    "validity_s",
];

/// Whether a fields file may have this key.
fn is_known(key: &str) -> bool
    ensures { result ≡ is_among key.now known_fields }
{
    is_one_of(key, &KEYS)
}

/// Refuses the least unknown key; a table's keys ascend.
#[tactic(auto, using(crate::proofs::FieldKeys::unknown_first))]
pub(super) fn check_fields(alloc: Global, table: &Table) -> Result<(), InputFault>
    ensures known { OnOk result (unknown_field (table_view table.now) ≡ None) }
    ensures refused { IfErr result (TellsKey (table_view table.now) (unknown_field (table_view table.now))) }
{
    for key in table.keys() {
        if !is_known(key.as_str()) {
            return Err(bad_key(alloc, table, key.as_str()));
        }
    }
    Ok(())
}
