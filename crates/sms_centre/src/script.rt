//! Scripts: what the centre answers a bind with, and what it does with each submit_sm.

ghost use Rattle.std.specs.Prelude.{◌≡◌, ◌≤◌, ◌≢◌, ◌↔◌, ℕ, [], List, map, string_bytes, Some, Err, IfOk};
ghost use Rattle.toml.specs.Data.{Members};
ghost use Rattle.toml.specs.Parse.{parse_document};
ghost use Rattle.sms_centre.specs.Keys.{AreKeys};
ghost use Rattle.sms_centre.specs.Scripts.{treatment};
ghost use Rattle.sms_centre.specs.Texts.{SayAll, IsFirstBad};
ghost use Rattle.sms_centre.specs.declared.script.ScriptError.TheVariants.{NotToml, BadKey, BadAnswer};
ghost use Rattle.std.specs.Prelude.{None};

use crate::keys::{knows_all, status_at, texts_at};
use crate::text::treatment_of;
use crate::treatment::Treatment;
use std::alloc::Global;
use std::marker::Model;

/// Why a script is refused.
#[derive(Clone, Copy, Debug, PartialEq, Eq, thiserror::Error)]
pub enum ScriptError {
    #[error("the script isn't TOML")]
    NotToml,
    #[error("a key of the script is missing, unknown, of another type or out of range")]
    BadKey,
    /// The place counts from 0.
    #[error("answer {place} is no text of a script")]
    BadAnswer { place: usize },
    #[error("out of memory")]
    OutOfMemory,
}

/// The status of the answer to a bind, and one treatment or more for the submit_sm of a connection.
#[derive(Drop)]
pub struct Script {
    bind_status: u32,
    treatments: Vec<Treatment>,
}

impl Model for Script {
    ghost use Rattle.std.specs.Prelude.{◌<◌, length};
    ghost use Rattle.sms_centre.specs.Scripts.{Plan};

    ghost Value = { Plan };

    ghost view = { λ s. record { bind_status = s.bind_status; treatments = s.treatments.items } };

    ghost invariant = { λ s. 0 < length s.treatments.items };
}

impl Script {
    /// The script that a TOML text gives by its keys `bind_status` (0 where it is missing) and
    /// `answers`.
    pub fn read(alloc: Global, text: &str) -> Result<Script, ScriptError>
        ensures ok { IfOk result (λ s. (t : Members) × (parse_document text.now ≡ Some t) × (spelled : List (List ℕ)) × AreKeys t s.bind_status spelled × SayAll spelled s.treatments) }
        ensures toml { result ≡ Err NotToml → parse_document text.now ≡ None }
        ensures key { result ≡ Err BadKey → (t : Members) × (parse_document text.now ≡ Some t) × ((status : ℕ) (spelled : List (List ℕ)) → ¬ AreKeys t status spelled) }
        ensures answer { (place : ℕ) → result ≡ Err (BadAnswer place) → (t : Members) × (parse_document text.now ≡ Some t) × (status : ℕ) × (spelled : List (List ℕ)) × AreKeys t status spelled × IsFirstBad spelled place }
    {
        let table = match toml::table_from_str(alloc, text) {
            Ok(table) => table,
            Err(e) => return Err(if e.is_memory() {
                ScriptError::OutOfMemory
            } else {
                ScriptError::NotToml
            }),
        };
        let Some(bind_status) = status_at(&table) else {
            return Err(ScriptError::BadKey);
        };
        let answers = match texts_at(alloc, &table) {
            Ok(Some(answers)) => answers,
            Ok(None) => return Err(ScriptError::BadKey),
            Err(_full) => return Err(ScriptError::OutOfMemory),
        };
        if !knows_all(&table) {
            return Err(ScriptError::BadKey);
        }
        Script::of(alloc, bind_status, answers.as_slice())
    }

    /// The script of these two values. An empty list is a bad key.
    pub fn of(alloc: Global, bind_status: u32, answers: &[String]) -> Result<Script, ScriptError>
        ensures ok { IfOk result (λ s. (s.bind_status ≡ bind_status) × SayAll (map string_bytes answers.now) s.treatments) }
        ensures empty { (result ≡ Err BadKey) ↔ (answers.now ≡ []) }
        ensures toml { result ≢ Err NotToml }
        ensures answer { (place : ℕ) → result ≡ Err (BadAnswer place) → IsFirstBad (map string_bytes answers.now) place }
    {
        if answers.is_empty() {
            return Err(ScriptError::BadKey);
        }
        match treatments_of(alloc, answers) {
            Ok(treatments) => Ok(Script {
                bind_status,
                treatments,
            }),
            Err(e) => Err(e),
        }
    }

    /// The status of the answer to a bind.
    pub fn bind_status(&self) -> u32
        ensures { result ≡ self.now.bind_status }
    {
        self.bind_status
    }

    /// What is done with submit_sm k, from 1 on; past the end what the last text says.
    pub fn treatment(&self, k: u64) -> Treatment
        requires { 1 ≤ k }
        ensures { result ≡ treatment self.now k }
    {
        let last = self.treatments.len() - 1;
        let at = (k - 1).min(last as u64);
        self.treatments[at as usize]
    }
}

/// The treatment that each text spells.
fn treatments_of(alloc: Global, answers: &[String]) -> Result<Vec<Treatment>, ScriptError>
    ensures ok { IfOk result (λ ts. SayAll (map string_bytes answers.now) ts.items) }
    ensures key { (result ≢ Err BadKey) × (result ≢ Err NotToml) }
    ensures answer { (place : ℕ) → result ≡ Err (BadAnswer place) → IsFirstBad (map string_bytes answers.now) place }
{
    let mut treatments = Vec::new(alloc);
    for place in 0..answers.len() {
        match treatment_of(answers[place].as_bytes()) {
            Some(treatment) => {
                if treatments.push(treatment).is_err() {
                    return Err(ScriptError::OutOfMemory);
                }
            }
            None => return Err(ScriptError::BadAnswer { place }),
        }
    }
    Ok(treatments)
}
