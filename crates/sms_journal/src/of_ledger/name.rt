//! The name of a run in a ledger.

ghost use Rattle.std.specs.Prelude.{◌≡◌, ◌++◌, IfOk, length};
ghost use Rattle.sha2.specs.Sha256.{sha256};
ghost use Rattle.sms_journal.specs.OfLedger.{run_name};
ghost use Rattle.sms_journal.specs.Text.{hex_text, number_field};

use crate::text::write_hex;
use sha2::{Digest, Sha256};
use sms_files::memory::{self, NoMemory};
use sms_ledger::Run;
use std::alloc::Global;

/// How many octets of the digest are the name.
const OCTETS: usize = 16;

/// The SHA-256 digest (FIPS 180-4) of the ledger as a run finds it, its journal's name and the time.
fn digest_for(alloc: Global, time: u64, journal: &[u8], ledger: &[u8]) -> Result<[u8; 32], NoMemory>
    ensures { IfOk result (λ digest. digest ≡ sha256 (sha256 ledger.now ++ journal.now ++ number_field time)) }
{
    let found: [u8; 32] = Sha256::digest(ledger);
    let mut field = String::new(alloc);
    memory::append_number(&mut field, ",", time)?;
    let mut text = Vec::new(alloc);
    memory::append_octets(&mut text, found.as_slice())?;
    memory::append_octets(&mut text, journal)?;
    memory::append_octets(&mut text, field.as_bytes())?;
    Ok(Sha256::digest(text.as_slice()))
}

/// The name of which these octets are the digits.
fn name_of(alloc: Global, octets: &[u8]) -> Result<Run, NoMemory>
    requires { length octets.now ≡ 16 }
    ensures { IfOk result (λ run. run ≡ hex_text octets.now) }
{
    let mut text = String::new(alloc);
    write_hex(&mut text, octets)?;
    match Run::read(alloc, text.as_bytes())? {
        Some(run) => Ok(run),
        // 16 octets are 32 hexadecimal digits.
        None => unreachable!(),
    }
}

/// The name of a run that finds a ledger with these octets at this time, in milliseconds since 1970 UTC, and whose journal has
/// this name. Two runs have one only where digests collide: each that takes anything leaves the ledger with other octets, and
/// those that take nothing differ in time or journal.
pub fn name_of_run(alloc: Global, time: u64, journal: &[u8], ledger: &[u8]) -> Result<Run, NoMemory>
    ensures { IfOk result (λ run. run ≡ run_name time journal.now ledger.now) }
{
    let digest = digest_for(alloc, time, journal, ledger)?;
    name_of(alloc, &digest.as_slice()[..OCTETS])
}
