//! Accounts files: a header, and a record for each account with its name and its credits.

ghost use Rattle.std.specs.Prelude.{◌≡◌, ◌≤◌, [], None, IfErr, IfOk, IfSome, MatchResult, Some, length};
ghost use Rattle.sms_core.specs.Limits.{most_accounts};
ghost use Rattle.std.specs.List.{AllZip};
ghost use Rattle.csv.specs.Records.{fields_of};
ghost use Rattle.sms_book.specs.Openings.{names_of};
ghost use Rattle.sms_files.specs.Accounts.{AreAccounts, IsAccount, SaysAccount, account_flaw, accounts_fault, new_account_flaw, rest_fault, taken_flaw};
ghost use Rattle.sms_files.specs.Fields.{records_of};
ghost use Rattle.sms_files.specs.Records.{IsReadAs, ReadsAll, TellsRecords, records_left};

use crate::fault::{InputFault, Source};
use crate::flaw::Flaw;
use crate::memory::{next_record, push, text_of};
use crate::tables::csv_file::CsvFile;
use crate::tables::field::{number_at, text_at};
use crate::tables::record_flaw::{bad_record, has_returns, line_of, missing_record};
use crate::tables::records::{RowFault, read_all};
use crate::tables::rows::is_pair;
use csv::{ByteRecord, Reader};
use sms_book::Opening;
use sms_core::{MOST_ACCOUNTS, MOST_TOPPED};
use std::alloc::Global;
use std::io::Read;

/// How many fields each record of the file has.
const FIELDS: usize = 2;

/// The name and the credits of an account's record; or its flaw.
fn account_of<'a>(record: &'a ByteRecord) -> Result<(&'a str, u64), Flaw>
    ensures { MatchResult result (λ account. IsAccount (fields_of «record».now) account.0.now account.1) (λ flaw. account_flaw (fields_of «record».now) ≡ Some flaw) }
{
    if record.len() != FIELDS {
        return Err(Flaw::Fields(record.len()));
    }
    match text_at(record, 0) {
        Ok(name) => match number_at(record, 1, MOST_TOPPED) {
            Ok(credits) => Ok((name, credits)),
            Err(flaw) => Err(flaw),
        },
        Err(flaw) => Err(flaw),
    }
}

/// The flaw of a name that one of these accounts has: the header and the accounts before that one come
/// before its record.
fn taken_by(openings: &[Opening], name: &str) -> Option<Flaw>
    requires { length openings.now ≤ most_accounts }
    ensures { result ≡ taken_flaw 2 name.now (names_of openings.now) }
{
    for place in 0..openings.len() {
        if openings[place].name.as_str() == name {
            return Some(Flaw::Taken(place + 2));
        }
    }
    None
}

/// The account of a record, where it is one and none of those before it has its name; or its flaw.
fn opening_of(alloc: Global, record: &ByteRecord, before: &[Opening]) -> Result<Opening, RowFault>
    requires { length before.now ≤ most_accounts }
    ensures { IsReadAs (new_account_flaw (names_of before.now)) SaysAccount (fields_of «record».now) result }
{
    let (name, credits) = match account_of(record) {
        Ok(account) => account,
        Err(flaw) => return Err(RowFault::Flawed(flaw)),
    };
    if let Some(flaw) = taken_by(before, name) {
        return Err(RowFault::Flawed(flaw));
    }
    match text_of(alloc, name) {
        Ok(name) => Ok(Opening { name, credits }),
        Err(no) => Err(RowFault::OutOfMemory(no)),
    }
}

/// The accounts of a file. Reading stops at the first faulty record: one that isn't an account's,
/// has the name of an earlier one, or is one past the limit. A file without an account lacks its
/// second record.
pub fn read_accounts<R: Read + Drop>(alloc: Global, input: R) -> Result<Vec<Opening>, InputFault>
    ensures accounts { IfOk result (λ openings. IfSome (R.remaining input) (λ bytes. AreAccounts (records_of bytes) openings.items)) }
    ensures faulty { IfErr result (λ fault. IfSome (R.remaining input) (λ bytes. TellsRecords Source.Accounts (accounts_fault (records_of bytes)) fault)) }
{
    let mut reader = read_all(alloc, input);
    let mut record = ByteRecord::new(alloc);
    if !next_record(&mut reader, &mut record, Source::Accounts)? {
        return Err(missing_record(alloc, Source::Accounts, 1));
    }
    if !is_pair(&record, "account", "credits") {
        let line = line_of(&reader, &record, false);
        let flaw = Flaw::Header;
        return Err(bad_record(alloc, Source::Accounts, 1, flaw, &record, line));
    }
    match read_openings(alloc, &mut reader, &mut record) {
        Ok(openings) => {
            if openings.is_empty() {
                return Err(missing_record(alloc, Source::Accounts, 2));
            }
            Ok(openings)
        }
        Err(fault) => Err(fault),
    }
}

/// The accounts that the reader has left, which come after the header.
fn read_openings<R: Read>(
    alloc: Global,
    reader: &mut Reader<CsvFile<R>>,
    record: &mut ByteRecord,
) -> Result<Vec<Opening>, InputFault>
    requires reads { ReadsAll reader.old }
    ensures accounts { IfOk result (λ openings. IfSome (records_left R.remaining reader.old) (λ left.
        AllZip SaysAccount left openings.items × (rest_fault [] 1 left ≡ None))) }
    ensures faulty { IfErr result (λ fault. IfSome (records_left R.remaining reader.old) (λ left.
        TellsRecords Source.Accounts (rest_fault [] 1 left) fault)) }
{
    let most = MOST_ACCOUNTS as usize;
    let returns = has_returns(reader);
    let mut openings = Vec::new(alloc);
    for before in 1..most + 1 {
        if !next_record(reader, record, Source::Accounts)? {
            return Ok(openings);
        }
        match opening_of(alloc, record, openings.as_slice()) {
            Ok(opening) => push(&mut openings, opening)?,
            Err(fault) => {
                let line = line_of(reader, record, returns);
                return Err(fault.at(alloc, Source::Accounts, before + 1, record, line));
            }
        }
    }
    if next_record(reader, record, Source::Accounts)? {
        let line = line_of(reader, record, returns);
        let flaw = Flaw::OneTooMany;
        return Err(bad_record(alloc, Source::Accounts, most + 2, flaw, record, line));
    }
    Ok(openings)
}
