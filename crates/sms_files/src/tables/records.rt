//! The records of a CSV file, one at a time, and those after the first as rows of one kind.

ghost use Rattle.std.specs.Prelude.{◌≡◌, ◌<◌, ◌≤◌, ◌+◌, None, Option, List, ℕ, false, true, IfErr, IfOk, IfSome, OnOk, length, option_map};
ghost use Rattle.std.specs.List.{AllZip};
ghost use Rattle.csv.specs.Records.{fields_of};
ghost use Rattle.sms_files.specs.Fields.{records_of};
ghost use Rattle.sms_files.specs.Records.{IsReadAs, ReadsAll, TellsRecords, record_fault, records_left};

use crate::fault::{InputFault, Source};
use crate::flaw::Flaw;
use crate::memory::{NoMemory, next_record, push};
use crate::tables::csv_file::CsvFile;
use crate::tables::record_flaw::{bad_record, has_returns, line_of};
use csv::{ByteRecord, Reader, ReaderBuilder};
use std::alloc::Global;
use std::io::Read;

/// Why a record is no row.
#[derive(Clone, Copy, Debug, PartialEq, Eq)]
pub enum RowFault {
    /// It has this flaw.
    Flawed(Flaw),
    /// Memory was refused.
    OutOfMemory(NoMemory),
}

impl From<NoMemory> for RowFault {
    ghost use Rattle.std.specs.Prelude.{◌≡◌};
    ghost use Rattle.sms_files.specs.declared.tables.records.RowFault.TheVariants.{OutOfMemory};

    ghost from_gives = { λ _ f. f ≡ OutOfMemory tt };

    fn from(no: NoMemory) -> RowFault {
        RowFault::OutOfMemory(no)
    }
}

impl RowFault {
    ghost use Rattle.sms_files.specs.Records.{IsRowFault};

    /// The fault of the record at this place of a source, which begins on this line.
    pub fn at(
        self,
        alloc: Global,
        source: Source,
        place: usize,
        record: &ByteRecord,
        line: u64,
    ) -> InputFault
        ensures { IsRowFault source place self result }
    {
        match self {
            RowFault::Flawed(flaw) => bad_record(alloc, source, place, flaw, record, line),
            RowFault::OutOfMemory(no) => InputFault::OutOfMemory(no),
        }
    }
}

/// A row: what a record of a file is read as, where it stands after the file's first.
pub trait FromRecord: Drop {
    ghost use Rattle.sms_files.specs.declared.flaw.Flaw.{Flaw};

    /// What is wrong with a record that stands there.
    ghost flaw: { List (List ℕ) → Option Flaw };

    /// That a record without a flaw says this.
    ghost Says: { List (List ℕ) → Self → Type 0 };

    /// What the record says, or its flaw.
    fn from_record(alloc: Global, record: &ByteRecord) -> Result<Self, RowFault>
        ensures { IsReadAs flaw Says (fields_of «record».now) result };
}

/// Reads the records that the reader has left, which come after the file's first, to their end, to
/// the first faulty one, or to one past the most that there may be.
pub fn read_records<T: FromRecord, R: Read>(
    alloc: Global,
    reader: &mut Reader<CsvFile<R>>,
    record: &mut ByteRecord,
    source: Source,
    most: usize,
) -> Result<Vec<T>, InputFault>
    requires reads { ReadsAll reader.old }
    requires countable { most + 2 ≤ usize.MAX }
    ensures rows { IfOk result (λ rows. IfSome (records_left R.remaining reader.old) (λ left.
        AllZip T.Says left rows.items × (record_fault T.flaw most 1 left ≡ None))) }
    ensures limit { IfOk result (λ rows. length rows.items ≤ most) }
    ensures faulty { IfErr result (λ fault. IfSome (records_left R.remaining reader.old) (λ left.
        TellsRecords source (record_fault T.flaw most 1 left) fault)) }
{
    let returns = has_returns(reader);
    let mut rows = Vec::new(alloc);
    for before in 1..most + 1 {
        if !next_record(reader, record, source)? {
            return Ok(rows);
        }
        match T::from_record(alloc, record) {
            Ok(row) => push(&mut rows, row)?,
            Err(fault) => {
                let line = line_of(reader, record, returns);
                return Err(fault.at(alloc, source, before + 1, record, line));
            }
        }
    }
    if next_record(reader, record, source)? {
        let line = line_of(reader, record, returns);
        let flaw = Flaw::OneTooMany;
        return Err(bad_record(alloc, source, most + 2, flaw, record, line));
    }
    Ok(rows)
}

/// A reader of all records of a file, of whatever lengths, the header among them. It counts the errors
/// that the file answers.
pub fn read_all<R: Read>(alloc: Global, input: R) -> Reader<CsvFile<R>>
    ensures reads { ReadsAll result }
    ensures whole { records_left R.remaining result ≡ option_map records_of (R.remaining input) }
{
    ReaderBuilder::new()
        .has_headers(false)
        .flexible(true)
        .from_reader(alloc, CsvFile::new(input))
}
