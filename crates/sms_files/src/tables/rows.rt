//! Files whose first record is a header, and the rows after it.

ghost use Rattle.std.specs.Prelude.{◌≡◌, ◌≤◌, ◌+◌, Bool, List, ℕ, IfErr, IfOk, IfSome, length};
ghost use Rattle.csv.specs.Records.{fields_of};
ghost use Rattle.sms_files.specs.Fields.{records_of};
ghost use Rattle.sms_files.specs.Records.{ReadsAll, TellsRecords, file_fault, records_left};
ghost use Rattle.sms_files.specs.Rows.{AreRows, field_is, header_of, is_pair as are_pair};

use crate::fault::{InputFault, Source};
use crate::flaw::Flaw;
use crate::memory::next_record;
use crate::tables::csv_file::CsvFile;
use crate::tables::record_flaw::{bad_record, line_of, missing_record};
use crate::tables::records::{FromRecord, read_all, read_records};
use csv::{ByteRecord, Reader};
use std::alloc::Global;
use std::io::Read;

/// A row of a file with such a header.
pub trait Headed: FromRecord {
    /// The records that may stand first.
    ghost is_header: { List (List ℕ) → Bool };

    /// Whether the record is the header.
    fn is_header(record: &ByteRecord) -> bool
        ensures { result ≡ is_header (fields_of «record».now) };
}

/// The rows of a file. Reading stops at the first faulty record, and one record past
/// the limit.
pub fn read_rows<T: Headed, R: Read + Drop>(
    alloc: Global,
    input: R,
    source: Source,
    most: usize,
) -> Result<Vec<T>, InputFault>
    requires countable { most + 2 ≤ usize.MAX }
    ensures rows { IfOk result (λ rows. IfSome (R.remaining input) (λ bytes. AreRows (header_of T.is_header) T.flaw T.Says most (records_of bytes) rows.items)) }
    ensures limit { IfOk result (λ rows. length rows.items ≤ most) }
    ensures faulty { IfErr result (λ fault. IfSome (R.remaining input) (λ bytes. TellsRecords source (file_fault (header_of T.is_header) T.flaw most (records_of bytes)) fault)) }
{
    let mut reader = read_all(alloc, input);
    let mut record = ByteRecord::new(alloc);
    let rows = rows_left(alloc, &mut reader, &mut record, source, most);
    drop(record);
    drop(reader);
    rows
}

/// The same of the records that a reader has left, which are all of a file.
fn rows_left<T: Headed, R: Read>(
    alloc: Global,
    reader: &mut Reader<CsvFile<R>>,
    record: &mut ByteRecord,
    source: Source,
    most: usize,
) -> Result<Vec<T>, InputFault>
    requires reads { ReadsAll reader.old }
    requires countable { most + 2 ≤ usize.MAX }
    ensures rows { IfOk result (λ rows. IfSome (records_left R.remaining reader.old) (λ left. AreRows (header_of T.is_header) T.flaw T.Says most left rows.items)) }
    ensures limit { IfOk result (λ rows. length rows.items ≤ most) }
    ensures faulty { IfErr result (λ fault. IfSome (records_left R.remaining reader.old) (λ left. TellsRecords source (file_fault (header_of T.is_header) T.flaw most left) fault)) }
{
    if !next_record(reader, record, source)? {
        return Err(missing_record(alloc, source, 1));
    }
    if !T::is_header(record) {
        let line = line_of(reader, record, false);
        return Err(bad_record(alloc, source, 1, Flaw::Header, record, line));
    }
    read_records(alloc, reader, record, source, most)
}

/// Whether the record has just these two fields.
pub fn is_pair(record: &ByteRecord, first: &str, second: &str) -> bool
    ensures { result ≡ are_pair first.now second.now (fields_of «record».now) }
{
    record.len() == 2
        && is_field(record, 0, first.as_bytes())
        && is_field(record, 1, second.as_bytes())
}

/// Whether the record's field at a place is this one.
pub fn is_field(record: &ByteRecord, place: usize, name: &[u8]) -> bool
    ensures { result ≡ field_is (fields_of «record».now) place name.now }
{
    match record.get(place) {
        Some(field) => field == name,
        None => false,
    }
}
