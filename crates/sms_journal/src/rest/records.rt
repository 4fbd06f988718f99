//! All records of a file of CSV.

ghost use Rattle.std.specs.Prelude.{◌≡◌, IfOk, IfSome, map, option_map};
ghost use Rattle.csv.specs.Records.{fields_of};
ghost use Rattle.sms_files.specs.Fields.{records_of};
ghost use Rattle.sms_files.specs.Records.{ReadsAll, reader_left};

use csv::{ByteRecord, Reader, ReaderBuilder};
use sms_files::memory::{self, NoMemory};
use std::alloc::Global;
use std::io::Read;

/// A reader of all records, of whatever lengths, the header among them.
pub(crate) fn read_all<R: Read>(alloc: Global, input: R) -> Reader<R>
    ensures reads { ReadsAll result }
    ensures whole { reader_left R.remaining result ≡ option_map records_of (R.remaining input) }
{
    ReaderBuilder::new()
        .has_headers(false)
        .flexible(true)
        .from_reader(alloc, input)
}

/// The records that the reader has left.
fn records_of_all<R: Read>(
    alloc: Global,
    reader: &mut Reader<R>,
) -> Result<Vec<ByteRecord>, NoMemory>
    requires reads { ReadsAll reader.old }
    ensures { IfOk result (λ records. IfSome (reader_left R.remaining reader.old) (λ left. map fields_of records.items ≡ left)) }
{
    let mut records = Vec::new(alloc);
    for _ in 0..u64::MAX {
        let mut record = ByteRecord::new(alloc);
        if !memory::next_of(reader, &mut record)? {
            return Ok(records);
        }
        memory::push(&mut records, record)?;
    }
    // A list can't have as many items as the loop has turns.
    unreachable!()
}

/// The records of a file, its header among them.
pub fn records_in(alloc: Global, file: &[u8]) -> Result<Vec<ByteRecord>, NoMemory>
    ensures { IfOk result (λ records. map fields_of records.items ≡ records_of file.now) }
{
    let mut reader = read_all(alloc, file);
    records_of_all(alloc, &mut reader)
}
