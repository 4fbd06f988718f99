//! The files of records: accounts, messages and tariff of a sending, and the schedule of a replay. Each is read
//! record by record to its end or to its first faulty one.

mod accounts;
mod csv_file;
mod field;
mod message_rows;
mod messages;
mod quoting;
mod rates;
mod record_flaw;
mod records;
mod rows;
mod schedule;

pub use accounts::read_accounts;
pub(crate) use csv_file::CsvFile;
pub(crate) use field::text_at;
pub use message_rows::read_messages;
pub(crate) use messages::MOST_MESSAGES;
pub use messages::{MessageText, read_texts};
pub use quoting::{check_quotes, ends_quoted};
pub(crate) use rates::{read_tariff, tariff_of};
pub use record_flaw::RecordFlaw;
pub(crate) use records::{FromRecord, RowFault};
pub(crate) use rows::{Headed, is_field, read_rows};
pub use schedule::{Schedule, read_schedule};
