//! Why a ledger's file can't be used.

use sms_files::memory::NoMemory;
use std::io::ErrorKind;

/// Why a ledger's file can't be used. Behind all but `Torn` its whole lines are those that were there.
#[derive(Clone, Copy, Debug, PartialEq, Eq)]
pub enum LedgerFailure {
    /// It can't be opened or made: the system refused it with an error of this kind.
    Unopened(ErrorKind),
    /// What has its name is no regular file.
    NoFile,
    /// It is a ledger of the other kind.
    OtherKind,
    /// Other programs held its lock for 10 seconds.
    Locked,
    /// It can't be locked or read: that answered an error of this kind.
    Unread(ErrorKind),
    /// It can't be cut, written to or made durable: that answered an error of this kind. What had been written of
    /// the new lines was cut off again.
    Unwritten(ErrorKind),
    /// The same, but what had been written can't be cut off: some of the new lines may stand there.
    Torn(ErrorKind),
    /// Memory was refused for its text.
    OutOfMemory(NoMemory),
}
