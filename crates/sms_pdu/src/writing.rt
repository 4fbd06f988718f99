//! Octets written whole.

ghost use Rattle.std.specs.Prelude.{◌≡◌, OnOk, OnErr, length};
ghost use Rattle.std.specs.Io.KnownBytes.{Appends};
ghost use Rattle.sms_pdu.specs.Streams.{FewerAppended};

use std::io;
use std::io::{Error, ErrorKind, Write};

/// Writes all octets, in as many writes as it takes, up to the first that fails; then not all are
/// written. A write that takes none has failed.
pub fn write_octets<W: Write>(writer: &mut W, octets: &[u8]) -> io::Result<()>
    ensures all { OnOk result (Appends (W.contents writer.old) (W.contents writer.new) octets.now) }
    ensures some { OnErr result (FewerAppended (W.contents writer.old) (W.contents writer.new) octets.now) }
{
    let mut at = 0;
    while at < octets.len() {
        match writer.write(&octets[at..]) {
            Ok(0) => return Err(Error::from(ErrorKind::WriteZero)),
            Ok(n) => at += n,
            Err(e) => return Err(e),
        }
    }
    Ok(())
}
