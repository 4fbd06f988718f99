//! Messages that are over, by their receipts.

use crate::tests::same;
use crate::{Finals, Ids};

/// A receipt of the message `42`, by its parameters, on its way and delivered; a message of somebody.
const ON_ITS_WAY: &[u8; 49] =
    b"\x00\x00\x00\x31\x00\x00\x00\x05\x00\x00\x00\x00\x00\x00\x00\x01\x00\x01\x01\x34\x34\x00\x01\x01\x31\x32\x00\x04\x00\x00\x00\x00\x00\x00\x00\x00\x00\x00\x1e\x00\x03\x34\x32\x00\x04\x27\x00\x01\x01";

const DELIVERED: &[u8; 49] =
    b"\x00\x00\x00\x31\x00\x00\x00\x05\x00\x00\x00\x00\x00\x00\x00\x02\x00\x01\x01\x34\x34\x00\x01\x01\x31\x32\x00\x04\x00\x00\x00\x00\x00\x00\x00\x00\x00\x00\x1e\x00\x03\x34\x32\x00\x04\x27\x00\x01\x02";

const MESSAGE: &[u8; 40] =
    b"\x00\x00\x00\x28\x00\x00\x00\x05\x00\x00\x00\x00\x00\x00\x00\x01\x00\x01\x01\x34\x34\x00\x01\x01\x31\x32\x00\x00\x00\x00\x00\x00\x00\x00\x00\x00\x03\x53\x54\x4f";

/// A receipt of a final state ends its message alone, however its id is spelled.
#[test]
fn final_receipts_end_their_messages(rt: HostRuntime) {
    for (ids, own, other) in [
        (Ids::Same, b"42".as_slice(), b"2A".as_slice()),
        (Ids::HexDec, b"2A".as_slice(), b"42".as_slice()),
        (Ids::DecHex, b"66".as_slice(), b"42".as_slice()),
    ] {
        let mut finals = Finals::new(rt.alloc(), ids);
        assert!(rt; finals.hear(ON_ITS_WAY).is_ok());
        assert!(rt; finals.hear(MESSAGE).is_ok());
        same(&rt, finals.has(own), false);
        assert!(rt; finals.hear(DELIVERED).is_ok());
        same(&rt, finals.has(own), true);
        same(&rt, finals.has(other), false);
    }
}
