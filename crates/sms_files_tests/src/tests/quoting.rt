//! Files that end within a quote, and others.

use super::same::same;
use sms_files::ends_quoted;

// What a file has, and whether it ends within a quote (RFC 4180 2.5 to 2.7).
const FILES: [(&[u8], bool); 12] = [
    (b"", false),
    (b"a,b\n", false),
    (b"\"a", true),
    (b"\"a\"", false),
    // Two quotes between quotes are one of the field.
    (b"\"a\"\"", true),
    (b"\"a\"\"\"\n", false),
    // A quote in a field that doesn't begin with one stands for itself.
    (b"a\"b\n", false),
    (b"\"a\"b\"c\n", false),
    (b"a,\"b\nc,d\n", true),
    (b"a\r\"b", true),
    (b"\xEF\xBB\xBF\"a", true),
    // What looks like a mark isn't passed over behind the head.
    (b"a\n\xEF\xBB\xBF\"a", false),
];

#[test]
fn a_file_ends_within_a_quote(rt: HostRuntime) {
    for (octets, ends) in FILES {
        same(&rt, ends_quoted(octets), ends);
    }
}
