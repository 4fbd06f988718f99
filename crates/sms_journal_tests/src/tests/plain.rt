//! What is left of files where messages have references, worked out by hand.

use super::same;
use sms_journal::plain_of;
use std::test::Fail;

/// Files, and what is left of them.
const LEFT: [(&str, &str); 12] = [
    (
        "account,source,destination,text,ref\nm,1,2,hi,R-1\nm,1,3,ho,\n",
        "account,source,destination,text\nm,1,2,hi\nm,1,3,ho\n",
    ),
    // A byte order mark, CR LF, empty lines and quotes that needn't stand are left out.
    (
        "\u{feff}\"account\",source,destination,text,ref\r\n\r\n\"m,\",1,2,\"say \"\"hi\"\"\nnow\",\"R\n1\"\r\n\"m\",1,2,hi,R",
        "account,source,destination,text\n\"m,\",1,2,\"say \"\"hi\"\"\nnow\"\nm,1,2,hi\n",
    ),
    // A message without a reference is left with three fields, and one with more fields as it stands.
    (
        "account,source,destination,text,ref\nm,1,2,hi\nm,1\nm\n\"\"\n",
        "account,source,destination,text\nm,1,2\nm,1,\nm,,\n,,\n",
    ),
    (
        "account,source,destination,text,ref\nm,1,2,hi, you,R\n",
        "account,source,destination,text\nm,1,2,hi, you,R\n",
    ),
    // The reference of the last message is left open: all that stands behind its quote is read as it.
    (
        "account,source,destination,text,ref\nm,1,2,hi,R\nm,1,2,ho,\"R\nm,1,2,hm,R\n",
        "account,source,destination,text\nm,1,2,hi\nm,1,2,ho,\"R\nm,1,2,hm,R\n\"\n",
    ),
    (
        "account,source,destination,text,ref\n",
        "account,source,destination,text\n",
    ),
    // A messages file without references is none with them.
    (
        "account,source,destination,text\nm,1,2,hi\n",
        "account,source,destination,text,ref\n",
    ),
    // Each other file is left as it stands.
    ("account,credits\r\nm,1\r\n", "account,credits\r\nm,1\r\n"),
    (
        "account,source,destination,text,reference\nm,1,2,hi,R\n",
        "account,source,destination,text,reference\nm,1,2,hi,R\n",
    ),
    (
        "account,source,destination,text,ref,more\nm,1,2,hi,R,S\n",
        "account,source,destination,text,ref,more\nm,1,2,hi,R,S\n",
    ),
    ("journal,1,\"", "journal,1,\""),
    ("", ""),
];

#[test]
fn leaves_references_out(rt: HostRuntime) -> Result<(), Fail> {
    let alloc = rt.alloc();
    for (given, left) in LEFT {
        let mut octets = Vec::new(alloc);
        octets.extend_from_slice(given.as_bytes())?;
        let Ok(plain) = plain_of(alloc, octets) else {
            return Err("no memory".into());
        };
        same(&rt, plain.as_slice(), left.as_bytes());
    }
    Ok(())
}

/// A reference that isn't UTF-8 is none: the record is left with its five fields.
#[test]
fn leaves_no_text_where_it_stands(rt: HostRuntime) -> Result<(), Fail> {
    let alloc = rt.alloc();
    let mut octets = Vec::new(alloc);
    octets.extend_from_slice(
        b"account,source,destination,text,ref\nm,1,2,\xff,R\nm,1,2,hi,\xff\n",
    )?;
    let Ok(plain) = plain_of(alloc, octets) else {
        return Err("no memory".into());
    };
    same(
        &rt,
        plain.as_slice(),
        b"account,source,destination,text\nm,1,2,\xff\nm,1,2,hi,\xff\n".as_slice(),
    );
    Ok(())
}
