//! Messages files with a column `ref`: what is taken of them, what is left, and where reading ends.

use super::same::same;
use super::told::told_of;
use sms_files::read_messages;
use sms_files::refs::{TakenRefs, take_refs};
use std::alloc::Global;
use std::process::Abort;
use std::test::Fail;

const HEADER: &str = "account,source,destination,text,ref\n";

// What is taken of the file.
fn taken(rt: &(impl AllocGlobal + Abort), octets: &[u8]) -> TakenRefs {
    let Ok(taken) = take_refs(rt.alloc(), octets) else {
        panic!(rt; "the file is refused")
    };
    taken
}

// The fault of the file, or that there is none.
fn told(alloc: Global, octets: &[u8]) -> Result<String, Fail> {
    match take_refs(alloc, octets) {
        Ok(_) => Ok(String::from_str(alloc, "no fault")?),
        Err(fault) => told_of(alloc, fault),
    }
}

/// A file with a byte order mark, empty lines, line ends of both kinds, and quotes that need not be there. What is
/// left has quotes just where they have to be.
#[test]
fn takes_the_last_column(rt: HostRuntime) -> Result<(), Fail> {
    let octets =
        b"\xEF\xBB\xBF\"account\",source,destination,text,ref\r\n\r\n\"a\",b,1,\"x, \"\"y\"\"\",R-1\r\n,,,,\"two\nlines, \"\"\"\n\"\",c,2,\"a\rb\",r";
    let taken = taken(&rt, octets);
    let wanted = b"account,source,destination,text\na,b,1,\"x, \"\"y\"\"\"\n,,,\n,c,2,\"a\rb\"\n";
    assert!(rt; taken.plain.as_slice() == wanted.as_slice());
    assert!(rt; taken.refs.len() == 3);
    same(&rt, taken.refs[0].as_str(), "R-1");
    same(&rt, taken.refs[1].as_str(), "two\nlines, \"");
    same(&rt, taken.refs[2].as_str(), "r");
    Ok(())
}

/// What is left is read as a messages file.
#[test]
fn leaves_a_messages_file(rt: HostRuntime) -> Result<(), Fail> {
    let octets = b"account,source,destination,text,ref\nn,s,1,\"\"\"\",first\nn,t,2,\"\n\",\n";
    let taken = taken(&rt, octets);
    let Ok(messages) = read_messages(rt.alloc(), taken.plain.as_slice(), &[]) else {
        panic!(rt; "what is left is refused")
    };
    assert!(rt; messages.len() == 2);
    assert!(rt; taken.refs.len() == 2);
    same(&rt, messages[0].source.as_str(), "s");
    same(&rt, messages[0].text.as_str(), "\"");
    same(&rt, messages[1].dest.as_str(), "2");
    same(&rt, messages[1].text.as_str(), "\n");
    same(&rt, taken.refs[1].as_str(), "");
    Ok(())
}

/// A file without messages has no references.
#[test]
fn takes_nothing_of_no_messages(rt: HostRuntime) {
    let taken = taken(&rt, HEADER.as_bytes());
    assert!(rt; taken.refs.is_empty());
    assert!(rt; taken.plain.as_slice() == b"account,source,destination,text\n".as_slice());
}

/// A fault names the record of the file as it was given.
#[test]
fn names_the_faulty_record(rt: HostRuntime) -> Result<(), Fail> {
    let alloc = rt.alloc();
    let files: [(&[u8], &str); 7] = [
        (b"", "messages record 1"),
        (
            b"account,source,destination,text\na,b,c,d\n",
            "messages record 1",
        ),
        (
            b"account,source,destination,text,Ref\n",
            "messages record 1",
        ),
        (
            b"account,source,destination,text,ref,\n",
            "messages record 1",
        ),
        (
            b"account,source,destination,text,ref\na,b,c,d\n",
            "messages record 2",
        ),
        (
            b"account,source,destination,text,ref\na,b,c,d,e\n\na,b,c,d,\xff\n",
            "messages record 3",
        ),
        (
            b"account,source,destination,text,ref\na,b,c,d,e,f\n",
            "messages record 2",
        ),
    ];
    for (octets, wanted) in files {
        let fault = told(alloc, octets)?;
        same(&rt, fault.as_str(), wanted);
    }
    Ok(())
}
