//! Receipts in the forms of several centres.

use crate::tests::same;
use crate::{received, write_record};
use sms_pdu::{Octets, Parameter, SmRef};
use std::alloc::{AllocError, Global};
use std::process::Abort;
use std::test::Fail;

/// An esm_class, parameters, a text, and the line that they are kept as.
type Case = (
    u8,
    &'static [(u16, &'static [u8])],
    &'static [u8],
    &'static str,
);

const CASES: [Case; 16] = [
    // Kannel's box: an id that is no number.
    (
        4,
        &[],
        b"id:8b0b1fd6-5c1f-4ad8 sub:001 dlvrd:001 submit date:2611301532 done date:2611301533 stat:DELIVRD err:000 text:Your code",
        "received,7,1,447700900123,12345,4,8b0b1fd6-5c1f-4ad8,DELIVRD,000,id:8b0b1fd6-5c1f-4ad8%20sub:001%20dlvrd:001%20submit%20date:2611301532%20done%20date:2611301533%20stat:DELIVRD%20err:000%20text:Your%20code\n",
    ),
    // Net::SMPP's: the standard's example, with its capital.
    (
        4,
        &[],
        b"id:0000000101 sub:001 dlvrd:000 submit date:0305121010 done date:0305121012 stat:UNDELIV err:027 Text:stat:DELIVRD",
        "received,7,1,447700900123,12345,4,0000000101,UNDELIV,027,id:0000000101%20sub:001%20dlvrd:000%20submit%20date:0305121010%20done%20date:0305121012%20stat:UNDELIV%20err:027%20Text:stat:DELIVRD\n",
    ),
    // CMG's: times with seconds, no text.
    (
        4,
        &[],
        b"id:1234567890 sub:001 dlvrd:001 submit date:030512101010 done date:030512101212 stat:EXPIRED err:0",
        "received,7,1,447700900123,12345,4,1234567890,EXPIRED,0,id:1234567890%20sub:001%20dlvrd:001%20submit%20date:030512101010%20done%20date:030512101212%20stat:EXPIRED%20err:0\n",
    ),
    // Logica's: an error of one digit, parameters beside the text.
    (
        4,
        &[(0x001E, b"4D2\0"), (0x0427, b"\x08")],
        b"id:0000001234 sub:001 dlvrd:001 submit date:0305121010 done date:0305121012 stat:REJECTD err:4 Text:",
        "received,7,1,447700900123,12345,4,4D2,REJECTD,4,id:0000001234%20sub:001%20dlvrd:001%20submit%20date:0305121010%20done%20date:0305121012%20stat:REJECTD%20err:4%20Text:\n",
    ),
    // Parameters alone, and no bit of the class.
    (
        0,
        &[
            (0x0423, b"\x03\x01\x02"),
            (0x0427, b"\x05"),
            (0x001E, b"a1\0"),
        ],
        b"",
        "received,7,1,447700900123,12345,0,a1,UNDELIV,258,\n",
    ),
    // The first of two, an id without its 0, a state that there isn't, an error that is too short.
    (
        4,
        &[
            (0x001E, b"a1"),
            (0x001E, b"a2\0"),
            (0x0427, b"\x09"),
            (0x0423, b"\x03\x01"),
        ],
        b"stat:ACCEPTD err:9",
        "received,7,1,447700900123,12345,4,a1,ACCEPTD,9,stat:ACCEPTD%20err:9\n",
    ),
    // Each state.
    (
        4,
        &[(0x0427, b"\x01")],
        b"",
        "received,7,1,447700900123,12345,4,,ENROUTE,,\n",
    ),
    (
        4,
        &[(0x0427, b"\x02")],
        b"",
        "received,7,1,447700900123,12345,4,,DELIVRD,,\n",
    ),
    (
        4,
        &[(0x0427, b"\x03")],
        b"",
        "received,7,1,447700900123,12345,4,,EXPIRED,,\n",
    ),
    (
        4,
        &[(0x0427, b"\x04")],
        b"",
        "received,7,1,447700900123,12345,4,,DELETED,,\n",
    ),
    (
        4,
        &[(0x0427, b"\x07")],
        b"",
        "received,7,1,447700900123,12345,4,,UNKNOWN,,\n",
    ),
    // An intermediate notification whose text is a parameter, in other case and order.
    (
        0x20,
        &[(0x0424, b"STAT:ENROUTE\tId:5\r\nmyid:6 id:7")],
        b"",
        "received,7,1,447700900123,12345,32,5,ENROUTE,,STAT:ENROUTE%09Id:5%0d%0amyid:6%20id:7\n",
    ),
    // A message of somebody who writes what a receipt does.
    (
        0,
        &[],
        b"id:1 stat:DELIVRD err:0",
        "received,7,1,447700900123,12345,0,,,,id:1%20stat:DELIVRD%20err:0\n",
    ),
    // So does an acknowledgement of a handset.
    (
        8,
        &[],
        b"id:1 stat:DELIVRD",
        "received,7,1,447700900123,12345,8,,,,id:1%20stat:DELIVRD\n",
    ),
    // Octets of all kinds.
    (
        3,
        &[],
        b"STOP,\"%\n\x00\xFF~",
        "received,7,1,447700900123,12345,3,,,,STOP%2c%22%25%0a%00%ff~\n",
    ),
    // A receipt that says nothing.
    (0x44, &[], b"", "received,7,1,447700900123,12345,68,,,,\n"),
];

/// A deliver_sm from a subscriber to a service.
fn deliver<'a>(esm_class: u8, text: &'a [u8], params: &'a [Parameter]) -> SmRef<'a> {
    SmRef {
        service_type: &[],
        source_ton: 1,
        source_npi: 1,
        source_addr: b"447700900123".as_slice(),
        dest_ton: 0,
        dest_npi: 0,
        dest_addr: b"12345".as_slice(),
        esm_class,
        protocol_id: 0,
        priority: 0,
        schedule: &[],
        validity: &[],
        registered: 0,
        replace: 0,
        data_coding: 0,
        default_msg: 0,
        short_message: text,
        params,
    }
}

fn params_of(alloc: Global, params: &[(u16, &'static [u8])]) -> Result<Vec<Parameter>, AllocError> {
    let mut made = Vec::new(alloc);
    for (tag, value) in params {
        made.push(Parameter {
            tag: *tag,
            value: Octets::copy(alloc, value)?,
        })?;
    }
    Ok(made)
}

fn is_kept_as(
    alloc: Global,
    esm_class: u8,
    params: &[(u16, &'static [u8])],
    text: &[u8],
    line: &str,
) -> Result<bool, AllocError> {
    let params = params_of(alloc, params)?;
    let mut written = String::new(alloc);
    write_record(
        &mut written,
        &received(7, 1, &deliver(esm_class, text, params.as_slice())),
    )?;
    let is = written.as_str() == line;
    drop(written);
    drop(params);
    Ok(is)
}

#[test]
fn each_form_is_read(rt: HostRuntime) -> Result<(), Fail> {
    let alloc = rt.alloc();
    for (esm_class, params, text, line) in &CASES {
        same(
            &rt,
            is_kept_as(alloc, *esm_class, params, text, line)?,
            true,
        );
    }
    Ok(())
}
