//! The octets that a sending writes on a connection (SMPP 3.4 4.1, 4.2, 4.4, 4.6; 3GPP TS 23.040
//! 9.2.3.24), worked out by hand.

use super::same::same;
use super::trial::{LONG, OpenGate, PLAIN, Sending, messages_of, send, sending_of};
use std::process::Abort;
use std::sync::Wait;
use std::test::Fail;
use std::thread::Threads;

/// Configs, messages, and what is written.
const ROWS: [(&str, &str, &[u8]); 6] = [
    // a bind, a request and an unbind
    (
        "password = \"pw\"",
        "account,source,destination,text\nmain,12345,+447700900123,Hi\n",
        b"\0\0\0\x1d\0\0\0\x02\0\0\0\x00\0\0\0\x01esme\0pw\0\0\x34\0\0\0\0\0\0\x34\0\0\0\x04\0\0\0\x00\0\0\0\x02\0\x01\x0112345\0\x01\x01447700900123\0\0\0\0\0\0\0\0\0\0\x02Hi\0\0\0\x10\0\0\0\x06\0\0\0\x00\0\0\0\x03",
    ),
    // each request has the next number, and each attempt is one
    (
        "password = \"pw\"\nanswers = [\"status 88\", \"status 88\", \"status 0\"]",
        "account,source,destination,text\nmain,12345,+447700900123,Hi\n",
        b"\0\0\0\x1d\0\0\0\x02\0\0\0\x00\0\0\0\x01esme\0pw\0\0\x34\0\0\0\0\0\0\x34\0\0\0\x04\0\0\0\x00\0\0\0\x02\0\x01\x0112345\0\x01\x01447700900123\0\0\0\0\0\0\0\0\0\0\x02Hi\0\0\0\x34\0\0\0\x04\0\0\0\x00\0\0\0\x03\0\x01\x0112345\0\x01\x01447700900123\0\0\0\0\0\0\0\0\0\0\x02Hi\0\0\0\x34\0\0\0\x04\0\0\0\x00\0\0\0\x04\0\x01\x0112345\0\x01\x01447700900123\0\0\0\0\0\0\0\0\0\0\x02Hi\0\0\0\x10\0\0\0\x06\0\0\0\x00\0\0\0\x05",
    ),
    // a name as the source, a letter that takes UCS2, and a receipt that is asked for
    (
        "password = \"pw\"\nreceipts = true",
        "account,source,destination,text\nmain,Bank,447700900123,\u{436}\n",
        b"\0\0\0\x1d\0\0\0\x02\0\0\0\x00\0\0\0\x01esme\0pw\0\0\x34\0\0\0\0\0\0\x33\0\0\0\x04\0\0\0\x00\0\0\0\x02\0\x05\0Bank\0\x01\x01447700900123\0\0\0\0\0\0\x01\0\x08\0\x02\x04\x36\0\0\0\x10\0\0\0\x06\0\0\0\x00\0\0\0\x03",
    ),
    // a transmitter says no to a deliver_sm
    (
        "password = \"pw\"\nanswers = [\"deliver\"]",
        "account,source,destination,text\nmain,12345,+447700900123,Hi\n",
        b"\0\0\0\x1d\0\0\0\x02\0\0\0\x00\0\0\0\x01esme\0pw\0\0\x34\0\0\0\0\0\0\x34\0\0\0\x04\0\0\0\x00\0\0\0\x02\0\x01\x0112345\0\x01\x01447700900123\0\0\0\0\0\0\0\0\0\0\x02Hi\0\0\0\x11\x80\0\0\x05\0\0\0\x04\0\0\0\x02\0\0\0\0\x10\0\0\0\x06\0\0\0\x00\0\0\0\x03",
    ),
    // a transceiver takes it
    (
        "password = \"pw\"\nmode = \"transceiver\"\nanswers = [\"deliver\"]",
        "account,source,destination,text\nmain,12345,+447700900123,Hi\n",
        b"\0\0\0\x1d\0\0\0\x09\0\0\0\x00\0\0\0\x01esme\0pw\0\0\x34\0\0\0\0\0\0\x34\0\0\0\x04\0\0\0\x00\0\0\0\x02\0\x01\x0112345\0\x01\x01447700900123\0\0\0\0\0\0\0\0\0\0\x02Hi\0\0\0\x11\x80\0\0\x05\0\0\0\x00\0\0\0\x02\0\0\0\0\x10\0\0\0\x06\0\0\0\x00\0\0\0\x03",
    ),
    // an unbind of the centre is answered, and none is sent then
    (
        "password = \"pw\"\nanswers = [\"unbind\"]",
        "account,source,destination,text\nmain,12345,+447700900123,Hi\n",
        b"\0\0\0\x1d\0\0\0\x02\0\0\0\x00\0\0\0\x01esme\0pw\0\0\x34\0\0\0\0\0\0\x34\0\0\0\x04\0\0\0\x00\0\0\0\x02\0\x01\x0112345\0\x01\x01447700900123\0\0\0\0\0\0\0\0\0\0\x02Hi\0\0\0\x10\x80\0\0\x06\0\0\0\x00\0\0\0\x01",
    ),
];

/// What is written on the first connection of a sending by this config, of these messages.
fn heard_of<'a, R: AllocGlobal + Abort + Threads + Wait + Sync>(
    rt: &R,
    config: &'a str,
    messages: &'a str,
) -> Vec<u8> {
    let sending = Sending {
        config,
        messages,
        ..PLAIN
    };
    match send(rt, rt.alloc(), &sending, &OpenGate) {
        Ok(said) => said.heard,
        Err(_) => panic!(rt; "no memory"),
    }
}

#[test]
fn writes_the_frames_of_a_sending(rt: HostRuntime) {
    for (config, messages, octets) in &ROWS {
        let heard = heard_of(&rt, config, messages);
        same(&rt, (config, heard.as_slice()), (config, *octets));
    }
}

/// How many octets are written of a bind, of `Hi`, of a text of two parts and of an unbind; and what
/// stands in the parts from the esm_class on, with references of 8 bits and of 16.
const PARTS: [(&str, usize, &[u8], &[u8]); 2] = [
    (
        "",
        368,
        b"\x40\0\0\0\0\0\0\0\0\x9f\x05\0\x03\x01\x02\x01a",
        b"\x40\0\0\0\0\0\0\0\0\x0e\x05\0\x03\x01\x02\x02aaaaaaaa",
    ),
    (
        "long_reference = true",
        370,
        b"\x40\0\0\0\0\0\0\0\0\x9f\x06\x08\x04\0\x01\x02\x01a",
        b"\x40\0\0\0\0\0\0\0\0\x10\x06\x08\x04\0\x01\x02\x02aaaaaaaaa",
    ),
];

/// Whether these stand among the octets from this place on.
fn stand_at(octets: &[u8], place: usize, wanted: &[u8]) -> bool {
    match octets.get(place..) {
        Some(rest) => rest.starts_with(wanted),
        None => false,
    }
}

/// The long text is that of the second message, so its reference is 1.
#[test]
fn writes_the_parts_of_a_long_text(rt: HostRuntime) -> Result<(), Fail> {
    let alloc = rt.alloc();
    let texts = format!(in alloc; "Hi {LONG}")?;
    let messages = messages_of(alloc, texts.as_str())?;
    for (config, length, first, second) in PARTS {
        let sending = sending_of(config, "account,credits\nmain,3\n", messages.as_str());
        let said = send(&rt, alloc, &sending, &OpenGate)?;
        let octets = said.heard.as_slice();
        same(&rt, (config, octets.len()), (config, length));
        same(&rt, (config, stand_at(octets, 119, first)), (config, true));
        same(&rt, (config, stand_at(octets, 328, second)), (config, true));
    }
    Ok(())
}
