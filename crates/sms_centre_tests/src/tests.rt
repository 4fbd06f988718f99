//! The centre and its devices, by values from outside.

use sms_centre::{Centre, Script, ScriptError, ServeCause, ServeEnd, serve};
use sms_pdu::{Frame, Tap};
use std::alloc::Global;
use std::fmt::Debug;
use std::io::{Read, Write};
use std::process::Abort;
use std::test::Fail;

mod devices;
mod ends;
mod memory;
mod texts;

// Both are the same. A test that compares by a call has a short proof: what is printed where they
// differ stands here alone.
fn same<T: PartialEq + Debug + Drop>(rt: &impl Abort, got: T, wanted: T) {
    assert_eq!(rt; got, wanted);
}

// submit_sm number 2 of `Hi` from 12345 to 447700900123.
const SUBMIT: &[u8; 52] =
    b"\x00\x00\x00\x34\x00\x00\x00\x04\x00\x00\x00\x00\x00\x00\x00\x02\x00\x01\x0112345\x00\x01\x01447700900123\x00\x00\x00\x00\x00\x00\x00\x00\x00\x00\x02Hi";

// Its answer with the message_id `m1`.
const ANSWER: &[u8; 19] = b"\x00\x00\x00\x13\x80\x00\x00\x04\x00\x00\x00\x00\x00\x00\x00\x02m1\x00";

// A PDU without a body.
fn bare(command: u32, status: u32, number: u32) -> [u8; 16] {
    let c = command.to_be_bytes();
    let s = status.to_be_bytes();
    let n = number.to_be_bytes();
    [
        0, 0, 0, 16, c[0], c[1], c[2], c[3], s[0], s[1], s[2], s[3], n[0], n[1], n[2], n[3],
    ]
}

// The script that this text says.
fn script_of(alloc: Global, text: &str) -> Result<Script, Fail> {
    match Script::read(alloc, text) {
        Ok(script) => Ok(script),
        Err(_) => Err("no script".into()),
    }
}

// The script of a centre that says yes to all.
fn good(alloc: Global) -> Result<Script, Fail> {
    script_of(alloc, "answers = [\"status 0\"]")
}

// How the centre of a script ends over these devices, after so many turns at most.
fn served_over<R: Read + Drop, W: Write + Drop>(
    alloc: Global,
    reader: R,
    writer: W,
    script: Script,
    turns: u64,
) -> ServeEnd {
    let mut reader = Tap::new(reader);
    let mut writer = Tap::new(writer);
    serve(alloc, &mut reader, &mut writer, script, turns)
}

// What the centre of a script writes to this input, and how it ends.
fn served(alloc: Global, script: &str, input: &[u8]) -> Result<(Vec<u8>, ServeEnd), Fail> {
    match script_of(alloc, script) {
        Ok(script) => {
            let mut out = Vec::<u8>::new(alloc);
            let end = served_over(alloc, input, &mut out, script, 10);
            Ok((out, end))
        }
        Err(e) => Err(e),
    }
}

#[test]
fn a_submit_and_its_answer(rt: HostRuntime) -> Result<(), Fail> {
    let alloc = rt.alloc();
    let mut centre = Centre::new(alloc, good(alloc)?)?;
    let mut octets = Vec::new(alloc);
    octets.extend_from_slice(SUBMIT)?;
    let pieces = centre.answer(alloc, &Frame::new(octets))?;
    assert!(rt; pieces.len() == 1);
    same(&rt, pieces[0].as_slice(), ANSWER.as_slice());
    same(&rt, centre.submits(), 1);
    Ok(())
}

// The script of a list of answers.
fn script_with(alloc: Global, answers: &[String]) -> Result<Script, Fail> {
    match Script::of(alloc, 0, answers) {
        Ok(script) => Ok(script),
        Err(_) => Err("no script".into()),
    }
}

#[test]
fn a_list_of_answers(rt: HostRuntime) -> Result<(), Fail> {
    let alloc = rt.alloc();
    let mut answers = Vec::new(alloc);
    answers.push(String::from_str(alloc, "status 0")?)?;
    let script = script_with(alloc, answers.as_slice())?;
    let mut out = Vec::<u8>::new(alloc);
    let end = served_over(alloc, SUBMIT.as_slice(), &mut out, script, 10);
    same(&rt, (end.submits, end.cause), (1, ServeCause::Ended));
    same(&rt, out.as_slice(), ANSWER.as_slice());
    let none = Script::of(alloc, 0, &[]);
    assert!(rt; matches!(none, Err(ScriptError::BadKey)));
    Ok(())
}
