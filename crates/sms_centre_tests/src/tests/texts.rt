//! Scripts: what each text makes the centre write, and which texts and keys are refused.

use super::{ANSWER, bare, same, served};
use sms_centre::{Script, ScriptError, ServeCause};
use std::alloc::{AllocError, Global};
use std::process::Abort;
use std::test::Fail;

// Two submit_sm with the numbers 2 and 3.
fn two_submits(alloc: Global) -> Result<Vec<u8>, Fail> {
    let mut stream = Vec::new(alloc);
    stream.extend_from_slice(&bare(4, 0, 2))?;
    stream.extend_from_slice(&bare(4, 0, 3))?;
    Ok(stream)
}

const SECOND: &[u8; 19] = b"\x00\x00\x00\x13\x80\x00\x00\x04\x00\x00\x00\x00\x00\x00\x00\x03m2\x00";

// The first text of a script, and what is written for it before the answers with status 0.
const TEXTS: &[(&str, &[u8])] = &[
    ("status 0", b""),
    (
        "status 20",
        b"\x00\x00\x00\x10\x80\x00\x00\x04\x00\x00\x00\x14\x00\x00\x00\x02",
    ),
    (
        "nack 0",
        b"\x00\x00\x00\x10\x80\x00\x00\x00\x00\x00\x00\x00\x00\x00\x00\x02",
    ),
    ("silent", b""),
    (
        "unbind",
        b"\x00\x00\x00\x10\x00\x00\x00\x06\x00\x00\x00\x00\x00\x00\x00\x01",
    ),
    (
        "twice 8",
        b"\x00\x00\x00\x10\x80\x00\x00\x04\x00\x00\x00\x08\x00\x00\x00\x02\x00\x00\x00\x10\x80\x00\x00\x04\x00\x00\x00\x08\x00\x00\x00\x02",
    ),
    (
        "stray 0",
        b"\x00\x00\x00\x13\x80\x00\x00\x04\x00\x00\x00\x00\x00\x0f\x42\x42m1\x00",
    ),
    ("late 1 0", b""),
    ("late 2 0", b""),
    (
        "deliver",
        b"\x00\x00\x00\x21\x00\x00\x00\x05\x00\x00\x00\x00\x00\x00\x00\x02\x00\x00\x00\x00\x00\x00\x00\x00\x00\x00\x00\x00\x00\x00\x00\x00\x00",
    ),
];

// By this script the two submit_sm get these octets, and so many of them came.
fn want_octets(
    rt: &impl Abort,
    alloc: Global,
    script: &str,
    wanted: &[u8],
    submits: u64,
) -> Result<(), Fail> {
    let (out, end) = served(alloc, script, &two_submits(alloc)?)?;
    same(rt, out.as_slice(), wanted);
    same(rt, end.submits, submits);
    same(rt, end.cause, ServeCause::Ended);
    Ok(())
}

// By this text and a status 0 behind it the two submit_sm get these octets, and then their answers
// with status 0.
fn want_first(rt: &impl Abort, alloc: Global, text: &str, first: &[u8]) -> Result<(), Fail> {
    let mut wanted = Vec::new(alloc);
    wanted.extend_from_slice(first)?;
    if text == "status 0" || text == "deliver" || text == "late 1 0" {
        wanted.extend_from_slice(ANSWER)?;
    }
    wanted.extend_from_slice(SECOND)?;
    let script = format!(in alloc; "answers = [\"{}\", \"status 0\"]", text)?;
    want_octets(rt, alloc, script.as_str(), wanted.as_slice(), 2)
}

#[test]
fn what_each_text_says(rt: HostRuntime) -> Result<(), Fail> {
    let alloc = rt.alloc();
    for (text, first) in TEXTS {
        want_first(&rt, alloc, text, first)?;
    }
    let cut = b"\x00\x00\x00\x13\x80\x00\x00\x04\x00\x00";
    want_octets(&rt, alloc, "answers = [\"cut\"]", cut, 1)?;
    want_octets(&rt, alloc, "answers = [\"huge\"]", b"\x00\x01\x11\x71", 1)
}

// Bare headers of these commands and statuses, each with the number 7.
fn bares(alloc: Global, headers: &[(u32, u32)]) -> Result<Vec<u8>, AllocError> {
    let mut octets = Vec::new(alloc);
    for (command, status) in headers {
        octets.extend_from_slice(&bare(*command, *status, 7))?;
    }
    Ok(octets)
}

// Two binds, and then an enquire_link, a command that there isn't, a submit_sm_resp and an unbind.
const REQUESTS: &[(u32, u32)] = &[
    (2, 0),
    (9, 0),
    (0x15, 0),
    (0x103, 0),
    (0x8000_0004, 0),
    (6, 0),
];

// The answers to the others.
const OTHERS: &[(u32, u32)] = &[(0x8000_0015, 0), (0x8000_0000, 3), (0x8000_0006, 0)];

// By this script the requests get these answers to the binds, and then the others.
fn want_answers(rt: &impl Abort, alloc: Global, script: &str, binds: &[u8]) -> Result<(), Fail> {
    let (out, end) = served(alloc, script, &bares(alloc, REQUESTS)?)?;
    same(rt, (end.submits, end.cause), (0, ServeCause::Unbound));
    assert!(rt; out.starts_with(binds));
    same(
        rt,
        &out[binds.len().min(out.len())..],
        bares(alloc, OTHERS)?.as_slice(),
    );
    Ok(())
}

#[test]
fn what_other_requests_get(rt: HostRuntime) -> Result<(), Fail> {
    let binds =
        b"\x00\x00\x00\x15\x80\x00\x00\x02\x00\x00\x00\x00\x00\x00\x00\x07TEST\x00\x00\x00\x00\x15\x80\x00\x00\x09\x00\x00\x00\x00\x00\x00\x00\x07TEST\x00";
    want_answers(&rt, rt.alloc(), "answers = [\"silent\"]", binds)
}

#[test]
fn what_binds_get_by_a_status(rt: HostRuntime) -> Result<(), Fail> {
    let binds = bares(rt.alloc(), &[(0x8000_0002, 14), (0x8000_0009, 14)])?;
    let script = "bind_status = 14\nanswers = [\"silent\"]";
    want_answers(&rt, rt.alloc(), script, &binds)
}

// Why this text says no script, if it says none.
fn refusal_of(alloc: Global, text: &str) -> Option<ScriptError> {
    Script::read(alloc, text).err()
}

// This text is refused so.
fn want_refused(rt: &impl Abort, alloc: Global, text: &str, why: ScriptError) {
    assert!(rt; refusal_of(alloc, text) == Some(why));
}

// This text says no answer: of three the second is the first that is bad.
fn want_no_answer(rt: &impl Abort, alloc: Global, text: &str) -> Result<(), Fail> {
    let script = format!(in alloc; "answers = [\"cut\", \"{}\", \"what\"]", text)?;
    want_refused(
        rt,
        alloc,
        script.as_str(),
        ScriptError::BadAnswer { place: 1 },
    );
    Ok(())
}

// This text says an answer.
fn want_answer(rt: &impl Abort, alloc: Global, text: &str) -> Result<(), Fail> {
    let script = format!(in alloc; "bind_status = 4294967295\nanswers = [\"{}\"]", text)?;
    assert!(rt; Script::read(alloc, script.as_str()).is_ok());
    Ok(())
}

// Texts that aren't TOML.
const NOT_TOML: &[&str] = &[
    "answers = [",
    "= 1",
    "answers = [\"cut\"]\nanswers = [\"cut\"]",
];

// TOML texts without the keys of a script.
const BAD_KEYS: &[&str] = &[
    "",
    "answers = []",
    "answers = \"cut\"",
    "answers = [\"cut\", 1]",
    "answers = [\"cut\"]\nbind_status = 4294967296",
    "answers = [\"cut\"]\nbind_status = -1",
    "answers = [\"cut\"]\nbind_status = \"0\"",
    "answers = [\"cut\"]\nanswer = 1",
    "bind_status = 0",
    "answer = 1\nanswers = [\"what\"]",
];

// Texts that say no answer.
const NO_ANSWERS: &[&str] = &[
    "what",
    "",
    " ",
    "status",
    "status ",
    "status -1",
    "status  1",
    "status 1 ",
    "status 4294967296",
    "status 000000000000000000001",
    "Status 1",
    "nack",
    "silent 1",
    "cut ",
    "late",
    "late 1",
    "late 1 ",
    "late 0 0",
    "late 1 0 0",
    "late 4294967296 0",
    "twice",
    "stray x",
    "deliver 0",
    "huge 1",
    "unbind 1",
];

// Texts that say an answer.
const ANSWERS: &[&str] = &[
    "status 00000000000000000001",
    "status 4294967295",
    "late 4294967295 4294967295",
    "nack 0",
];

#[test]
fn which_scripts_are_refused(rt: HostRuntime) -> Result<(), Fail> {
    let alloc = rt.alloc();
    for text in NOT_TOML {
        want_refused(&rt, alloc, text, ScriptError::NotToml);
    }
    for text in BAD_KEYS {
        want_refused(&rt, alloc, text, ScriptError::BadKey);
    }
    for text in NO_ANSWERS {
        want_no_answer(&rt, alloc, text)?;
    }
    for text in ANSWERS {
        want_answer(&rt, alloc, text)?;
    }
    Ok(())
}
