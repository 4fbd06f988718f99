//! Memory that is refused, one allocation after another: `tools/refuse-memory` runs each of these once
//! for each of its allocations, and where memory is refused before the call that is tested, it ends
//! there.

use super::{ANSWER, SUBMIT, same, served_over};
use sms_centre::{Centre, Script, ScriptError, ServeCause};
use sms_pdu::Frame;

// Its answer where it came second.
const SECOND: &[u8; 19] = b"\x00\x00\x00\x13\x80\x00\x00\x04\x00\x00\x00\x00\x00\x00\x00\x02m2\x00";

// A text is a script, has its own fault, or memory was refused.
#[test]
fn memory_of_a_script(rt: HostRuntime) {
    let alloc = rt.alloc();
    let rows = [
        (
            "bind_status = 3\nanswers = [\"status 0\", \"late 1 0\"]",
            None,
        ),
        ("answers = [", Some(ScriptError::NotToml)),
        ("answers = [1]", Some(ScriptError::BadKey)),
        (
            "answers = [\"cut\", \"what\"]",
            Some(ScriptError::BadAnswer { place: 1 }),
        ),
    ];
    for (text, fault) in rows {
        let said = Script::read(alloc, text).err();
        assert!(rt; said == fault || said == Some(ScriptError::OutOfMemory));
    }
}

// An answer that isn't given changes nothing, so the next one is the first.
#[test]
fn memory_of_an_answer(rt: HostRuntime) {
    let alloc = rt.alloc();
    let (Ok(octets), Ok(script)) = (
        Vec::from_slice(alloc, SUBMIT),
        Script::read(alloc, "answers = [\"status 0\"]"),
    ) else {
        return;
    };
    let Ok(mut centre) = Centre::new(alloc, script) else {
        return;
    };
    let frame = Frame::new(octets);
    let pieces = match centre.answer(alloc, &frame) {
        Ok(pieces) => pieces,
        Err(_refused) => {
            same(&rt, centre.submits(), 0);
            let Ok(pieces) = centre.answer(alloc, &frame) else {
                panic!(rt; "no memory twice")
            };
            pieces
        }
    };
    same(&rt, centre.submits(), 1);
    assert!(rt; pieces.len() == 1 && pieces[0].as_slice() == ANSWER.as_slice());
}

// What was said before memory was refused is written.
#[test]
fn memory_of_serving(rt: HostRuntime) {
    let alloc = rt.alloc();
    let (Ok(script), Ok(mut input), Ok(mut wanted)) = (
        Script::read(alloc, "answers = [\"status 0\"]"),
        Vec::from_slice(alloc, SUBMIT),
        Vec::from_slice(alloc, ANSWER),
    ) else {
        return;
    };
    let Ok(mut out) = Vec::<u8>::with_capacity(alloc, 100) else {
        return;
    };
    if input.extend_from_slice(SUBMIT).is_err() || wanted.extend_from_slice(SECOND).is_err() {
        return;
    }
    let end = served_over(alloc, input.as_slice(), &mut out, script, 10);
    match end.cause {
        ServeCause::Ended => same(&rt, (end.submits, out.len()), (2, 38)),
        cause => {
            same(&rt, cause, ServeCause::OutOfMemory);
            same(
                &rt,
                (out.len() / 19, out.len() % 19),
                (end.submits as usize, 0),
            );
        }
    }
    assert!(rt; wanted.starts_with(out.as_slice()));
}
