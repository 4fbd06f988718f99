//! What a session answers to the PDUs that come in, as octets, and what answers decide.

use crate::{
    Action, Decision, Mode, OpenFault, Opened, Policy, PolicyError, Response, Session, State,
    decide,
};
use sms_pdu::{BodyRef, Header, PduRef, Reply, encode_into, header_of, reply_of};
use std::alloc::Global;
use std::fmt::Debug;
use std::process::Abort;
use std::test::Fail;

// Both are the same. A test that compares by a call has a short proof: what is printed where they
// differ stands here alone.
fn same<T: PartialEq + Debug + Drop>(rt: &impl Abort, got: T, wanted: T) {
    assert_eq!(rt; got, wanted);
}

// The header of a PDU that has nothing else.
fn header(rt: &impl Abort, command: u32, status: u32, number: u32) -> Header {
    let Some(header) = header_of(&octets_of(command, status, number)) else {
        panic!(rt; "no header")
    };
    header
}

fn octets_of(command: u32, status: u32, number: u32) -> [u8; 16] {
    let c = command.to_be_bytes();
    let s = status.to_be_bytes();
    let n = number.to_be_bytes();
    [
        0, 0, 0, 16, c[0], c[1], c[2], c[3], s[0], s[1], s[2], s[3], n[0], n[1], n[2], n[3],
    ]
}

fn session_of(rt: &impl Abort, mode: Mode) -> Session {
    let command = match mode {
        Mode::Transmitter => 0x8000_0002,
        Mode::Transceiver => 0x8000_0009,
    };
    let Ok(session) = Opened::new(mode).bound(&header(rt, command, 0, 1)) else {
        panic!(rt; "not bound")
    };
    session
}

// The body of a response that is deliver_sm_resp or has none.
fn body_of(rt: &impl Abort, command: u32) -> BodyRef<'static> {
    match command {
        0x8000_0005 => BodyRef::DeliverResp {
            message_id: Some(b""),
        },
        0x8000_0006 => BodyRef::UnbindResp,
        0x8000_0015 => BodyRef::EnquireLinkResp,
        0x8000_0000 => BodyRef::GenericNack,
        _ => panic!(rt; "no such response"),
    }
}

// The octets of such a response.
fn spelled(rt: &impl Abort, alloc: Global, response: Response) -> Vec<u8> {
    let pdu = PduRef {
        status: response.status,
        number: response.number,
        body: body_of(rt, response.command),
    };
    let mut octets = Vec::new(alloc);
    assert!(rt; encode_into(&mut octets, &pdu).is_ok());
    octets
}

#[test]
fn answers_to_a_bind(rt: HostRuntime) {
    let answers = [
        (0x8000_0009, 0, OpenFault::NotBind),
        (0x8000_0002, 14, OpenFault::Refused(14)),
        (0x8000_0000, 3, OpenFault::Refused(3)),
        (0x8000_0000, 0, OpenFault::Refused(0)),
    ];
    let mut opened = Opened::new(Mode::Transmitter);
    for (command, status, wanted) in answers {
        let answer = header(&rt, command, status, 1);
        let Err((again, fault)) = opened.bound(&answer) else {
            panic!(rt; "bound by {command:x}")
        };
        same(&rt, (command, fault), (command, wanted));
        opened = again;
    }
    let Ok(session) = opened.bound(&header(&rt, 0x8000_0002, 0, 1)) else {
        panic!(rt; "not bound")
    };
    same(&rt, session.state(), State::BoundTx);
    let transceiver = session_of(&rt, Mode::Transceiver);
    same(&rt, transceiver.state(), State::BoundTrx);
}

#[test]
fn what_may_be_sent(rt: HostRuntime) {
    let mut session = session_of(&rt, Mode::Transmitter);
    for (command, wanted) in [(4, true), (6, true), (0x15, true), (5, false), (2, false)] {
        same(&rt, (command, session.may_send(command)), (command, wanted));
    }
    session.lost();
    same(&rt, session.state(), State::Closed);
    for command in [4, 6, 0x15, 5, 2] {
        same(&rt, (command, !session.may_send(command)), (command, true));
    }
}

// Requests of the message centre, number 9, and the octets that answer them.
const RESPONSES: [(Mode, u32, &[u8]); 4] = [
    (
        Mode::Transceiver,
        5,
        b"\x00\x00\x00\x11\x80\x00\x00\x05\x00\x00\x00\x00\x00\x00\x00\x09\x00",
    ),
    (
        Mode::Transmitter,
        5,
        b"\x00\x00\x00\x11\x80\x00\x00\x05\x00\x00\x00\x04\x00\x00\x00\x09\x00",
    ),
    (
        Mode::Transmitter,
        0x15,
        b"\x00\x00\x00\x10\x80\x00\x00\x15\x00\x00\x00\x00\x00\x00\x00\x09",
    ),
    (
        Mode::Transmitter,
        0x103,
        b"\x00\x00\x00\x10\x80\x00\x00\x00\x00\x00\x00\x03\x00\x00\x00\x09",
    ),
];

// A request with this command gets these octets, and the session stays as it is.
fn want_response(rt: &impl Abort, alloc: Global, mode: Mode, command: u32, wanted: &[u8]) {
    let mut session = session_of(rt, mode);
    let before = session.state();
    let Action::Reply(response) = session.on(&header(rt, command, 0, 9)) else {
        panic!(rt; "no reply to {command:x}")
    };
    let octets = spelled(rt, alloc, response);
    same(rt, (command, octets.as_slice()), (command, wanted));
    same(rt, (command, session.state()), (command, before));
}

#[test]
fn octets_of_responses(rt: HostRuntime) {
    for (mode, command, wanted) in RESPONSES {
        want_response(&rt, rt.alloc(), mode, command, wanted);
    }
}

#[test]
fn what_closes_a_session(rt: HostRuntime) {
    let mut session = session_of(&rt, Mode::Transmitter);
    for (command, wanted) in [
        (0x8000_0004, Action::Answer),
        (0x8000_0000, Action::Answer),
        (0x0000_0102, Action::Note),
        (0x8000_0002, Action::Note),
    ] {
        let action = session.on(&header(&rt, command, 0, 9));
        same(&rt, (command, action), (command, wanted));
    }
    let Action::ReplyClose(response) = session.on(&header(&rt, 6, 0, 9)) else {
        panic!(rt; "not closed")
    };
    let octets = spelled(&rt, rt.alloc(), response);
    same(
        &rt,
        octets.as_slice(),
        octets_of(0x8000_0006, 0, 9).as_slice(),
    );
    for command in [4, 5, 6, 0x15, 0x102, 0x103, 0x8000_0004, 0x8000_0006] {
        let action = session.on(&header(&rt, command, 0, 9));
        same(&rt, (command, action), (command, Action::Drop));
    }
    let mut session = session_of(&rt, Mode::Transceiver);
    let action = session.on(&header(&rt, 0x8000_0006, 0, 9));
    same(&rt, action, Action::Close);
    same(&rt, session.state(), State::Closed);
}

// The answer to a submit_sm, or a generic_nack.
fn reply(rt: &impl Abort, command: u32, status: u32) -> Reply {
    let Some(reply) = reply_of(&octets_of(command, status, 2)) else {
        panic!(rt; "no reply")
    };
    reply
}

// What the answer to this attempt decides under base 1,000 ms and 10 attempts.
fn want_decision(rt: &impl Abort, reply: Reply, attempt: u32, wanted: Decision) {
    let Ok(policy) = Policy::new(10, 1000) else {
        panic!(rt; "no policy")
    };
    assert!(rt; 1 <= attempt && attempt <= policy.attempts);
    let decision = decide(&reply, attempt, &policy);
    same(rt, (attempt, decision), (attempt, wanted));
}

#[test]
fn what_answers_decide(rt: HostRuntime) {
    for (attempt, wanted) in [
        (1, Decision::RetryAfter(1_000)),
        (2, Decision::RetryAfter(2_000)),
        (6, Decision::RetryAfter(32_000)),
        (7, Decision::RetryAfter(60_000)),
        (10, Decision::Refuse),
    ] {
        want_decision(&rt, reply(&rt, 0x8000_0004, 0x58), attempt, wanted);
        want_decision(&rt, reply(&rt, 0x8000_0004, 0x14), attempt, wanted);
    }
    for (command, status, wanted) in [
        (0x8000_0004, 0x45, Decision::Refuse),
        (0x8000_0004, 0, Decision::Charge),
        (0x8000_0000, 0, Decision::Refuse),
        (0x8000_0000, 0x58, Decision::Refuse),
    ] {
        want_decision(&rt, reply(&rt, command, status), 1, wanted);
    }
}

#[test]
fn policies_that_are_refused(rt: HostRuntime) {
    for (attempts, base_ms) in [(0, 1), (11, 1), (1, 60_001)] {
        let made = Policy::new(attempts, base_ms);
        same(
            &rt,
            (attempts, made),
            (attempts, Err(PolicyError::BadPolicy)),
        );
    }
}
