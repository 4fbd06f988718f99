//! A sending of which not everything can start. `tools/refuse-threads` runs what begins with
//! `threads_` with each thread refused in turn, `tools/refuse-memory` what begins with `memory_` with
//! each allocation refused in turn.

use super::driving::{GOOD, want_all_charged, want_none_sent};
use super::same::same;
use super::sending::{Case, Done, sent};
use sms_centre::ServeCause;
use sms_driver::{Command, SendFault, StartPhase};
use std::process::Abort;
use std::test::Fail;

fn nine() -> Case<'static> {
    Case {
        count: 9,
        credits: 20,
        scripts: [GOOD, GOOD],
        most: 2,
    }
}

// All was sent, or nothing, and each bind was unbound.
fn want_all_or_none(rt: &impl Abort, done: &Done) {
    match &done.ended {
        Ok(sending) => want_all_charged(rt, sending),
        Err(fault) => {
            same(rt, *fault, SendFault::ThreadRefused);
            same(rt, done.begun, StartPhase::Released(Command::Leave));
            want_none_sent(rt, done, (ServeCause::Unbound, ServeCause::Unbound));
        }
    }
}

#[test]
fn threads_all_start_or_nothing_is_sent(rt: HostRuntime) -> Result<(), Fail> {
    let done = sent(&rt, rt.alloc(), nine())?;
    want_all_or_none(&rt, &done);
    Ok(())
}

// No fault comes after a message.
fn want_none_before(rt: &impl Abort, done: &Done) {
    match &done.ended {
        Ok(_) => same(rt, done.begun, StartPhase::Released(Command::Go)),
        Err(_) => same(rt, (done.first.submits, done.second.submits), (0, 0)),
    }
}

#[test]
fn memory_is_taken_before_a_message(rt: HostRuntime) {
    if let Ok(done) = sent(&rt, rt.alloc(), nine()) {
        want_none_before(&rt, &done);
    }
}
