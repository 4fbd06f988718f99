//! Whole sendings, and each refusal before one.

use super::same::same;
use super::sending::{Case, Done, sent};
use sms_book::Statement;
use sms_centre::ServeCause;
use sms_driver::{
    BindClosing, BindEnd, BindFailure, Command, SendFault, Sending, StartPhase, UnbindResult,
};
use sms_worker::{MessageEnd, MessageResult, Outcome};
use std::process::Abort;
use std::test::Fail;

pub(super) const GOOD: &str = "answers = [\"status 0\"]";

// No script, so the centre hangs up.
const HANGS_UP: &str = "hangs up";

const REFUSES: &str = "bind_status = 14\nanswers = [\"status 0\"]";

// That no worker found a bind closed.
const OPEN: BindClosing = BindClosing {
    down: None,
    turns_over: false,
    stopped: false,
};

// That a bind had so many workers, was open to them, and was unbound.
pub(super) fn want_unbound(rt: &impl Abort, bind: &BindEnd, workers: usize) {
    same(rt, bind.workers(), workers);
    same(rt, bind.closing(), OPEN);
    match bind.unbind_result() {
        UnbindResult::Sent(_) => {}
        UnbindResult::Idle | UnbindResult::Failed(_) | UnbindResult::Skipped(_) => {
            panic!(rt; "not unbound")
        }
    }
}

// That the message of this place was charged.
fn want_charged(rt: &impl Abort, end: &MessageEnd, place: usize) {
    same(rt, end.index, place as u64);
    match &end.result {
        MessageResult::Sent(segments) => match segments.as_slice().first() {
            Some(segment) => same(rt, segment.outcome, Outcome::Charged),
            None => panic!(rt; "no segment"),
        },
        MessageResult::Refused(_) => panic!(rt; "refused"),
    }
}

// That the one account had 20 credits, of which 9 were charged.
fn want_9_charged(rt: &impl Abort, statement: &Statement) {
    let Some(row) = statement.rows().first() else {
        panic!(rt; "no row")
    };
    same(rt, (row.topped, row.free, row.reserved), (20, 11, 0));
    same(rt, (row.charged, row.returned), (9, 0));
}

// That all nine messages were charged over two binds.
pub(super) fn want_all_charged(rt: &impl Abort, sending: &Sending) {
    same(rt, sending.ends.len(), 9);
    for place in 0..sending.ends.len() {
        want_charged(rt, &sending.ends[place], place);
    }
    want_9_charged(rt, &sending.statement);
    assert!(rt; sending.binds.len() == 2);
    for bind in &sending.binds {
        want_unbound(rt, bind, 2);
    }
}

#[test]
fn two_binds_of_two_workers(rt: HostRuntime) -> Result<(), Fail> {
    let case = Case {
        count: 9,
        credits: 20,
        scripts: [GOOD, GOOD],
        most: 2,
    };
    let Done {
        first,
        second,
        ended,
        begun,
    } = sent(&rt, rt.alloc(), case)?;
    same(&rt, begun, StartPhase::Released(Command::Go));
    match ended {
        Ok(sending) => want_all_charged(&rt, &sending),
        Err(fault) => return Err(Fail::new(fault)),
    }
    // messages 0, 1, 4, 5 and 8 went over the first bind
    same(&rt, (first.submits, second.submits), (5, 4));
    same(
        &rt,
        (first.cause, second.cause),
        (ServeCause::Unbound, ServeCause::Unbound),
    );
    Ok(())
}

// Two binds of which one fails: which script each centre has, how many connections there are, what is
// told, and why each centre ends.
#[derive(Clone, Copy)]
struct Refusal<'a> {
    scripts: [&'a str; 2],
    most: usize,
    fault: SendFault,
    causes: (ServeCause, ServeCause),
}

const REFUSALS: [Refusal<'static>; 5] = [
    Refusal {
        scripts: [REFUSES, GOOD],
        most: 2,
        fault: SendFault::BindRefused(0, 14),
        causes: (ServeCause::Ended, ServeCause::Ended),
    },
    Refusal {
        scripts: [GOOD, REFUSES],
        most: 2,
        fault: SendFault::BindRefused(1, 14),
        causes: (ServeCause::Unbound, ServeCause::Ended),
    },
    Refusal {
        scripts: [GOOD, HANGS_UP],
        most: 2,
        fault: SendFault::BindFailed(1, BindFailure::Closed),
        causes: (ServeCause::Unbound, ServeCause::OutOfMemory),
    },
    Refusal {
        scripts: [GOOD, GOOD],
        most: 0,
        fault: SendFault::BindFailed(0, BindFailure::NoConnection),
        causes: (ServeCause::Ended, ServeCause::Ended),
    },
    Refusal {
        scripts: [GOOD, GOOD],
        most: 1,
        fault: SendFault::BindFailed(1, BindFailure::NoConnection),
        causes: (ServeCause::Unbound, ServeCause::Ended),
    },
];

// That the sending failed with this fault.
fn want_fault(rt: &impl Abort, ended: &Result<Sending, SendFault>, fault: SendFault) {
    match ended {
        Ok(_ended) => panic!(rt; "no fault"),
        Err(told) => same(rt, *told, fault),
    }
}

// That nothing was sent, and that the centres ended for these causes.
pub(super) fn want_none_sent(rt: &impl Abort, done: &Done, causes: (ServeCause, ServeCause)) {
    same(rt, (done.first.submits, done.second.submits), (0, 0));
    same(rt, (done.first.cause, done.second.cause), causes);
}

// Nothing is sent where a bind fails, and those made before it are unbound.
#[test]
fn a_bind_is_refused(rt: HostRuntime) -> Result<(), Fail> {
    for refusal in &REFUSALS {
        let case = Case {
            count: 3,
            credits: 3,
            scripts: refusal.scripts,
            most: refusal.most,
        };
        let done = sent(&rt, rt.alloc(), case)?;
        want_fault(&rt, &done.ended, refusal.fault);
        same(&rt, done.begun, StartPhase::Idle);
        want_none_sent(&rt, &done, refusal.causes);
    }
    Ok(())
}
