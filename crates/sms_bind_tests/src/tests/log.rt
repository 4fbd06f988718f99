//! The log of a run's wires.

ghost use Rattle.std.specs.Prelude.{◌≡◌, ◌++◌, ◌∷◌, [], IfOk, IfSome, None};
ghost use Rattle.sms_bind.specs.Frames.{IsRequest, AreSame, requests as requests_in};

use super::{Sink, blank_log, frame, same, wire_to};
use sms_bind::{BlankLog, LogKeeper, LogName, LoggedWire, Requests, SettledLog};
use sms_pdu::{Frame, SUBMIT_SM};
use std::alloc::Global;
use std::marker::Brand;
use std::process::Abort;
use std::sync::{Mutex, Wait};
use std::test::Fail;
use std::thread;
use std::thread::Threads;

// A submit_sm without a body and with this sequence_number, as a frame.
fn request(rt: &impl Abort, alloc: Global, number: u8) -> Result<Frame, Fail>
    ensures { IfOk result IsRequest }
{
    let made = frame(
        alloc,
        &[0, 0, 0, 16, 0, 0, 0, 4, 0, 0, 0, 0, 0, 0, 0, number],
    )?;
    assert!(rt; made.header().command == SUBMIT_SM);
    Ok(made)
}

// Gives the wire a request, and returns the thread's requests where it was written whole.
fn give<N: LogName, R: Wait>(
    rt: &R,
    wire: &Mutex<LoggedWire<N, Sink>>,
    mut requests: Requests<N>,
    frame: Frame,
) -> Option<Requests<N>>
    requires { IsRequest frame }
    ensures { IfSome result (λ r. r ≡ requests ++ frame ∷ []) }
{
    match wire.lock(rt).request(&mut requests, frame) {
        Ok(_receipt) => Some(requests),
        Err(_fault) => None,
    }
}

// Two threads give a wire a request each. The wire was given those two, and no other request.
fn given_by_two<N: LogName + Send + Sync, R: Threads + Wait + Sync>(
    rt: &R,
    keeper: LogKeeper<N>,
    wire: LoggedWire<N, Sink>,
    a: Requests<N>,
    b: Requests<N>,
    first: Frame,
    second: Frame,
) -> Option<(Sink, SettledLog)>
    requires kept { (keeper.away ≡ 3) × (keeper.given ≡ []) × (keeper.requests ≡ []) }
    requires none { (a ≡ []) × (b ≡ []) }
    requires requests { IsRequest first × IsRequest second }
    ensures { IfSome result (λ r. AreSame (requests_in r.1.given) (first ∷ second ∷ [])) }
{
    let mut keeper = keeper;
    let shared = Mutex::new(wire);
    let (a, b) = thread::join(
        rt,
        || -> Option<Requests<N>>
            requires { IsRequest first }
            ensures { IfSome result (λ r. r ≡ a ++ first ∷ []) }
        { give(rt, &shared, a, first) },
        || -> Option<Requests<N>>
            requires { IsRequest second }
            ensures { IfSome result (λ r. r ≡ b ++ second ∷ []) }
        { give(rt, &shared, b, second) },
    );
    let (Some(a), Some(b)) = (a, b) else {
        return None;
    };
    keeper.take(a);
    keeper.take(b);
    let wire = keeper.take_wire(shared.into_inner());
    Some((wire.into_tap().into_inner(), keeper.settle()))
}

fn two_threads<N: LogName + Send + Sync, R: Abort + Threads + Wait + Sync>(
    rt: &R,
    alloc: Global,
    log: BlankLog,
) -> Result<(), Fail>
    requires { (log ≡ N.log) × (N.settings ≡ None) }
{
    let Ok(mut keeper) = log.open::<N>(alloc) else {
        panic!(rt; "no keeper")
    };
    let Ok(wire) = keeper.wire(wire_to(1000, Vec::new(alloc))) else {
        panic!(rt; "no log of a wire")
    };
    let a = keeper.thread();
    let b = keeper.thread();
    let first = request(rt, alloc, 1)?;
    let second = request(rt, alloc, 2)?;
    let Some((sink, _log)) = given_by_two(rt, keeper, wire, a, b, first, second) else {
        panic!(rt; "not written")
    };
    same(rt, sink.octets.len(), 32);
    Ok(())
}

#[test]
fn requests_of_two_threads(rt: HostRuntime) -> Result<(), Fail> {
    let alloc = rt.alloc();
    two_threads::<Brand, _>(&rt, alloc, blank_log(&rt, alloc))
}
