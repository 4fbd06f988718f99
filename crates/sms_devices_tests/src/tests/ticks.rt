//! What the clock of a run shows, by a system's clock that is set by hand.

use super::loopback::no_journal;
use super::paper::{SetClock, Still};
use super::same::same;
use sms_devices::Outboxes;
use sms_worker::Clock;
use std::sync::atomic::{AtomicU64, Ordering};

/// Time passes in a process that runs. More than a second between two readings is a stop: it doesn't count, nor
/// do the 300 ms after it.
#[test]
fn stands_still_over_a_stop(rt: HostRuntime) {
    let system = SetClock {
        rt: &rt,
        ms: AtomicU64::new(50_000),
    };
    let outboxes = Outboxes::new(&system, no_journal(), 1);
    let clock = outboxes.start_clock();
    let steps: [(u64, u64); 12] = [
        (50_000, 0),
        (50_400, 400),
        (51_400, 1_400),
        (51_400, 1_400),
        (52_401, 1_400),
        (52_700, 1_400),
        (52_701, 1_400),
        (52_801, 1_500),
        (90_000, 1_500),
        (89_000, 1_500),
        (90_300, 1_500),
        (91_000, 2_200),
    ];
    for (ms, wanted) in steps {
        system.ms.store(ms, Ordering::SeqCst);
        same(&rt, clock.now_ms(), wanted);
    }
    system.ms.store(99_000, Ordering::SeqCst);
    same(&rt, outboxes.start_clock().now_ms(), 10_200);
}

/// No time passes if the system's clock can't be read.
#[test]
fn stands_without_a_clock(rt: HostRuntime) {
    let still = Still {
        rt: &rt,
        can_be_read: false,
    };
    let outboxes = Outboxes::new(&still, no_journal(), 1);
    same(&rt, outboxes.start_clock().now_ms(), 0);
}
