//! The program `sms-send`: it sends prepaid messages, plans how their texts are coded and cut, says
//! what they would cost, and replays schedules of events on accounts, requests and slots. All of that
//! is in `sms_send`, so that a check of the tests of `sms_send` doesn't prove the program again.

#![tactic(auto)]

use sms_devices::stand_ins;
use sms_send::{FaultContext, StandardError, run, status_after, tell};
use std::io;
use std::process::ExitCode;

fn main(rt: HostRuntime) -> ExitCode {
    // They take the place of closed standard streams until the program ends.
    let _kept = stand_ins(&rt);
    let mut output = io::writer(&rt);
    let mut error = StandardError { rt: &rt };
    let mut context = FaultContext::new();
    let status = match run(&rt, &mut context, &mut output, &mut error) {
        Ok(status) => status,
        Err(fault) => {
            let reported = tell(&rt, &fault, &context, &mut output, &mut error);
            status_after(&reported, &fault)
        }
    };
    ExitCode::from(status)
}
