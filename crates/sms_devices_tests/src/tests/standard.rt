//! What takes the place of standard input, output and error.

use sms_devices::stand_ins;
use std::process::Abort;

/// Nothing is opened in their place if none of them is closed. The cases of the program show what is if one is.
#[test]
fn stands_in_for_nothing_that_is_open(rt: HostRuntime) {
    for held in stand_ins(&rt) {
        assert!(rt; held.is_none());
    }
}
