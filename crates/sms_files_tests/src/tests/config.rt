//! Configs and what they say, and the first faulty key of those that are none.

use super::same::same;
use super::told::told_of;
use sms_files::{Setup, setup_of};
use std::alloc::{AllocError, Global};
use std::process::Abort;
use std::test::Fail;

// What a config says, or the text of its fault.
fn said(alloc: Global, config: &[u8]) -> Result<String, Fail> {
    match setup_of(alloc, config) {
        Ok(setup) => Ok(shown(alloc, &setup)?),
        Err(fault) => told_of(alloc, fault),
    }
}

// The values of a setup, one after another.
fn shown(alloc: Global, setup: &Setup) -> Result<String, AllocError> {
    let mut text = String::new(alloc);
    let files = &setup.files;
    for name in [&files.accounts, &files.messages, &files.tariff, &setup.host] {
        text.push_str(name.as_str())?;
        text.push_str(" ")?;
    }
    let numbers = format!(in alloc; "{} {}", setup.port, setup.bind_status)?;
    text.push_str(numbers.as_str())?;
    for answer in &setup.answers {
        text.push_str("; ")?;
        text.push_str(answer.as_str())?;
    }
    Ok(text)
}

// That this is what is told of the config.
fn want_said(rt: &(impl AllocGlobal + Abort), config: &[u8], wanted: &str) {
    match said(rt.alloc(), config) {
        Ok(told) => same(rt, told.as_str(), wanted),
        Err(_) => panic!(rt; "no memory"),
    }
}

// Good configs, and what each says.
const GOOD: [(&str, &str); 5] = [
    ("", "accounts.csv messages.csv  127.0.0.1 2775 0; status 0"),
    (
        "accounts = \"a\"\nmessages = \"m\"\ntariff = \"t\"\nhost = \"h\"\nport = 65535\nbind_status = 4294967295\nanswers = [\"status 88\", \"late 1 0\", \"cut\"]",
        "a m t h 65535 4294967295; status 88; late 1 0; cut",
    ),
    (
        "system_id = \"fifteen octets.\"\npassword = \"eight oc\"\nsystem_type = \"twelve octet\"\nmode = \"transceiver\"\nport = 1",
        "accounts.csv messages.csv  127.0.0.1 1 0; status 0",
    ),
    (
        "binds = 4\nworkers = 8\nwindow = 64\ndepth = 64\nattempts = 10\nbase_ms = 60000\nanswer_ms = 600000",
        "accounts.csv messages.csv  127.0.0.1 2775 0; status 0",
    ),
    (
        "base_ms = 0\nanswer_ms = 1\nreceipts = true\nlong_reference = true\nfollow = false\nmode = \"transmitter\"\nhost = \"\"",
        "accounts.csv messages.csv   2775 0; status 0",
    ),
];

#[test]
fn reads_what_the_program_needs_of_a_config(rt: HostRuntime) {
    for (config, wanted) in GOOD {
        want_said(&rt, config.as_bytes(), wanted);
    }
}

// Configs, and the fault that each is told.
const FAULTY: [(&str, &str); 34] = [
    ("binds = 0", "config binds"),
    ("binds = 5", "config binds"),
    ("binds = \"1\"", "config binds"),
    ("binds = -1", "config binds"),
    ("host = 1", "config host"),
    ("port = 0", "config port"),
    ("port = 65536", "config port"),
    ("system_id = \"sixteen octets..\"", "config system_id"),
    ("system_id = \"a\\u0000\"", "config system_id"),
    ("password = \"nine octe\"", "config password"),
    ("system_type = \"thirteen oct.\"", "config system_type"),
    ("mode = \"receiver\"", "config mode"),
    ("workers = 9", "config workers"),
    ("window = 65", "config window"),
    ("depth = 0", "config depth"),
    ("attempts = 11", "config attempts"),
    ("base_ms = 60001", "config base_ms"),
    ("answer_ms = 0", "config answer_ms"),
    ("answer_ms = 600001", "config answer_ms"),
    ("receipts = 1", "config receipts"),
    ("long_reference = \"true\"", "config long_reference"),
    ("follow = 0", "config follow"),
    ("accounts = true", "config accounts"),
    ("messages = []", "config messages"),
    ("tariff = 1.5", "config tariff"),
    ("bind_status = 4294967296", "config bind_status"),
    ("answers = []", "config answers"),
    ("answers = [\"status 0\", \"what\"]", "config answers"),
    ("answers = [0]", "config answers"),
    ("answers = \"status 0\"", "config answers"),
    ("colour = 1\nanswers = [\"what\"]\nport = 0", "config port"),
    ("zebra = 1\ncolour = 2", "config colour"),
    ("[host]\nport = 1", "config host"),
    ("binds = ", "config"),
];

#[test]
fn names_the_first_faulty_key(rt: HostRuntime) {
    for (config, wanted) in FAULTY {
        want_said(&rt, config.as_bytes(), wanted);
    }
    want_said(&rt, b"host = \"\xff\"", "config");
}
