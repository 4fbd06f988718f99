//! The words that ask for fields, and what is written of a faulty one.

use super::report::want;
use super::same::same;
use super::words::words_of;
use sms_files::ConfigValue;
use sms_send::{Fault, Job, job_of};
use std::process::Abort;
use std::test::Fail;

/// Words behind `--config c.toml --journal j`, and the file of the fields that they ask for; nothing where they are refused.
const FIELDED: [(&str, Option<&str>); 5] = [
    ("", Some("")),
    ("--fields f.toml", Some("f.toml")),
    ("--fields=- --quiet", Some("-")),
    ("--fields", None),
    ("--fields f --fields g", None),
];

// The file of the fields that a job asks for.
fn fields_in<'a>(rt: &impl Abort, job: &'a Job) -> &'a str {
    let fields = match job {
        Job::Loop(order) | Job::Send(order) | Job::SendOn(_, _, order) => &order.fields,
        Job::Resume(order) | Job::ResumeOn(_, order) => &order.fields,
        _ => panic!(rt; "another job"),
    };
    match fields {
        Some(name) => name.as_str(),
        None => "",
    }
}

// That this is read of the words.
fn want_fields(rt: &impl Abort, read: Result<Job, Fault>, wanted: Option<&str>) {
    match (read, wanted) {
        (Ok(job), Some(wanted)) => same(rt, fields_in(rt, &job), wanted),
        (Err(fault), None) => same(rt, fault.exit_status(), 2),
        _ => panic!(rt; "read otherwise"),
    }
}

#[test]
fn reads_the_name_of_fields(rt: HostRuntime) {
    for (line, wanted) in &FIELDED {
        for name in [
            "loop",
            "send",
            "resume",
            "loop --ledger l",
            "send --ledger l",
            "resume --ledger l",
        ] {
            let Ok(whole) = format!(in rt.alloc(); "{name} --config c.toml --journal j {line}")
            else {
                panic!(rt; "no memory")
            };
            let words = words_of(&rt, whole.as_str());
            want_fields(&rt, job_of(rt.alloc(), words.as_slice()), *wanted);
        }
    }
}

#[test]
fn says_what_fields_may_hold(rt: HostRuntime) -> Result<(), Fail> {
    for (key, wanted) in [
        (
            "priority",
            "fault: fields priority\n  priority should be 0 to 3\n",
        ),
        (
            "validty",
            "fault: fields validty\n  there is no such key: is it validity?\n",
        ),
        ("port", "fault: fields port\n  there is no such key\n"),
    ] {
        let key = String::from_str(rt.alloc(), key)?;
        want(&rt, &Fault::BadField(key, ConfigValue::Missing), wanted)?;
    }
    Ok(())
}
