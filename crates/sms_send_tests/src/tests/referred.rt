//! Runs whose messages have references: what is printed of them is what is printed of the messages without these.

use super::near_centre::{
    MESSAGES, Names, NearCentre, done_by, remove_files, want_fault, write_file,
};
use super::same::same;
use sms_devices::{Host, LedgerFiles};
use sms_send::{
    AuditArgs, FileModes, FullNames, InputFiles, Job, JournalFile, LineArgs, RestArgs, SendArgs,
    Throttle,
};
use std::alloc::{AllocError, Global};
use std::fs;
use std::process::Abort;
use std::rt::Files;
use std::test::Fail;

const NAMES: Names = Names {
    config: "referred.toml",
    accounts: "referred-accounts.csv",
    messages: "referred-messages.csv",
    journal: "referred-journal.csv",
};

/// The report of the run.
const REPORT: &str = "referred-report.csv";

/// The messages with their references, quoted where they needn't be.
fn with_refs(alloc: Global) -> Result<String, AllocError> {
    let (mut text, mut place) = (String::new(alloc), 0u64);
    for line in MESSAGES.lines() {
        text.push_str(line)?;
        if place == 0 {
            text.push_str(",\"ref\"\r\n")?;
        } else {
            text.push_str(format!(in alloc; ",\"R,{place}\"\r\n")?.as_str())?;
        }
        place = place.wrapping_add(1);
    }
    Ok(text)
}

/// What bounds nothing.
const UNBOUND: Throttle = Throttle {
    connect_ms: None,
    rate: None,
    stop_after: None,
};

/// The job of this word over the run.
fn job_of(alloc: Global, word: &str, refs: bool) -> Result<Job, AllocError> {
    let config = String::from_str(alloc, NAMES.config)?;
    let report = String::from_str(alloc, REPORT)?;
    let journal = String::from_str(alloc, NAMES.journal)?;
    let messages = String::from_str(alloc, NAMES.messages)?;
    Ok(match word {
        "plan" => Job::Plan(messages, false, refs),
        "quote" => Job::Quote(config, false, refs),
        "rest" => Job::Rest(RestArgs {
            config,
            report,
            accounts: false,
            refs,
        }),
        "audit" => Job::Audit(AuditArgs {
            config,
            report,
            refs,
        }),
        _ => Job::Loop(SendArgs {
            config,
            fields: None,
            quiet: true,
            verbose: false,
            journal: Some(JournalFile {
                name: journal,
                sync: false,
            }),
            throttle: UNBOUND,
            again: None,
            lines: LineArgs::none(),
            strict: true,
            refs,
        }),
    })
}

/// What the job of this word prints.
fn printed<R: FileModes + FullNames + Host + InputFiles + LedgerFiles + Abort>(
    rt: &R,
    word: &str,
    refs: bool,
) -> Result<Vec<u8>, Fail> {
    let done = done_by(rt, job_of(rt.alloc(), word, refs)?);
    assert!(rt; done.ended.is_ok());
    Ok(done.printed)
}

/// What is printed of the run: its report, which is kept, and what is printed by it.
fn all_printed<R: FileModes + FullNames + Host + InputFiles + LedgerFiles + Files + Abort>(
    rt: &R,
    refs: bool,
) -> Result<Vec<u8>, Fail> {
    let report = printed(rt, "loop", refs)?;
    assert!(rt; fs::write(rt, REPORT, report.as_slice()).is_ok());
    let mut all = report;
    for word in ["plan", "quote", "audit"] {
        all.extend_from_slice(printed(rt, word, refs)?.as_slice())?;
    }
    Ok(all)
}

/// What the run left, with its reference.
const LEFT: &str = "account,source,destination,text,ref\nempty,12345,+447700900104,e,\"R,5\"\n";

/// Each word prints of messages with references what it prints of them without, but that what is left has them again.
#[test]
fn prints_the_same_without_references(rt: HostRuntime) -> Result<(), Fail> {
    let alloc = rt.alloc();
    let centre = NearCentre::new(&rt);
    centre.write_files(&rt, &NAMES, 1)?;
    drop(centre);
    let plain = all_printed(&rt, false)?;
    assert!(&rt; fs::remove_file(&rt, NAMES.journal).is_ok());
    write_file(&rt, NAMES.messages, with_refs(alloc)?.as_str());
    let referred = all_printed(&rt, true)?;
    same(&rt, referred.as_slice(), plain.as_slice());
    same(&rt, printed(&rt, "rest", true)?.as_slice(), LEFT.as_bytes());
    assert!(&rt; fs::remove_file(&rt, REPORT).is_ok());
    remove_files(&rt, &NAMES);
    Ok(())
}

/// Messages, and the fault of each word that reads them with references.
const FAULTY: [(&str, &str); 4] = [
    (
        "account,source,destination,text\nm,1,2,hi\n",
        "fault: messages record 1",
    ),
    (
        "account,source,destination,text,ref\nm,1,2,hi,R\nm,1,2,hi\n",
        "fault: messages record 3",
    ),
    (
        "account,source,destination,text,ref\nm,1,2,hi,R\nm,1,2,hi, you,R\n",
        "fault: messages record 3",
    ),
    (
        "account,source,destination,text,ref\nm,1,2,hi,\"R\nm,1,2,hi,R\n",
        "fault: messages record 2",
    ),
];

#[test]
fn tells_the_record_without_its_reference(rt: HostRuntime) -> Result<(), Fail> {
    let alloc = rt.alloc();
    let centre = NearCentre::new(&rt);
    centre.write_files(&rt, &NAMES, 1)?;
    drop(centre);
    for (messages, wanted) in FAULTY {
        write_file(&rt, NAMES.messages, messages);
        for word in ["plan", "quote", "loop"] {
            want_fault(&rt, done_by(&rt, job_of(alloc, word, true)?), wanted)?;
        }
    }
    // Without the word the column is one too many.
    write_file(&rt, NAMES.messages, with_refs(alloc)?.as_str());
    for word in ["plan", "quote", "loop"] {
        let done = done_by(&rt, job_of(alloc, word, false)?);
        want_fault(&rt, done, "fault: messages record 1")?;
    }
    for name in [NAMES.config, NAMES.accounts, NAMES.messages] {
        assert!(&rt; fs::remove_file(&rt, name).is_ok());
    }
    Ok(())
}
