//! Runs that go on by their journals, and journals with which none does. What is sent and printed is worked out by hand.

use super::near_centre::{
    ANSWERS_ALL, ANSWERS_ONE, Done, Names, NearCentre, done_by, recover_job, remove_files,
    resume_job, send_job, text_in, want_fault, want_report, write_file,
};
use super::same::same;
use sms_devices::{Host, JournalFiles, LedgerFiles};
use sms_send::{Again, FileModes, FullNames, InputFiles};
use std::process::Abort;
use std::rt::Files;
use std::test::Fail;
use std::{fs, thread};

const NAMES: Names = Names {
    config: "resume.toml",
    accounts: "resume-accounts.csv",
    messages: "resume-messages.csv",
    journal: "resume-journal.csv",
};

/// The sign that would stop the run.
const SIGN: &str = "resume-journal.csv.stop";

/// What a report has of the messages and of the accounts, and the exit status.
type Told = (&'static str, &'static str, u8);

/// Killed while it waited for the answer to its second request: the third, the fourth and the sixth message go out.
const TWO_SENT: Told = (
    "0,1,1,charged,0,m1\n1,1,1,unanswered,,\n2,1,1,charged,0,m1\n3,1,1,charged,0,m2\n4,0,0,no-credit,,\n5,1,1,charged,0,m3\n",
    "main,6,1,1,4,0\nempty,0,0,0,0,0\n",
    4,
);

/// The same in its second round: the sixth message alone goes out.
const FOUR_SENT: Told = (
    "0,1,1,charged,0,m1\n1,1,1,unanswered,,\n2,1,1,charged,0,m1\n3,1,1,unanswered,,\n4,0,0,no-credit,,\n5,1,1,charged,0,m1\n",
    "main,6,1,2,3,0\nempty,0,0,0,0,0\n",
    4,
);

/// Begun anew.
const NONE_SENT: Told = (
    "0,1,1,charged,0,m1\n1,1,1,charged,0,m2\n2,1,1,charged,0,m3\n3,1,1,charged,0,m4\n4,0,0,no-credit,,\n5,1,1,charged,0,m5\n",
    "main,6,1,0,5,0\nempty,0,0,0,0,0\n",
    0,
);

/// What a journal has behind its head; how many requests go out once its run goes on; and the report then.
const RESUMED: [(&str, u64, Told); 7] = [
    ("", 5, NONE_SENT),
    (
        "begun,1,0\nsent,1,0,2,0,1\nheard,1,0,2,0,0,m1\nbegun,1,1\nsent,1,0,3,1,1\n",
        3,
        TWO_SENT,
    ),
    // A last line that was truncated counts for nothing.
    (
        "begun,1,0\nsent,1,0,2,0,1\nheard,1,0,2,0,0,m1\nbegun,1,1\nsent,1,0,3,1,1\nheard,1,0,3,0,0,m2",
        3,
        TWO_SENT,
    ),
    // A message that was begun is not sent any more, also where it had no request.
    (
        "begun,1,0\n",
        4,
        (
            "0,1,0,unsent,,\n1,1,1,charged,0,m1\n2,1,1,charged,0,m2\n3,1,1,charged,0,m3\n4,0,0,no-credit,,\n5,1,1,charged,0,m4\n",
            "main,6,2,0,4,1\nempty,0,0,0,0,0\n",
            0,
        ),
    ),
    // Killed before its second round sent anything; and its second round had no bind.
    (
        "begun,1,0\nsent,1,0,2,0,1\nheard,1,0,2,0,0,m1\nbegun,1,1\nsent,1,0,3,1,1\nround,1,2,1,1\n",
        3,
        TWO_SENT,
    ),
    (
        "begun,1,0\nsent,1,0,2,0,1\nheard,1,0,2,0,0,m1\nbegun,1,1\nsent,1,0,3,1,1\nround,1,2,1,1\nend,1,4\n",
        3,
        TWO_SENT,
    ),
    // A further round uses the sequence_numbers of the first again.
    (
        "begun,1,0\nsent,1,0,2,0,1\nheard,1,0,2,0,0,m1\nbegun,1,1\nsent,1,0,3,1,1\nround,1,2,1,1\nbegun,1,2\nsent,1,0,2,2,1\nheard,1,0,2,0,0,m1\nbegun,1,3\nsent,1,0,3,3,1\n",
        1,
        FOUR_SENT,
    ),
];

/// What a journal has behind its head, and the fault: no run goes on with it.
const REFUSED: [(&str, &str); 7] = [
    ("begun,1,0\nbegun,1,0\n", "fault: journal record 3"),
    (
        "begun,1,0\nround,1,2,1,1\nbegun,1,0\n",
        "fault: journal record 4",
    ),
    // An answer to a request of the round before.
    (
        "begun,1,0\nsent,1,0,2,0,1\nround,1,2,1,1\nheard,1,0,2,0,0,m1\n",
        "fault: journal record 5",
    ),
    ("round,1,3,1,1\n", "fault: journal record 2"),
    ("round,1,2,5,1\n", "fault: journal record 2"),
    ("round,1,2,1,9\n", "fault: journal record 2"),
    ("none\n", "fault: journal record 2"),
];

// The first line of the run's journal, which a run has whose bind is refused.
fn first_line<R: FileModes + FullNames + Host + InputFiles + LedgerFiles + Files + Abort>(
    rt: &R,
    centre: &NearCentre,
) -> Result<String, Fail> {
    let alloc = rt.alloc();
    let job = send_job(alloc, &NAMES, None)?;
    let refuses = "bind_status = 14\nanswers = ['status 0']\n";
    let (submits, done) = thread::join(
        rt,
        || centre.serve_all(alloc, 1, refuses),
        || done_by(rt, job),
    );
    same(rt, submits, 0);
    want_fault(rt, done, "fault: bind 0 refused 14")?;
    Ok(text_in(rt, NAMES.journal))
}

// Goes on with the run, while the centre serves so many connections by this script. How many requests came.
fn resumed_over<R: FileModes + FullNames + Host + InputFiles + LedgerFiles + Abort>(
    rt: &R,
    centre: &NearCentre,
    again: Option<Again>,
    (connections, script): (u32, &str),
) -> Result<(u64, Done), Fail> {
    let alloc = rt.alloc();
    let job = resume_job(alloc, &NAMES, again)?;
    Ok(thread::join(
        rt,
        || centre.serve_all(alloc, connections, script),
        || done_by(rt, job),
    ))
}

// That nothing is left: the report is this one, by `recover` as by `resume`, which connects to nothing and writes nothing.
fn want_over<R: FileModes + FullNames + Host + InputFiles + LedgerFiles + Files + Abort>(
    rt: &R,
    printed: &[u8],
) -> Result<(), Fail> {
    let journal = text_in(rt, NAMES.journal);
    let recovered = done_by(rt, recover_job(rt.alloc(), &NAMES)?);
    assert!(rt; recovered.ended.is_ok());
    same(rt, recovered.printed.as_slice(), printed);
    let resumed = done_by(rt, resume_job(rt.alloc(), &NAMES, None)?);
    assert!(rt; resumed.ended.is_ok());
    same(rt, resumed.printed.as_slice(), printed);
    same(rt, text_in(rt, NAMES.journal).as_str(), journal.as_str());
    Ok(())
}

// The whole lines of a text.
fn lines_of(text: &str) -> &str {
    match text.rfind('\n') {
        Some(last) => text.get(..=last).unwrap_or(""),
        None => "",
    }
}

// That the run of this journal goes on with so many requests, to this report, and notes the round behind these lines. A stop
// sign from before stops nothing, and is removed.
fn want_resumed<R: FileModes + FullNames + Host + InputFiles + LedgerFiles + Files + Abort>(
    rt: &R,
    centre: &NearCentre,
    (text, lines): (&str, &str),
    (wanted, told): (u64, Told),
) -> Result<(), Fail> {
    write_file(rt, NAMES.journal, text);
    write_file(rt, SIGN, "");
    let (submits, done) = resumed_over(rt, centre, None, (1, ANSWERS_ALL))?;
    same(rt, submits, wanted);
    want_report(rt, &done, told)?;
    assert!(rt; fs::remove_file(rt, SIGN).is_err());
    let behind = format!(in rt.alloc(); "{lines}round,")?;
    assert!(rt; text_in(rt, NAMES.journal).starts_with(behind.as_str()));
    want_over(rt, done.printed.as_slice())
}

/// What a journal's run left is sent, and nothing twice. The journal goes on behind its last whole line.
#[test]
fn goes_on_by_a_journal(rt: HostRuntime) -> Result<(), Fail> {
    let centre = NearCentre::new(&rt);
    centre.write_files(&rt, &NAMES, 1)?;
    let head = first_line(&rt, &centre)?;
    for (notes, wanted, told) in RESUMED {
        let text = format!(in rt.alloc(); "{}{notes}", head.as_str())?;
        let (text, lines) = (text.as_str(), lines_of(text.as_str()));
        want_resumed(&rt, &centre, (text, lines), (wanted, told))?;
    }
    remove_files(&rt, &NAMES);
    Ok(())
}

/// The octets of a first line that has the config's digest, up to the one behind that.
const CONFIG_TIE: usize = 75;

/// A journal that was truncated within its first line gets one anew, which has the config's keys and no digest of it.
#[test]
fn begins_a_truncated_journal_anew(rt: HostRuntime) -> Result<(), Fail> {
    let centre = NearCentre::new(&rt);
    centre.write_files(&rt, &NAMES, 1)?;
    let head = first_line(&rt, &centre)?;
    let others = head.as_str().get(CONFIG_TIE..).unwrap_or("");
    let keyed = format!(in rt.alloc(); "journal,2,3,0,1,1,{others}")?;
    want_resumed(&rt, &centre, ("", keyed.as_str()), (5, NONE_SENT))?;
    let cut = head.as_str().get(..40).unwrap_or("");
    want_resumed(&rt, &centre, (cut, keyed.as_str()), (5, NONE_SENT))?;
    let cut = head.as_str().trim_end();
    want_resumed(&rt, &centre, (cut, keyed.as_str()), (5, NONE_SENT))?;
    remove_files(&rt, &NAMES);
    Ok(())
}

// That the run doesn't go on, for this fault: nothing is printed, and the journal is as it was.
fn want_refused<R: FileModes + FullNames + Host + InputFiles + LedgerFiles + Files + Abort>(
    rt: &R,
    wanted: &str,
) -> Result<(), Fail> {
    let journal = text_in(rt, NAMES.journal);
    want_fault(
        rt,
        done_by(rt, resume_job(rt.alloc(), &NAMES, None)?),
        wanted,
    )?;
    same(rt, text_in(rt, NAMES.journal).as_str(), journal.as_str());
    Ok(())
}

// That the run of this head doesn't go on while a process holds the journal, of a trial, with another file, or without a
// journal.
fn want_all_refused<R: FileModes + FullNames + Host + InputFiles + LedgerFiles + Files + Abort>(
    rt: &R,
    head: &str,
) -> Result<(), Fail> {
    let alloc = rt.alloc();
    let Ok(file) = rt.open_journal(NAMES.journal) else {
        return Err("no journal".into());
    };
    want_refused(rt, "fault: journal")?;
    drop(file);
    let trial = format!(in alloc; "trial{}", head.strip_prefix("journal").unwrap_or(""))?;
    write_file(rt, NAMES.journal, trial.as_str());
    want_refused(
        rt,
        "fault: journal of a trial: no message centre saw any of it",
    )?;
    write_file(rt, NAMES.journal, "none\n");
    want_refused(rt, "fault: journal record 1")?;
    write_file(rt, NAMES.journal, head);
    write_file(rt, NAMES.accounts, "account,credits\nmain,7\nempty,0\n");
    want_refused(rt, "fault: journal record 1")?;
    assert!(rt; fs::remove_file(rt, NAMES.journal).is_ok());
    let done = done_by(rt, resume_job(alloc, &NAMES, None)?);
    want_fault(rt, done, "fault: file resume-journal.csv")
}

/// Nothing is sent and no file is changed where the journal is none of a run of these files, or its run is still going on.
#[test]
fn goes_on_with_no_other_run(rt: HostRuntime) -> Result<(), Fail> {
    let alloc = rt.alloc();
    let centre = NearCentre::new(&rt);
    centre.write_files(&rt, &NAMES, 1)?;
    let head = first_line(&rt, &centre)?;
    for (notes, wanted) in REFUSED {
        let text = format!(in alloc; "{}{notes}", head.as_str())?;
        write_file(&rt, NAMES.journal, text.as_str());
        want_refused(&rt, wanted)?;
    }
    want_all_refused(&rt, head.as_str())?;
    write_file(&rt, NAMES.journal, "");
    remove_files(&rt, &NAMES);
    Ok(())
}

/// A centre that answers one request a connection: one round after another, as many as there may be. Where nothing is left
/// none follows.
#[test]
fn goes_on_again_and_again(rt: HostRuntime) -> Result<(), Fail> {
    let centre = NearCentre::new(&rt);
    centre.write_files(&rt, &NAMES, 1)?;
    drop(first_line(&rt, &centre)?);
    let again = Some(Again {
        most: 1,
        wait_ms: 1,
    });
    let (submits, done) = resumed_over(&rt, &centre, again, (2, ANSWERS_ONE))?;
    same(&rt, submits, 4);
    want_report(
        &rt,
        &done,
        (
            "0,1,1,charged,0,m1\n1,1,1,unanswered,,\n2,1,1,charged,0,m1\n3,1,1,unanswered,,\n4,0,0,bind-closed,,\n5,0,0,bind-closed,,\n",
            "main,6,2,2,2,0\nempty,0,0,0,0,0\n",
            4,
        ),
    )?;
    let again = Some(Again {
        most: 5,
        wait_ms: 1,
    });
    let (submits, done) = resumed_over(&rt, &centre, again, (1, ANSWERS_ONE))?;
    same(&rt, submits, 1);
    want_report(&rt, &done, FOUR_SENT)?;
    want_over(&rt, done.printed.as_slice())?;
    remove_files(&rt, &NAMES);
    Ok(())
}

// How many lines of a text begin and end so.
fn count_of(text: &str, begins: &str, ends: &str) -> u64 {
    let mut count = 0u64;
    for line in text.split_inclusive('\n') {
        if line.starts_with(begins) && line.ends_with(ends) {
            count = count.saturating_add(1);
        }
    }
    count
}

/// A run of three rounds, killed behind each note of its journal: the messages that were not begun are sent once.
#[test]
fn goes_on_after_each_note(rt: HostRuntime) -> Result<(), Fail> {
    let alloc = rt.alloc();
    let centre = NearCentre::new(&rt);
    centre.write_files(&rt, &NAMES, 1)?;
    drop(first_line(&rt, &centre)?);
    let again = Some(Again {
        most: 5,
        wait_ms: 1,
    });
    let (submits, done) = resumed_over(&rt, &centre, again, (3, ANSWERS_ONE))?;
    same(&rt, submits, 5);
    want_report(&rt, &done, FOUR_SENT)?;
    let journal = text_in(&rt, NAMES.journal);
    let mut kept = String::new(alloc);
    for line in journal.split_inclusive('\n') {
        kept.push_str(line)?;
        write_file(&rt, NAMES.journal, kept.as_str());
        let left = 5u64.saturating_sub(count_of(kept.as_str(), "begun,", "\n"));
        let is_refused = count_of(kept.as_str(), "refused,", ",no-credit\n") > 0;
        let connections = if left == 0 && is_refused { 0 } else { 1 };
        let (submits, done) = resumed_over(&rt, &centre, None, (connections, ANSWERS_ALL))?;
        same(&rt, submits, left);
        assert!(&rt; done.ended.is_ok());
        want_over(&rt, done.printed.as_slice())?;
    }
    remove_files(&rt, &NAMES);
    Ok(())
}

/// A round is noted with its number, its binds and the workers of each, by whomever it is begun.
#[test]
fn notes_what_a_round_has(rt: HostRuntime) -> Result<(), Fail> {
    let centre = NearCentre::new(&rt);
    centre.write_files(&rt, &NAMES, 2)?;
    drop(first_line(&rt, &centre)?);
    let again = Some(Again {
        most: 1,
        wait_ms: 1,
    });
    let (_submits, done) = resumed_over(&rt, &centre, again, (2, ANSWERS_ONE))?;
    assert!(&rt; done.ended.is_ok());
    let journal = text_in(&rt, NAMES.journal);
    same(&rt, count_of(journal.as_str(), "round,", ",2,1,2\n"), 1);
    same(&rt, count_of(journal.as_str(), "round,", ",3,1,2\n"), 1);
    remove_files(&rt, &NAMES);
    Ok(())
}
