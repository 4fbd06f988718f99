//! Runs from files over a message centre of the test's own, at a port of this machine, and what they end with.

use super::same::same;
use super::told::told_of;
use sms_centre::{Script, serve};
use sms_devices::{Connects, Host, LedgerFiles};
use sms_driver::{Start, StartGate};
use sms_pdu::Tap;
use sms_send::{
    Again, Fault, FileModes, FullNames, InputFiles, Job, JobContext, JournalFile, LineArgs,
    RecoverArgs, ResumeArgs, SendArgs, Throttle, do_job,
};
use std::alloc::{AllocError, Global};
use std::fs;
use std::net::TcpListener;
use std::process::Abort;
use std::rt::Files;
use std::test::Fail;

/// The names of a run's files, and of its journal.
#[derive(Clone, Copy)]
pub struct Names {
    pub config: &'static str,
    pub accounts: &'static str,
    pub messages: &'static str,
    pub journal: &'static str,
}

/// The accounts of the runs. The second has nothing.
pub const ACCOUNTS: &str = "account,credits\nmain,6\nempty,0\n";

/// Their messages, each of one part. The fifth is not paid for.
pub const MESSAGES: &str =
    "account,source,destination,text\nmain,12345,+447700900100,a\nmain,12345,+447700900101,b\nmain,12345,+447700900102,c\nmain,12345,+447700900103,d\nempty,12345,+447700900104,e\nmain,12345,+447700900105,f\n";

/// The header of a report, and that of its statement.
pub const REPORT: &str = "message,part,attempts,outcome,status,id\n";

pub const STATEMENT: &str = "account,topped,free,reserved,charged,returned\n";

/// A script that answers each request well.
pub const ANSWERS_ALL: &str = "bind_status = 0\nanswers = ['status 0']\n";

/// A script that answers the first request well, and cuts the answer to the second.
pub const ANSWERS_ONE: &str = "bind_status = 0\nanswers = ['status 0', 'cut']\n";

/// How many turns the centre takes for a connection.
const TURNS: u64 = 10_000;

/// A message centre that listens.
#[derive(Drop)]
pub struct NearCentre {
    listener: TcpListener,
    port: u16,
}

impl NearCentre {
    pub fn new(rt: &(impl Connects + Abort)) -> NearCentre {
        let Some(listener) = rt.listen() else {
            panic!(rt; "no listener")
        };
        match listener.local_addr() {
            Ok(address) => NearCentre {
                listener,
                port: address.port(),
            },
            Err(_) => panic!(rt; "no address"),
        }
    }

    /// Serves so many connections, one after another, each by this script from its beginning. How many requests came.
    pub fn serve_all(&self, alloc: Global, connections: u32, script: &str) -> u64 {
        let mut submits = 0u64;
        for _connection in 0..connections {
            submits = submits.saturating_add(self.serve_next(alloc, script));
        }
        submits
    }

    /// Serves the next connection to its end.
    fn serve_next(&self, alloc: Global, script: &str) -> u64 {
        let Ok(script) = Script::read(alloc, script) else {
            return 0;
        };
        let Ok((stream, _from)) = self.listener.accept() else {
            return 0;
        };
        let Ok(reader) = stream.try_clone() else {
            return 0;
        };
        let mut writer = Tap::new(stream);
        serve(alloc, &mut Tap::new(reader), &mut writer, script, TURNS).submits
    }

    /// Writes the files of a run to this centre: so many workers, with one open request at a time. No journal is there.
    pub fn write_files(
        &self,
        rt: &(impl AllocGlobal + Files + Abort),
        names: &Names,
        workers: u32,
    ) -> Result<(), Fail> {
        let (port, accounts, messages) = (self.port, names.accounts, names.messages);
        let config = format!(in rt.alloc();
            "port = {port}\nworkers = {workers}\nwindow = 1\ndepth = 1\nanswer_ms = 2000\naccounts = \"{accounts}\"\nmessages = \"{messages}\"\n"
        )?;
        write_file(rt, names.config, config.as_str());
        write_file(rt, accounts, ACCOUNTS);
        write_file(rt, messages, MESSAGES);
        let _removed = fs::remove_file(rt, names.journal);
        Ok(())
    }
}

/// Writes a file of this text.
pub fn write_file(rt: &(impl Files + Abort), name: &str, text: &str) {
    assert!(rt; fs::write(rt, name, text).is_ok());
}

/// The text of a file.
pub fn text_in(rt: &(impl AllocGlobal + Files + Abort), name: &str) -> String {
    match fs::read_to_string(rt, name) {
        Ok(text) => text,
        Err(_) => panic!(rt; "no such file"),
    }
}

/// Removes the files of a run, and its journal.
pub fn remove_files(rt: &(impl Files + Abort), names: &Names) {
    for name in [names.config, names.accounts, names.messages, names.journal] {
        assert!(rt; fs::remove_file(rt, name).is_ok());
    }
}

/// What a job ended with, and what it printed.
#[derive(Drop)]
pub struct Done {
    pub printed: Vec<u8>,
    pub ended: Result<u8, Fault>,
}

/// Does a job, which writes nothing on standard error beside.
pub fn done_by<R: FileModes + FullNames + Host + InputFiles + LedgerFiles + Abort>(
    rt: &R,
    job: Job,
) -> Done {
    let alloc = rt.alloc();
    let (mut printed, mut error) = (Vec::new(alloc), Vec::new(alloc));
    let (latch, unsaid) = StartGate::new();
    let mut start = Start::new(&latch, unsaid);
    let mut context = JobContext::new();
    let ended = do_job(rt, &mut context, &mut start, job, &mut printed, &mut error);
    assert!(rt; error.is_empty());
    Done { printed, ended }
}

/// That a job ended with this report and status.
pub fn want_report(
    rt: &(impl AllocGlobal + Abort),
    done: &Done,
    (lines, rows, status): (&str, &str, u8),
) -> Result<(), Fail> {
    let wanted = format!(in rt.alloc(); "{REPORT}{lines}{STATEMENT}{rows}")?;
    same(rt, done.printed.as_slice(), wanted.as_bytes());
    match &done.ended {
        Ok(found) => same(rt, *found, status),
        Err(_) => panic!(rt; "a fault"),
    }
    Ok(())
}

/// That it ended with this fault, and printed nothing.
pub fn want_fault(rt: &(impl AllocGlobal + Abort), done: Done, wanted: &str) -> Result<(), Fail> {
    let Done { printed, ended } = done;
    assert!(rt; printed.is_empty());
    match ended {
        Ok(_) => panic!(rt; "no fault"),
        Err(fault) => same(rt, told_of(rt.alloc(), fault)?.as_str(), wanted),
    }
    Ok(())
}

/// The job to begin the run.
pub fn send_job(alloc: Global, names: &Names, again: Option<Again>) -> Result<Job, AllocError> {
    let journal = JournalFile {
        name: String::from_str(alloc, names.journal)?,
        sync: false,
    };
    Ok(Job::Send(SendArgs {
        config: String::from_str(alloc, names.config)?,
        fields: None,
        quiet: true,
        verbose: false,
        journal: Some(journal),
        throttle: UNBOUND,
        again,
        lines: LineArgs::none(),
        strict: false,
        refs: false,
    }))
}

/// The job to go on with it.
pub fn resume_job(alloc: Global, names: &Names, again: Option<Again>) -> Result<Job, AllocError> {
    let journal = JournalFile {
        name: String::from_str(alloc, names.journal)?,
        sync: false,
    };
    Ok(Job::Resume(ResumeArgs {
        config: String::from_str(alloc, names.config)?,
        fields: None,
        quiet: true,
        verbose: false,
        journal,
        throttle: UNBOUND,
        again,
        lines: LineArgs::none(),
        strict: false,
        refs: false,
    }))
}

/// The job to recover its report.
pub fn recover_job(alloc: Global, names: &Names) -> Result<Job, AllocError> {
    Ok(Job::Recover(RecoverArgs {
        config: String::from_str(alloc, names.config)?,
        journal: String::from_str(alloc, names.journal)?,
        trial: false,
        refs: false,
    }))
}

/// What bounds nothing.
const UNBOUND: Throttle = Throttle {
    connect_ms: None,
    rate: None,
    stop_after: None,
};
