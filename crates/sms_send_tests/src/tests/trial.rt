//! A whole sending over a message centre in memory, from its files to what is said in the end, as the
//! tests run it.

use super::simulator::{Beside, Simulator};
use sms_centre::Fuse;
use sms_driver::{Start, StartGate};
use sms_send::{Fault, run_sender, setup_of};
use sms_worker::Gate;
use std::alloc::{AllocError, Global};
use std::process::Abort;
use std::str;
use std::sync::Wait;
use std::thread::Threads;

/// The files of a sending, and where its devices fail.
#[derive(Clone, Copy)]
pub struct Sending<'a> {
    pub config: &'a str,
    pub accounts: &'a str,
    pub messages: &'a str,
    pub tariff: Option<&'a str>,
    /// How many octets the reader gives, and how many the writer and the output take.
    pub reads: u64,
    pub writes: u64,
    pub prints: u64,
}

/// What is said in the end: what is printed, the fault or no text, whether it is one of memory behind which
/// nothing was sent, and the exit status. And the octets that were written on the first connection.
#[derive(Drop)]
pub struct Said {
    pub printed: Vec<u8>,
    pub fault: String,
    pub unsent: bool,
    pub status: u8,
    pub heard: Vec<u8>,
}

/// Octets enough for each run.
pub const ALL: u64 = 1 << 40;

/// The room that is made for what is printed, before the sending begins: no test prints more, so its
/// own output never wants memory.
const PRINTED: usize = 4_096;

/// A message to one who can pay for it.
pub const PLAIN: Sending<'static> = Sending {
    config: "",
    accounts: "account,credits\nmain,1\n",
    messages: "account,source,destination,text\nmain,12345,+447700900123,Hi\n",
    tariff: None,
    reads: ALL,
    writes: ALL,
    prints: ALL,
};

/// The header of a messages file.
const HEADER: &str = "account,source,destination,text\n";

/// The first line of a report, and that of the statement behind it.
pub const REPORT: &str = "message,part,attempts,outcome,status,id\n";

pub const STATEMENT: &str = "account,topped,free,reserved,charged,returned\n";

/// These files over devices that don't fail, without a tariff.
pub fn sending_of<'a>(config: &'a str, accounts: &'a str, messages: &'a str) -> Sending<'a> {
    Sending {
        config,
        accounts,
        messages,
        ..PLAIN
    }
}

/// Lets every request pass.
#[derive(Clone, Copy, Drop)]
pub struct OpenGate;

impl Gate for OpenGate {
    fn pass(&self, _worker: usize, _number: u32) -> bool {
        true
    }
}

/// Sends these files to a centre in memory, which does as the config's script says.
pub fn send<R: Threads + Wait + Sync, G: Gate + Sync>(
    rt: &R,
    alloc: Global,
    sending: &Sending<'_>,
    gate: &G,
) -> Result<Said, AllocError> {
    let Ok(setup) = setup_of(alloc, sending.config.as_bytes()) else {
        return Err(AllocError);
    };
    let simulator = Simulator::new(alloc, setup.bind_status, setup.answers.as_slice())?;
    let beside = Beside {
        rt,
        alloc,
        simulator: &simulator,
        reads: sending.reads,
        writes: sending.writes,
    };
    let mut printed = Vec::with_capacity(alloc, PRINTED)?;
    let (latch, unsaid) = StartGate::new();
    let mut start = Start::new(&latch, unsaid);
    let ended = run_sender(
        rt,
        alloc,
        &mut start,
        sending.config.as_bytes(),
        sending.accounts.as_bytes(),
        sending.messages.as_bytes(),
        sending.tariff.map(|file| file.as_bytes()),
        &beside,
        gate,
        &beside,
        &beside,
        false,
        &mut Fuse::new(&mut printed, sending.prints),
    );
    let (fault, unsent, status) = match ended {
        Ok(status) => (String::new(alloc), false, status),
        Err(fault) => {
            let unsent = matches!(&fault, Fault::OutOfMemory);
            (fault.to_string(alloc)?, unsent, fault.exit_status())
        }
    };
    Ok(Said {
        printed,
        fault,
        unsent,
        status,
        heard: simulator.into_heard(alloc),
    })
}

/// 161 letters: two parts.
pub const LONG: &str =
    "aaaaaaaaaaaaaaaaaaaaaaaaaaaaaaaaaaaaaaaaaaaaaaaaaaaaaaaaaaaaaaaaaaaaaaaaaaaaaaaaaaaaaaaaaaaaaaaaaaaaaaaaaaaaaaaaaaaaaaaaaaaaaaaaaaaaaaaaaaaaaaaaaaaaaaaaaaaaaaaaa";

/// A messages file with a message of the account `main` for each of these texts, which are words.
pub fn messages_of(alloc: Global, texts: &str) -> Result<String, AllocError> {
    let mut file = String::from_str(alloc, HEADER)?;
    for text in texts.split_whitespace() {
        file.push_str("main,12345,+447700900123,")?;
        file.push_str(text)?;
        file.push_str("\n")?;
    }
    Ok(file)
}

/// The text of what was printed.
pub fn text_of<'a>(rt: &impl Abort, said: &'a Said) -> &'a str {
    match str::from_utf8(said.printed.as_slice()) {
        Ok(text) => text,
        Err(_) => panic!(rt; "no text"),
    }
}
