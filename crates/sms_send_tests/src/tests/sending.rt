//! Whole sendings: accounts, a tariff, credits that run short, two workers at once, and faults. What is
//! printed is worked out by hand.

use super::same::same;
use super::trial::{
    OpenGate, PLAIN, REPORT, STATEMENT, Said, Sending, messages_of, send, sending_of, text_of,
};
use sms_worker::Gate;
use std::alloc::{AllocError, Global};
use std::process::Abort;
use std::sync::Wait;
use std::sync::atomic::{AtomicBool, Ordering};
use std::test::Fail;
use std::thread;
use std::thread::Threads;

/// Messages and who pays for them, and what is reported of both.
#[derive(Clone, Copy)]
struct Row<'a> {
    accounts: &'a str,
    messages: &'a str,
    tariff: Option<&'a str>,
    report: &'a str,
    rows: &'a str,
}

const RATES: &str = "prefix,credits\n44,3\n4477,5\n,2\n";

/// 161 letters: two parts.
const TWO_PARTS: &str =
    "account,source,destination,text\nmain,12345,+447700900123,aaaaaaaaaaaaaaaaaaaaaaaaaaaaaaaaaaaaaaaaaaaaaaaaaaaaaaaaaaaaaaaaaaaaaaaaaaaaaaaaaaaaaaaaaaaaaaaaaaaaaaaaaaaaaaaaaaaaaaaaaaaaaaaaaaaaaaaaaaaaaaaaaaaaaaaaaaaaaaaaa\n";

/// The clinic has a credit for one of two parts, and then for the next message.
const BANK_AND_CLINIC: &str =
    "account,source,destination,text\nbank,12345,+447700900123,Hi\nclinic,12345,+447700900123,aaaaaaaaaaaaaaaaaaaaaaaaaaaaaaaaaaaaaaaaaaaaaaaaaaaaaaaaaaaaaaaaaaaaaaaaaaaaaaaaaaaaaaaaaaaaaaaaaaaaaaaaaaaaaaaaaaaaaaaaaaaaaaaaaaaaaaaaaaaaaaaaaaaaaaaaaaaaaaaaa\nclinic,12345,+447700900123,Hi\nbank,12345,+447700900123,aaaaaaaaaaaaaaaaaaaaaaaaaaaaaaaaaaaaaaaaaaaaaaaaaaaaaaaaaaaaaaaaaaaaaaaaaaaaaaaaaaaaaaaaaaaaaaaaaaaaaaaaaaaaaaaaaaaaaaaaaaaaaaaaaaaaaaaaaaaaaaaaaaaaaaaaaaaaaaaaa\n";

const ROWS: [Row<'static>; 4] = [
    Row {
        accounts: "account,credits\nmain,1\n",
        messages: "account,source,destination,text\nnobody,12345,+447700900123,Hi\nmain,12345,abc,Hi\nmain,12345,,Hi\nmain,abcdefghijkl,+447700900123,Hi\n",
        tariff: None,
        report: "0,0,0,no-account,,\n1,0,0,bad-address,,\n2,0,0,bad-address,,\n3,0,0,bad-address,,\n",
        rows: "main,1,1,0,0,0\n",
    },
    Row {
        accounts: "account,credits\nbank,3\nclinic,1\n",
        messages: BANK_AND_CLINIC,
        tariff: None,
        report: "0,1,1,charged,0,m1\n1,0,0,no-credit,,\n2,1,1,charged,0,m2\n3,1,1,charged,0,m3\n3,2,1,charged,0,m4\n",
        rows: "bank,3,0,0,3,0\nclinic,1,0,0,1,0\n",
    },
    Row {
        accounts: "account,credits\nmain,12\n",
        messages: TWO_PARTS,
        tariff: Some(RATES),
        report: "0,1,1,charged,0,m1\n0,2,1,charged,0,m2\n",
        rows: "main,12,2,0,10,0\n",
    },
    Row {
        accounts: "account,credits\nmain,9\n",
        messages: TWO_PARTS,
        tariff: Some(RATES),
        report: "0,0,0,no-credit,,\n",
        rows: "main,9,9,0,0,0\n",
    },
];

#[test]
fn reports_messages_and_accounts(rt: HostRuntime) -> Result<(), Fail> {
    let alloc = rt.alloc();
    for row in ROWS {
        let sending = Sending {
            accounts: row.accounts,
            messages: row.messages,
            tariff: row.tariff,
            ..PLAIN
        };
        let said = send(&rt, alloc, &sending, &OpenGate)?;
        let wanted = format!(in alloc; "{REPORT}{}{STATEMENT}{}", row.report, row.rows)?;
        same(&rt, text_of(&rt, &said), wanted.as_str());
        same(&rt, said.status, 0);
    }
    Ok(())
}

/// A text that no 255 parts hold.
#[test]
fn refuses_a_text_that_is_too_long(rt: HostRuntime) -> Result<(), Fail> {
    let alloc = rt.alloc();
    let mut text = String::from_str(alloc, "Hi ")?;
    for _letter in 0..39_016 {
        text.push('a')?;
    }
    let messages = messages_of(alloc, text.as_str())?;
    let sending = Sending {
        accounts: "account,credits\nmain,300\n",
        messages: messages.as_str(),
        ..PLAIN
    };
    let said = send(&rt, alloc, &sending, &OpenGate)?;
    let wanted = format!(in alloc;
        "{REPORT}0,1,1,charged,0,m1\n1,0,0,too-long,,\n{STATEMENT}main,300,299,0,1,0\n"
    )?;
    same(&rt, text_of(&rt, &said), wanted.as_str());
    Ok(())
}

// This sending ends with this fault and prints nothing.
fn faults(
    rt: &(impl AllocGlobal + Abort + Threads + Wait + Sync),
    sending: &Sending<'_>,
    fault: &str,
    status: u8,
) -> Result<(), Fail> {
    let said = send(rt, rt.alloc(), sending, &OpenGate)?;
    same(rt, (said.fault.as_str(), said.status), (fault, status));
    assert!(rt; said.printed.is_empty());
    Ok(())
}

// The plain sending by this config.
fn by_config(config: &str) -> Sending<'_> {
    sending_of(config, PLAIN.accounts, PLAIN.messages)
}

/// Nothing is printed where a bind fails or a file is faulty.
#[test]
fn prints_nothing_behind_a_fault(rt: HostRuntime) -> Result<(), Fail> {
    let refused = by_config("bind_status = 14");
    faults(&rt, &refused, "fault: bind 0 refused 14", 3)?;
    let most = by_config("bind_status = 4294967295");
    faults(&rt, &most, "fault: bind 0 refused 4294967295", 3)?;
    let third = by_config("binds = 3");
    faults(&rt, &third, "fault: bind 2 failed", 3)?;
    let priced = Sending {
        tariff: Some("prefix,credits\n44,0\n"),
        ..PLAIN
    };
    faults(&rt, &priced, "fault: tariff record 2", 1)
}

/// Two workers and one credit: one message is charged, whichever it is.
#[test]
fn charges_the_last_credit_once(rt: HostRuntime) -> Result<(), Fail> {
    let alloc = rt.alloc();
    let messages = messages_of(alloc, "Hi Ho")?;
    let sending = Sending {
        config: "workers = 2\nanswer_ms = 600000",
        messages: messages.as_str(),
        ..PLAIN
    };
    let first = format!(in alloc;
        "{REPORT}0,1,1,charged,0,m1\n1,0,0,no-credit,,\n{STATEMENT}main,1,0,0,1,0\n"
    )?;
    let second = format!(in alloc;
        "{REPORT}0,0,0,no-credit,,\n1,1,1,charged,0,m1\n{STATEMENT}main,1,0,0,1,0\n"
    )?;
    for _round in 0..20 {
        let said = send(&rt, alloc, &sending, &OpenGate)?;
        let text = text_of(&rt, &said);
        same(
            &rt,
            (text, text == first.as_str() || text == second.as_str()),
            (text, true),
        );
        same(&rt, said.status, 0);
    }
    Ok(())
}

/// Holds the first request of each of two workers until the other has one.
#[derive(Drop)]
struct Meeting {
    came: [AtomicBool; 2],
}

impl Gate for Meeting {
    fn pass(&self, worker: usize, _number: u32) -> bool {
        match worker {
            0 => self.came[0].store(true, Ordering::SeqCst),
            _ => self.came[1].store(true, Ordering::SeqCst),
        }
        for _look in 0..100_000_000u32 {
            if self.came[0].load(Ordering::SeqCst) && self.came[1].load(Ordering::SeqCst) {
                return true;
            }
            thread::yield_now();
        }
        false
    }
}

// What two workers say behind a gate that holds each for the other.
fn met(rt: &(impl AllocGlobal + Threads + Wait + Sync), messages: &str) -> Result<Said, Fail> {
    let config = "workers = 2\nanswer_ms = 600000";
    let sending = sending_of(config, "account,credits\nmain,2\n", messages);
    let gate = Meeting {
        came: [AtomicBool::new(false), AtomicBool::new(false)],
    };
    Ok(send(rt, rt.alloc(), &sending, &gate)?)
}

// The report on two messages that are charged, and have these ids.
fn both_charged(alloc: Global, first: &str, second: &str) -> Result<String, AllocError> {
    format!(in alloc;
        "{REPORT}0,1,1,charged,0,{first}\n1,1,1,charged,0,{second}\n{STATEMENT}main,2,0,0,2,0\n"
    )
}

/// Neither worker's request goes on before the other has one: they work at once.
#[test]
fn workers_work_at_once(rt: HostRuntime) -> Result<(), Fail> {
    let alloc = rt.alloc();
    let said = met(&rt, messages_of(alloc, "Hi Ho")?.as_str())?;
    let text = text_of(&rt, &said);
    let first = both_charged(alloc, "m1", "m2")?;
    let second = both_charged(alloc, "m2", "m1")?;
    same(
        &rt,
        (text, text == first.as_str() || text == second.as_str()),
        (text, true),
    );
    Ok(())
}
