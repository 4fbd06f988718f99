//! What commands book: top-ups, what a run takes, and its statement.

use crate::tests::{WEEK, ledger_of, name_of, same};
use crate::{Ledger, Name, Payment, Refusal, Run};
use sms_core::Row as RunRow;
use std::alloc::Global;
use std::process::Abort;
use std::test::Fail;

/// What a top-up of alpha with this reference appends: its line, nothing, or a refusal.
#[derive(Clone, Copy, Debug, PartialEq, Eq)]
enum TopUp {
    Booked(bool),
    Known,
    Refused(Refusal),
}

fn top_up(rt: &impl Abort, alloc: Global, reference: &[u8], credits: u64, line: &str) -> TopUp {
    let mut ledger = ledger_of(rt, alloc, WEEK);
    let payment = Payment {
        account: name_of(rt, alloc, b"alpha".as_slice()),
        credits,
        reference: Some(name_of(rt, alloc, reference)),
    };
    let end = match ledger.top_up(alloc, 9, payment) {
        Ok(Some(text)) => TopUp::Booked(text.as_str() == line),
        Ok(None) => TopUp::Known,
        Err(refusal) => TopUp::Refused(refusal),
    };
    drop(ledger);
    end
}

#[test]
fn a_top_up_is_booked_once(rt: HostRuntime) -> Result<(), Fail> {
    let alloc = rt.alloc();
    let line = "paid,9,alpha,500,inv-3\n";
    same(
        &rt,
        top_up(&rt, alloc, b"inv-3".as_slice(), 500, line),
        TopUp::Booked(true),
    );
    same(
        &rt,
        top_up(&rt, alloc, b"inv-1".as_slice(), 1000, ""),
        TopUp::Known,
    );
    same(
        &rt,
        top_up(&rt, alloc, b"inv-1".as_slice(), 999, ""),
        TopUp::Refused(Refusal::PaidBefore),
    );
    same(
        &rt,
        top_up(&rt, alloc, b"inv-2".as_slice(), 7, ""),
        TopUp::Refused(Refusal::PaidBefore),
    );
    Ok(())
}

/// The run of these digits.
fn run_of(rt: &impl Abort, alloc: Global, digits: &[u8]) -> Run {
    let Ok(Some(run)) = Run::read(alloc, digits) else {
        panic!(rt; "the digits are no run's name");
    };
    run
}

/// Books what a run takes of these accounts, and tells whether these are its lines.
fn takes(
    rt: &impl Abort,
    alloc: Global,
    ledger: &mut Ledger,
    run: &Run,
    accounts: &[Name],
    lines: &str,
) -> bool {
    let Ok(entries) = ledger.takings(alloc, run, accounts) else {
        panic!(rt; "out of memory");
    };
    let Ok(text) = ledger.post(alloc, 9, entries.as_slice()) else {
        panic!(rt; "a taking is refused");
    };
    drop(entries);
    text.as_str() == lines
}

/// Books a run's statement of these accounts, and tells whether these are its lines.
fn returns(
    rt: &impl Abort,
    alloc: Global,
    ledger: &mut Ledger,
    run: &Run,
    accounts: &[Name],
    rows: &[RunRow],
    lines: &str,
) -> bool {
    let Ok(entries) = ledger.returns(alloc, run, accounts, rows) else {
        panic!(rt; "out of memory");
    };
    let Ok(text) = ledger.post(alloc, 10, entries.as_slice()) else {
        panic!(rt; "a statement is refused");
    };
    drop(entries);
    text.as_str() == lines
}

/// The rows of a run's statement: of alpha 315 credits, of gamma none.
const ROWS: [RunRow; 2] = [
    RunRow {
        topped: 315,
        free: 300,
        reserved: 5,
        charged: 10,
        returned: 2,
    },
    RunRow {
        topped: 0,
        free: 0,
        reserved: 0,
        charged: 0,
        returned: 0,
    },
];

#[test]
fn a_run_takes_and_gives_back(rt: HostRuntime) -> Result<(), Fail> {
    let alloc = rt.alloc();
    let mut ledger = ledger_of(&rt, alloc, WEEK);
    let run = run_of(&rt, alloc, b"000000000000000000000000000000a3".as_slice());
    let mut accounts = Vec::new(alloc);
    accounts.push(name_of(&rt, alloc, b"alpha".as_slice()))?;
    accounts.push(name_of(&rt, alloc, b"gamma".as_slice()))?;
    let taken = "taken,9,000000000000000000000000000000a3,alpha,315\n";
    same(
        &rt,
        takes(&rt, alloc, &mut ledger, &run, accounts.as_slice(), taken),
        true,
    );
    let back = "back,10,000000000000000000000000000000a3,alpha,300,5,10\n";
    same(
        &rt,
        returns(
            &rt,
            alloc,
            &mut ledger,
            &run,
            accounts.as_slice(),
            ROWS.as_slice(),
            back,
        ),
        true,
    );
    same(
        &rt,
        returns(
            &rt,
            alloc,
            &mut ledger,
            &run,
            accounts.as_slice(),
            ROWS.as_slice(),
            "",
        ),
        true,
    );
    drop(accounts);
    drop(run);
    drop(ledger);
    Ok(())
}

/// The balance of the week.
const BALANCE: &str = "account,paid,free,out,doubt,spent\n\
alpha,1000,315,200,5,480\n\
beta,57,7,50,0,0\n";

#[test]
fn a_week_has_its_balance(rt: HostRuntime) -> Result<(), Fail> {
    let alloc = rt.alloc();
    let ledger = ledger_of(&rt, alloc, WEEK);
    let Ok(text) = ledger.balance_text(alloc) else {
        panic!(&rt; "out of memory");
    };
    same(&rt, text.as_str() == BALANCE, true);
    drop(text);
    drop(ledger);
    Ok(())
}
