//! What is paid into a ledger, what is printed of it, and the faults of both.

use super::broken::want_unprinted;
use super::report::{output_fault, want, want_of};
use super::same::same;
use super::told::told_of;
use sms_devices::{Host, LedgerFailure, LedgerFiles};
use sms_driver::{Start, StartGate};
use sms_ledger::Refusal;
use sms_send::{
    ArgumentError, Fault, FileModes, FullNames, InputFiles, Job, JobContext, JobKind, TopUpArgs,
    do_job, job_of,
};
use std::alloc::{AllocError, Global};
use std::io::{ErrorKind, Write};
use std::process::Abort;
use std::test::Fail;
use std::{fs, str};

const LEDGER: &str = "ledger-of-send-tests";

/// Words of a top-up behind its ledger, and the account, credits and reference that they ask for, or the text of what is
/// wrong with them.
const PAID: [(&[&str], &str); 14] = [
    (&["bank", "500"], "bank 500"),
    (&["bank", "500", "--ref", "INV-1"], "bank 500 INV-1"),
    (&["--trial", "bank", "500"], "bank 500 of trials"),
    (&["--ref=a,b", "%", "00001"], "%25 1 a%2cb"),
    (
        &["caf\u{e9} 1", "1099511627776"],
        "caf%c3%a9%201 1099511627776",
    ),
    (&["bank", "1099511627777"], "CREDITS"),
    (&["bank", "0"], "CREDITS"),
    (&["bank", "five"], "CREDITS"),
    (&["bank", "+5"], "CREDITS"),
    (&["bank", ""], "CREDITS"),
    (&["", "5"], "ACCOUNT"),
    (&["", "0"], "CREDITS"),
    (&["bank", "5", "--ref", ""], "REF"),
    (&["", "5", "--ref", ""], "REF"),
];

// The words of a top-up of the ledger.
fn words_of(alloc: Global, words: &[&str]) -> Result<Vec<String>, AllocError> {
    let mut all = Vec::new(alloc);
    for word in ["topup", "--ledger", LEDGER] {
        all.push(String::from_str(alloc, word)?)?;
    }
    for word in words {
        all.push(String::from_str(alloc, word)?)?;
    }
    Ok(all)
}

// What a top-up pays.
fn text_of(alloc: Global, order: &TopUpArgs) -> Result<String, Fail> {
    let payment = &order.payment;
    let (account, credits) = (payment.account.as_str(), payment.credits);
    let mut text = format!(in alloc; "{account} {credits}")?;
    if let Some(name) = &payment.reference {
        text.push_str(" ")?;
        text.push_str(name.as_str())?;
    }
    if order.trial {
        text.push_str(" of trials")?;
    }
    Ok(text)
}

// What is wrong with the arguments.
fn wrong_with(rt: &impl Abort, error: &ArgumentError) -> &'static str {
    match error {
        ArgumentError::Credits => "CREDITS",
        ArgumentError::Account => "ACCOUNT",
        ArgumentError::Reference => "REF",
        _ => panic!(rt; "another error"),
    }
}

#[test]
fn reads_what_is_paid(rt: HostRuntime) -> Result<(), Fail> {
    for (words, wanted) in &PAID {
        let words = words_of(rt.alloc(), words)?;
        match job_of(rt.alloc(), words.as_slice()) {
            Ok(Job::TopUp(order)) => same(&rt, text_of(rt.alloc(), &order)?.as_str(), wanted),
            Err(Fault::Words(error)) => same(&rt, wrong_with(&rt, &error), *wanted),
            _ => panic!(&rt; "another job"),
        }
    }
    Ok(())
}

// The job that pays so much for an account.
fn payment_job(alloc: Global, words: &[&str]) -> Result<Job, Fail> {
    let words = words_of(alloc, words)?;
    match job_of(alloc, words.as_slice()) {
        Ok(job) => Ok(job),
        Err(_) => Err("no job".into()),
    }
}

// The job that prints the balance.
fn balance_job(alloc: Global) -> Result<Job, AllocError> {
    Ok(Job::Balance(String::from_str(alloc, LEDGER)?))
}

/// What a job ends with, into this output.
pub fn done<R: FileModes + FullNames + Host + InputFiles + LedgerFiles, W: Write>(
    rt: &R,
    job: Job,
    output: &mut W,
) -> Result<u8, Fault> {
    let mut error = Vec::new(rt.alloc());
    let (latch, unsaid) = StartGate::new();
    let mut start = Start::new(&latch, unsaid);
    do_job(
        rt,
        &mut JobContext::new(),
        &mut start,
        job,
        output,
        &mut error,
    )
}

// That a job prints this.
fn want_printed<R: FileModes + FullNames + Host + InputFiles + LedgerFiles + Abort>(
    rt: &R,
    job: Job,
    wanted: &str,
) -> Result<(), Fail> {
    let mut output = Vec::new(rt.alloc());
    match done(rt, job, &mut output) {
        Ok(status) => same(rt, status, 0),
        Err(fault) => same(rt, told_of(rt.alloc(), fault)?.as_str(), "no fault"),
    }
    match str::from_utf8(output.as_slice()) {
        Ok(text) => same(rt, text, wanted),
        Err(_) => panic!(rt; "no text"),
    }
    Ok(())
}

// That a job ends with this fault, and prints nothing.
fn want_fault<R: FileModes + FullNames + Host + InputFiles + LedgerFiles + Abort>(
    rt: &R,
    job: Job,
    wanted: &str,
) -> Result<(), Fail> {
    let mut output = Vec::new(rt.alloc());
    match done(rt, job, &mut output) {
        Ok(_) => panic!(rt; "no fault"),
        Err(fault) => same(rt, told_of(rt.alloc(), fault)?.as_str(), wanted),
    }
    assert!(rt; output.is_empty());
    Ok(())
}

/// A payment is booked once where it has a reference, and else each time.
#[test]
fn books_payments(rt: HostRuntime) -> Result<(), Fail> {
    let alloc = rt.alloc();
    let _removed = fs::remove_file(&rt, LEDGER);
    want_fault(&rt, balance_job(alloc)?, "fault: file ledger-of-send-tests")?;
    for (words, free) in [
        (["bank", "500", "--ref=A"], 500u64),
        (["bank", "500", "--ref=A"], 500),
        (["bank", "500", "--verbose"], 1_000),
        (["bank", "500", "--verbose"], 1_500),
    ] {
        let wanted = format!(in alloc;
            "account,paid,free,out,doubt,spent\nbank,{free},{free},0,0,0\n"
        )?;
        want_printed(&rt, payment_job(alloc, &words)?, wanted.as_str())?;
    }
    want_fault(
        &rt,
        payment_job(alloc, &["bank", "5", "--ref=A"])?,
        "fault: payment",
    )?;
    want_printed(
        &rt,
        payment_job(alloc, &["shop", "7"])?,
        "account,paid,free,out,doubt,spent\nshop,7,7,0,0,0\n",
    )?;
    want_printed(
        &rt,
        balance_job(alloc)?,
        "account,paid,free,out,doubt,spent\nbank,1500,1500,0,0,0\nshop,7,7,0,0,0\n",
    )?;
    assert!(rt; fs::write(&rt, LEDGER, "ledger,1\npaid\n").is_ok());
    want_fault(&rt, balance_job(alloc)?, "fault: ledger record 2")?;
    want_fault(
        &rt,
        payment_job(alloc, &["bank", "5"])?,
        "fault: ledger record 2",
    )?;
    assert!(rt; fs::remove_file(&rt, LEDGER).is_ok());
    Ok(())
}

/// A payment whose balance can't be printed is booked all the same.
#[test]
fn books_what_is_not_printed(rt: HostRuntime) -> Result<(), Fail> {
    const UNPRINTED: &str = "unprinted-ledger-of-send-tests";
    const PRINTED: &str = "account,paid,free,out,doubt,spent\nbank,5,5,0,0,0\n";
    let alloc = rt.alloc();
    let mut words = Vec::new(alloc);
    for word in ["topup", "--ledger", UNPRINTED, "bank", "5", "--ref", "A"] {
        words.push(String::from_str(alloc, word)?)?;
    }
    for room in [0, 10] {
        let Ok(job) = job_of(alloc, words.as_slice()) else {
            return Err("no job".into());
        };
        want_unprinted(&rt, job, room)?;
    }
    let Ok(job) = job_of(alloc, words.as_slice()) else {
        return Err("no job".into());
    };
    want_printed(&rt, job, PRINTED)?;
    assert!(rt; fs::remove_file(&rt, UNPRINTED).is_ok());
    Ok(())
}

/// The system's reason travels with a fault of a ledger, and the ledger's with one of a payment.
#[test]
fn says_why_nothing_was_booked(rt: HostRuntime) -> Result<(), Fail> {
    let name = String::from_str(rt.alloc(), "l")?;
    want(
        &rt,
        &Fault::LedgerFile(name, ErrorKind::ReadOnlyFilesystem),
        "fault: file l\n  its file system is read-only\n",
    )?;
    for (why, wanted) in [
        (LedgerFailure::NoFile, "it is no regular file"),
        (
            LedgerFailure::Locked,
            "other programs have held it for 10 seconds; nothing was booked",
        ),
        (
            LedgerFailure::Unread(ErrorKind::Other),
            "it can't be locked or read to its end; nothing was booked",
        ),
        (
            LedgerFailure::Unwritten(ErrorKind::StorageFull),
            "no space left on the device; nothing was booked",
        ),
        (
            LedgerFailure::Torn(ErrorKind::Other),
            "the device failed; balance says whether the payment was booked",
        ),
    ] {
        let wanted = format!(in rt.alloc(); "fault: ledger\n  {wanted}\n")?;
        want(&rt, &Fault::Ledger(why), wanted.as_str())?;
    }
    want(
        &rt,
        &Fault::BadEntry(7, None),
        "fault: ledger record 7\n  no entry of a ledger is written so\n",
    )?;
    want(
        &rt,
        &Fault::BadEntry(7, Some(Refusal::NotBack)),
        "fault: ledger record 7\n  the run's statement of the account isn't booked\n",
    )?;
    want(
        &rt,
        &Fault::Payment(Refusal::PaidBefore),
        "fault: payment\n  a payment with this reference is booked; nothing was booked\n",
    )?;
    want_of(
        &rt,
        JobKind::TopUp,
        &output_fault(&rt),
        "fault: output\n  the payment is booked\n",
    )
}
