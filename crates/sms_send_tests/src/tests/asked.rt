//! What jobs are called where a test says which one words ask for.

use super::same::same;
use sms_send::{Job, Listing, TargetKind, job_of};
use std::process::Abort;

// What a job is called, before its file.
fn called(job: &Job) -> &str {
    match job {
        Job::Replay(None) => "standard input",
        Job::Replay(Some(_)) => "",
        Job::Plan(_, true, _) => "long plan of ",
        Job::Plan(_, false, _) => "plan of ",
        Job::Quote(_, true, _) => "verbose quote of ",
        Job::Quote(_, false, _) => "quote of ",
        Job::Loop(order) if order.strict => "strict loop of ",
        Job::Send(order) if order.strict => "strict send of ",
        Job::Loop(order) if order.quiet => "quiet loop of ",
        Job::Loop(_) => "loop of ",
        Job::Send(order) if order.quiet => "quiet send of ",
        Job::Send(_) => "send of ",
        Job::Resume(_) => "resumption of ",
        Job::Stop(_) => "stop of ",
        Job::Recover(order) if order.trial => "trial of ",
        Job::Recover(_) => "recovery of ",
        Job::Rest(order) if order.accounts => "accounts left of ",
        Job::Rest(_) => "rest of ",
        Job::List(order) if order.listing == Listing::Bill => "bill of ",
        Job::List(_) => "doubts of ",
        Job::Audit(_) => "audit of ",
        Job::TopUp(order) if order.trial => "top-up for trials of ",
        Job::TopUp(_) => "top-up of ",
        Job::Balance(_) => "balance of ",
        Job::SendOn(TargetKind::Loopback, _, _) => "loop on ",
        Job::SendOn(_, _, order) if order.strict => "strict send on ",
        Job::SendOn(_, _, _) => "send on ",
        Job::ResumeOn(_, _) => "resumption on ",
        Job::Settle(_) => "settlement of ",
        Job::Decide(_) => "decisions of ",
        Job::Delivered(_) => "deliveries of ",
    }
}

// The file of a job.
fn file_of(job: &Job) -> &str {
    match job {
        Job::Replay(None) => "",
        Job::Replay(Some(name)) => name.as_str(),
        Job::Plan(name, _, _) | Job::Quote(name, _, _) | Job::Stop(name) | Job::Balance(name) => {
            name.as_str()
        }
        Job::Loop(order) | Job::Send(order) => order.config.as_str(),
        Job::Resume(order) => order.journal.name.as_str(),
        Job::Recover(order) => order.journal.as_str(),
        Job::Rest(order) => order.report.as_str(),
        Job::List(order) => order.journal.as_str(),
        Job::Audit(order) => order.report.as_str(),
        Job::TopUp(order) => order.ledger.as_str(),
        Job::SendOn(_, ledger, _) | Job::ResumeOn(ledger, _) => ledger.as_str(),
        Job::Settle(order) => order.journal.as_str(),
        Job::Decide(order) => order.decisions.as_str(),
        Job::Delivered(order) => order.inbox.as_str(),
    }
}

// That the job is called so, with its file.
fn want_job(rt: &impl Abort, job: &Job, wanted: &str) {
    match wanted.strip_prefix(called(job)) {
        Some(file) => same(rt, file_of(job), file),
        None => panic!(rt; "another job"),
    }
}

/// That this is read of the words.
pub fn want_read(rt: &(impl AllocGlobal + Abort), words: &[String], wanted: &str) {
    match job_of(rt.alloc(), words) {
        Ok(job) => want_job(rt, &job, wanted),
        Err(fault) => match fault.to_string(rt.alloc()) {
            Ok(text) => same(rt, text.as_str(), wanted),
            Err(_) => panic!(rt; "no memory"),
        },
    }
}
