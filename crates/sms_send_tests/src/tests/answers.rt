//! What is reported of messages by what a message centre answers (SMPP 3.4 4.4.2, 4.3.1, 5.1.3), well
//! or badly: worked out by hand.

use super::same::same;
use super::trial::{
    LONG, OpenGate, REPORT, STATEMENT, Said, messages_of, send, sending_of, text_of,
};
use std::process::Abort;
use std::sync::Wait;
use std::thread::Threads;

/// Messages of the account `main` with these texts, which are words, and its credits; and what is reported of the
/// messages and of the account, and the exit status.
#[derive(Clone, Copy)]
struct Row<'a> {
    name: &'a str,
    config: &'a str,
    texts: &'a str,
    credits: u64,
    report: &'a str,
    row: &'a str,
    status: u8,
}

const ROWS: [Row<'static>; 23] = [
    Row {
        name: "two parts",
        config: "",
        texts: LONG,
        credits: 3,
        report: "0,1,1,charged,0,m1\n0,2,1,charged,0,m2\n",
        row: "main,3,1,0,2,0",
        status: 0,
    },
    Row {
        name: "no messages",
        config: "",
        texts: "",
        credits: 2,
        report: "",
        row: "main,2,2,0,0,0",
        status: 0,
    },
    Row {
        name: "throttled, then charged",
        config: "answers = [\"status 88\", \"status 88\", \"status 0\"]",
        texts: "Hi",
        credits: 1,
        report: "0,1,3,charged,0,m3\n",
        row: "main,1,0,0,1,0",
        status: 0,
    },
    Row {
        name: "throttled at the last attempt",
        config: "attempts = 2\nanswers = [\"status 88\", \"status 88\", \"status 0\"]",
        texts: "Hi",
        credits: 1,
        report: "0,1,2,refused,88,\n",
        row: "main,1,1,0,0,1",
        status: 0,
    },
    Row {
        name: "throttled while the window follows",
        config: "follow = true\nanswers = [\"status 88\", \"status 88\", \"status 0\"]",
        texts: "Hi",
        credits: 1,
        report: "0,1,3,charged,0,m3\n",
        row: "main,1,0,0,1,0",
        status: 0,
    },
    Row {
        name: "a full queue, then charged",
        config: "answers = [\"status 20\", \"status 0\"]",
        texts: "Hi",
        credits: 1,
        report: "0,1,2,charged,0,m2\n",
        row: "main,1,0,0,1,0",
        status: 0,
    },
    Row {
        name: "throttled, then silence",
        config: "answers = [\"status 88\", \"silent\"]",
        texts: "Hi",
        credits: 1,
        report: "0,1,2,unanswered,,\n",
        row: "main,1,0,1,0,0",
        status: 4,
    },
    Row {
        name: "throttled, then an unbind",
        config: "answers = [\"status 88\", \"unbind\"]\nbase_ms = 60000\nanswer_ms = 600000",
        texts: "Hi Ho",
        credits: 2,
        report: "0,1,1,refused,88,\n1,1,1,unanswered,,\n",
        row: "main,2,1,1,0,1",
        status: 4,
    },
    Row {
        name: "another status",
        config: "answers = [\"status 69\"]",
        texts: "Hi",
        credits: 1,
        report: "0,1,1,refused,69,\n",
        row: "main,1,1,0,0,1",
        status: 0,
    },
    Row {
        name: "one part of two",
        config: "answers = [\"status 0\", \"status 69\"]",
        texts: LONG,
        credits: 2,
        report: "0,1,1,charged,0,m1\n0,2,1,refused,69,\n",
        row: "main,2,1,0,1,1",
        status: 0,
    },
    Row {
        name: "a generic_nack of status 0",
        config: "answers = [\"nack 0\"]",
        texts: "Hi",
        credits: 1,
        report: "0,1,1,refused,0,\n",
        row: "main,1,1,0,0,1",
        status: 0,
    },
    Row {
        name: "no answer",
        config: "answers = [\"silent\"]",
        texts: "Hi",
        credits: 1,
        report: "0,1,1,unanswered,,\n",
        row: "main,1,0,1,0,0",
        status: 4,
    },
    Row {
        name: "no answer to the first part",
        config: "answers = [\"silent\", \"status 0\"]",
        texts: LONG,
        credits: 3,
        report: "0,1,1,unanswered,,\n0,2,1,charged,0,m2\n",
        row: "main,3,1,1,1,0",
        status: 4,
    },
    Row {
        name: "an unbind of the centre",
        config: "answers = [\"silent\", \"silent\", \"unbind\"]\ndepth = 3\nanswer_ms = 600000",
        texts: "a b c d e",
        credits: 5,
        report: "0,1,1,unanswered,,\n1,1,1,unanswered,,\n2,1,1,unanswered,,\n3,0,0,bind-closed,,\n4,0,0,bind-closed,,\n",
        row: "main,5,2,3,0,0",
        status: 4,
    },
    Row {
        name: "an answer twice",
        config: "answers = [\"twice 0\"]",
        texts: "Hi",
        credits: 1,
        report: "0,1,1,charged,0,m1\n",
        row: "main,1,0,0,1,0",
        status: 0,
    },
    Row {
        name: "an answer to another number",
        config: "answers = [\"stray 0\"]\nanswer_ms = 200",
        texts: "Hi",
        credits: 1,
        report: "0,1,1,unanswered,,\n",
        row: "main,1,0,1,0,0",
        status: 4,
    },
    Row {
        name: "an answer behind the next one",
        config: "answers = [\"late 1 0\", \"status 0\"]\ndepth = 2\nanswer_ms = 600000",
        texts: "Hi Ho",
        credits: 2,
        report: "0,1,1,charged,0,m1\n1,1,1,charged,0,m2\n",
        row: "main,2,0,0,2,0",
        status: 0,
    },
    Row {
        name: "an answer that comes too late",
        config: "answers = [\"late 1 0\", \"status 0\"]\ndepth = 1\nanswer_ms = 1000",
        texts: "Hi Ho",
        credits: 2,
        report: "0,1,1,unanswered,,\n1,1,1,charged,0,m2\n",
        row: "main,2,0,1,1,0",
        status: 4,
    },
    Row {
        name: "a deliver_sm before the answer",
        config: "answers = [\"deliver\"]",
        texts: "Hi",
        credits: 1,
        report: "0,1,1,charged,0,m1\n",
        row: "main,1,0,0,1,0",
        status: 0,
    },
    Row {
        name: "an answer that is cut",
        config: "answers = [\"cut\"]",
        texts: "Hi",
        credits: 1,
        report: "0,1,1,unanswered,,\n",
        row: "main,1,0,1,0,0",
        status: 4,
    },
    Row {
        name: "a frame that is too long",
        config: "answers = [\"huge\"]",
        texts: "Hi",
        credits: 1,
        report: "0,1,1,unanswered,,\n",
        row: "main,1,0,1,0,0",
        status: 4,
    },
    Row {
        name: "a credit short",
        config: "",
        texts: LONG,
        credits: 1,
        report: "0,0,0,no-credit,,\n",
        row: "main,1,1,0,0,0",
        status: 0,
    },
    Row {
        name: "two binds",
        config: "binds = 2",
        texts: "Hi Ho",
        credits: 2,
        report: "0,1,1,charged,0,m1\n1,1,1,charged,0,m1\n",
        row: "main,2,0,0,2,0",
        status: 0,
    },
];

// That this is said of the row's messages.
fn want_said(rt: &(impl AllocGlobal + Abort), said: &Said, row: &Row<'_>) {
    let Ok(wanted) = format!(in rt.alloc(); "{REPORT}{}{STATEMENT}{}\n", row.report, row.row) else {
        panic!(rt; "no memory")
    };
    same(rt, (row.name, said.fault.as_str()), (row.name, ""));
    same(
        rt,
        (row.name, text_of(rt, said)),
        (row.name, wanted.as_str()),
    );
    same(rt, (row.name, said.status), (row.name, row.status));
}

// The row's accounts file and its messages file.
fn files_of(rt: &(impl AllocGlobal + Abort), row: &Row<'_>) -> (String, String) {
    let Ok(accounts) = format!(in rt.alloc(); "account,credits\nmain,{}\n", row.credits) else {
        panic!(rt; "no memory")
    };
    let Ok(messages) = messages_of(rt.alloc(), row.texts) else {
        panic!(rt; "no memory")
    };
    (accounts, messages)
}

// What is said of the row's messages.
fn said_of<R: AllocGlobal + Abort + Threads + Wait + Sync>(rt: &R, row: &Row<'_>) -> Said {
    let (accounts, messages) = files_of(rt, row);
    let sending = sending_of(row.config, accounts.as_str(), messages.as_str());
    match send(rt, rt.alloc(), &sending, &OpenGate) {
        Ok(said) => said,
        Err(_) => panic!(rt; "no memory"),
    }
}

#[test]
fn reports_what_becomes_of_messages(rt: HostRuntime) {
    for row in &ROWS {
        let said = said_of(&rt, row);
        want_said(&rt, &said, row);
    }
}
