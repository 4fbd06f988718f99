//! What is left of a sending, by reports written by hand.

use super::fault_text::fault_text;
use super::same::same;
use sms_journal::{run_rest, run_rest_accounts};
use std::alloc::{AllocError, Global};
use std::test::Fail;

const ACCOUNTS: &[u8] = b"account,credits\nmain,10\n\"a, \"\"b\"\"\",3\n";

/// The first message is sent in two parts, the second in one, the third in three.
const MESSAGES: &str = concat!(
    "account,source,destination,text\nmain,1,2,",
    "one two three four five six seven eight nine ten one two three four five six seven eight nine ten ",
    "one two three four five six seven eight nine ten one two three four five six seven eight nine ten\r\n",
    "\"a, \"\"b\"\"\",,+44,\"say \"\"hi\"\", now\nor \r later\"\nmain,a,33,",
    "[[[[[[[[[[[[[[[[[[[[[[[[[[[[[[[[[[[[[[[[[[[[[[[[[[[[[[[[[[[[[[[[[[[[[[[[[[[[[[[[",
    "[[[[[[[[[[[[[[[[[[[[[[[[[[[[[[[[[[[[[[[[[[[[[[[[[[[[[[[[[[[[[[[[[[[[[[[[[[[[[[[[\n"
);

const HEAD: &str = "message,part,attempts,outcome,status,id\n";

const STATEMENT: &str = "account,topped,free,reserved,charged,returned\n";

/// The rows of the report GOOD.
const ROWS: &str = "main,10,10,0,0,0\n\"a, \"\"b\"\"\",3,2,0,1,0\n";

const REST: &str = "account,source,destination,text\n";

const WITH_REFS: &str = "account,source,destination,text,ref\n";

const FIRST: &str = concat!(
    "main,1,2,",
    "one two three four five six seven eight nine ten one two three four five six seven eight nine ten ",
    "one two three four five six seven eight nine ten one two three four five six seven eight nine ten\n",
);

const SECOND: &str = "\"a, \"\"b\"\"\",,+44,\"say \"\"hi\"\", now\nor \r later\"\n";

const THIRD: &str = concat!(
    "main,a,33,",
    "[[[[[[[[[[[[[[[[[[[[[[[[[[[[[[[[[[[[[[[[[[[[[[[[[[[[[[[[[[[[[[[[[[[[[[[[[[[[[[[[",
    "[[[[[[[[[[[[[[[[[[[[[[[[[[[[[[[[[[[[[[[[[[[[[[[[[[[[[[[[[[[[[[[[[[[[[[[[[[[[[[[[\n"
);

/// A report: its lines, its rows behind the accounts' names, which of the three messages are left by it, and
/// the credits.
struct Case {
    lines: &'static str,
    rows: [&'static str; 2],
    left: [bool; 3],
    free: [u64; 2],
}

const LEFT: [Case; 6] = [
    Case {
        lines: "0,0,0,bind-closed,,\n1,0,0,out-of-memory,,\n2,0,0,no-credit,,\n",
        rows: ["10,10,0,0,0", "3,3,0,0,0"],
        left: [true, true, true],
        free: [10, 3],
    },
    Case {
        lines: "0,1,1,refused,11,\n0,2,1,refused,11,x\n1,1,3,refused,88,\n2,1,1,refused,0,\n2,2,1,refused,1,\n2,3,2,refused,10,\n",
        rows: ["10,10,0,0,5", "3,3,0,0,1"],
        left: [false, false, false],
        free: [10, 3],
    },
    Case {
        lines: "0,1,1,charged,0,m1\n0,2,0,unsent,,\n1,1,0,unsent,,\n2,0,0,bind-closed,,\n",
        rows: ["10,9,0,1,1", "3,3,0,0,1"],
        left: [false, true, true],
        free: [9, 3],
    },
    Case {
        lines: "0,1,0,unsent,,\n0,2,0,unsent,,\n1,1,1,unanswered,,\n2,1,0,unsent,,\n2,2,3,refused,88,\"a,\"\"b\"\n2,3,0,unsent,,\n",
        rows: ["10,10,0,0,5", "3,2,1,0,0"],
        left: [true, false, false],
        free: [10, 2],
    },
    Case {
        lines: "0,1,1,unanswered,,\n0,2,0,unsent,,\n1,0,0,bind-closed,,\n2,1,0,unsent,,\n2,2,0,unsent,,\n2,3,1,unanswered,,\n",
        rows: ["10,8,2,0,3", "3,3,0,0,0"],
        left: [false, true, false],
        free: [8, 3],
    },
    Case {
        lines: "0,1,0,unsent,,\n0,2,0,unsent,,\n1,1,1,refused,11,\n2,1,1,charged,0,x\n2,2,1,charged,0,y\n2,3,1,charged,0,z\n",
        rows: ["10,7,0,3,2", "3,3,0,0,1"],
        left: [true, false, false],
        free: [7, 3],
    },
];

const GOOD: &str = "0,0,0,no-credit,,\n1,1,1,charged,0,m\n2,0,0,bind-closed,,\n";

/// With or without references, of which the third message has none.
fn rest_by(alloc: Global, report: &[u8], refs: bool) -> Result<String, Fail> {
    let mut all = Vec::new(alloc);
    for reference in ["R-0", "say, \"R\""] {
        all.push(String::from_str(alloc, reference)?)?;
    }
    let mut out = Vec::new(alloc);
    match run_rest(
        alloc,
        b"",
        ACCOUNTS,
        MESSAGES.as_bytes(),
        None,
        report,
        if refs { Some(all.as_slice()) } else { None },
        &mut out,
    ) {
        Ok(()) => Ok(String::from_str(alloc, shown(out.as_slice()))?),
        Err(fault) => fault_text(alloc, fault),
    }
}

fn accounts_by(alloc: Global, report: &[u8]) -> Result<String, Fail> {
    let mut out = Vec::new(alloc);
    match run_rest_accounts(
        alloc,
        b"",
        ACCOUNTS,
        MESSAGES.as_bytes(),
        None,
        report,
        &mut out,
    ) {
        Ok(()) => Ok(String::from_str(alloc, shown(out.as_slice()))?),
        Err(fault) => fault_text(alloc, fault),
    }
}

fn shown(octets: &[u8]) -> &str {
    match std::str::from_utf8(octets) {
        Ok(text) => text,
        Err(_) => "no text",
    }
}

fn wanted(alloc: Global, left: [bool; 3], refs: bool) -> Result<String, AllocError> {
    let header = if refs { WITH_REFS } else { REST };
    let mut text = String::from_str(alloc, header)?;
    let records = [
        (left[0], FIRST, ",R-0\n"),
        (left[1], SECOND, ",\"say, \"\"R\"\"\"\n"),
        (left[2], THIRD, ",\n"),
    ];
    for (is_left, record, end) in records {
        if is_left {
            text.push_str(record.trim_end_matches('\n'))?;
            text.push_str(if refs { end } else { "\n" })?;
        }
    }
    Ok(text)
}

/// The report of a case.
fn report_of(alloc: Global, case: &Case) -> Result<String, AllocError> {
    let lines = case.lines;
    let [main, other] = case.rows;
    format!(in alloc; "{HEAD}{lines}{STATEMENT}main,{main}\n\"a, \"\"b\"\"\",{other}\n")
}

/// The accounts file that goes with it.
fn credits_of(alloc: Global, case: &Case) -> Result<String, AllocError> {
    let [main, other] = case.free;
    format!(in alloc; "account,credits\nmain,{main}\n\"a, \"\"b\"\"\",{other}\n")
}

#[test]
fn prints_the_messages_that_did_not_go_out(rt: HostRuntime) -> Result<(), Fail> {
    let alloc = rt.alloc();
    for case in &LEFT {
        let report = report_of(alloc, case)?;
        for refs in [false, true] {
            let got = rest_by(alloc, report.as_bytes(), refs)?;
            let text = wanted(alloc, case.left, refs)?;
            same(&rt, got.as_str(), text.as_str());
        }
        let accounts = accounts_by(alloc, report.as_bytes())?;
        let credits = credits_of(alloc, case)?;
        same(&rt, accounts.as_str(), credits.as_str());
    }
    Ok(())
}

/// Reports that are none of these messages and accounts, each with the record that shows it.
const FAULTY: [(&str, &str); 36] = [
    ("", "report record 1"),
    ("message,part,attempts,outcome,status\n", "report record 1"),
    (
        "message,part,attempts,outcome,status,id\n",
        "report record 2",
    ),
    ("H1,0,0,no-credit,,\n", "report record 2"),
    ("H0,2,0,unsent,,\n", "report record 2"),
    ("H0,0,1,no-credit,,\n", "report record 2"),
    ("H0,0,0,unsent,,\n", "report record 2"),
    ("H0,1,0,no-credit,,\n", "report record 2"),
    ("H0,1,0,sent,,\n", "report record 2"),
    ("H0,1,-1,unsent,,\n", "report record 2"),
    ("H0,1,0,unsent,x,\n", "report record 2"),
    ("H0,1,0,unsent,\n", "report record 2"),
    ("H0,1,0,unsent,,\n0,3,0,unsent,,\n", "report record 3"),
    ("H0,0,0,no-credit,,\n0,1,0,unsent,,\n", "report record 3"),
    ("H0,1,0,unsent,,\n2,0,0,no-credit,,\n", "report record 3"),
    ("HGS", "report record 6"),
    ("HG3,0,0,no-credit,,\n", "report record 5"),
    ("HGSmain,10,10,0,0,0\nother,3,2,0,1,0\n", "report record 7"),
    ("HGSmain,10,10,0,0\n", "report record 6"),
    ("HGSR0,1,0,unsent,,\n", "report record 8"),
    // A message that lacks a part, or has one too many.
    ("H0,1,0,unsent,,\n1,0,0,no-credit,,\n", "report record 3"),
    (
        "H0,1,0,unsent,,\n0,2,0,unsent,,\n0,3,0,unsent,,\n",
        "report record 4",
    ),
    (
        "H0,0,0,no-credit,,\n1,1,0,unsent,,\n1,2,0,unsent,,\n",
        "report record 4",
    ),
    (
        "H0,0,0,no-credit,,\n1,1,0,unsent,,\n2,1,0,unsent,,\n2,2,0,unsent,,\nSR",
        "report record 6",
    ),
    // Credits that the account didn't open with, and such as are lost, made up, or come round.
    ("HGSmain,11,11,0,0,0\n", "report record 6"),
    ("HGSmain,10,9,0,0,0\n", "report record 6"),
    ("HGSmain,10,99,0,0,0\n", "report record 6"),
    (
        "HGSmain,10,18446744073709551615,1,10,0\n",
        "report record 6",
    ),
    // Rows that balance and aren't the sums of the parts.
    ("HGSmain,10,9,0,1,0\n", "report record 6"),
    ("HGSmain,10,9,1,0,0\n", "report record 6"),
    ("HGSmain,10,10,0,0,1\n", "report record 6"),
    (
        "HGSmain,10,10,0,0,0\n\"a, \"\"b\"\"\",3,3,0,0,0\n",
        "report record 7",
    ),
    (
        "HGSmain,10,10,0,0,0\n\"a, \"\"b\"\"\",3,2,1,0,0\n",
        "report record 7",
    ),
    // A charged message whose second part has no line, and a message that has two.
    ("H0,1,1,charged,0,m\n1,1,1,charged,0,m\n", "report record 3"),
    ("H0,0,0,no-credit,,\n0,0,0,no-credit,,\n", "report record 3"),
    ("H0,1,0,unsent,,\n0,1,0,unsent,,\n", "report record 3"),
];

/// Lines that no part and no message of a run can have; the first message is admitted and sent in two parts, at
/// most three times.
const FORGED: [&str; 25] = [
    "0,1,0,charged,0,m",
    "0,1,1,charged,1,m",
    "0,1,1,charged,,",
    "0,1,0,refused,88,",
    "0,1,1,refused,,",
    "0,1,0,unanswered,,",
    "0,1,1,unanswered,88,",
    "0,1,1,unanswered,0,m",
    "0,1,1,unsent,,",
    "0,1,1,unsent,88,",
    "0,1,0,unsent,88,",
    "0,1,4,charged,0,m",
    "0,1,4,refused,88,",
    "0,1,4,unanswered,,",
    "0,1,1,unanswered,,m",
    "0,1,0,unsent,,m",
    "0,1,1,charged,0,a b",
    "0,1,1,charged,0,12345678901234567890123456789012345678901234567890123456789012345",
    "0,0,0,no-account,,",
    "0,0,0,bad-address,,",
    "0,0,0,too-long,,",
    "0,0,0,no-credit,0,",
    "0,0,0,no-credit,,m",
    "0,0,1,bind-closed,,",
    "0,0,0,charged,0,m",
];

/// The report, of which letters stand for whole lines.
fn spelled(alloc: Global, short: &str) -> Result<String, AllocError> {
    let mut text = String::new(alloc);
    for c in short.chars() {
        match c {
            'H' => text.push_str(HEAD)?,
            'G' => text.push_str(GOOD)?,
            'S' => text.push_str(STATEMENT)?,
            'R' => text.push_str(ROWS)?,
            _ => text.push(c)?,
        }
    }
    Ok(text)
}

#[test]
fn tells_the_first_record_that_is_none_of_a_report(rt: HostRuntime) -> Result<(), Fail> {
    let alloc = rt.alloc();
    for (short, fault) in FAULTY {
        let report = spelled(alloc, short)?;
        let got = rest_by(alloc, report.as_bytes(), false)?;
        same(&rt, got.as_str(), fault);
        let accounts = accounts_by(alloc, report.as_bytes())?;
        same(&rt, accounts.as_str(), fault);
    }
    Ok(())
}

#[test]
fn refuses_a_line_that_no_run_prints(rt: HostRuntime) -> Result<(), Fail> {
    let alloc = rt.alloc();
    for line in FORGED {
        let report = format!(in alloc; "{HEAD}{line}\n")?;
        let got = rest_by(alloc, report.as_bytes(), false)?;
        same(&rt, got.as_str(), "report record 2");
    }
    Ok(())
}

/// Messages of which only the last may be sent; it costs four credits of an account that has five.
const REFUSED: &[u8] =
    b"account,source,destination,text\nnobody,1,44,hi\nmain,1,abc,hi\nmain,1,44,hi\nmain,1,44,hi\n";

/// Lines of these messages, and what is said of the report that begins so.
const REASONS: [(&str, &str); 12] = [
    (
        "0,0,0,no-account,,\n1,0,0,bad-address,,\n2,1,1,charged,0,m\n",
        "report record 5",
    ),
    (
        "0,0,0,bind-closed,,\n1,0,0,bind-closed,,\n",
        "report record 4",
    ),
    ("0,0,0,bad-address,,\n", "report record 2"),
    ("0,0,0,no-credit,,\n", "report record 2"),
    ("0,0,0,out-of-memory,,\n", "report record 2"),
    ("0,1,1,charged,0,m\n", "report record 2"),
    (
        "0,0,0,no-account,,\n1,0,0,no-account,,\n",
        "report record 3",
    ),
    ("0,0,0,no-account,,\n1,0,0,no-credit,,\n", "report record 3"),
    (
        "0,0,0,no-account,,\n1,0,0,out-of-memory,,\n",
        "report record 3",
    ),
    ("0,0,0,no-account,,\n1,1,0,unsent,,\n", "report record 3"),
    // More is charged, or reserved, than the account has.
    (
        "0,0,0,no-account,,\n1,0,0,bad-address,,\n2,1,1,charged,0,m\n3,1,1,charged,0,m\n",
        "report record 5",
    ),
    (
        "0,0,0,no-account,,\n1,0,0,bad-address,,\n2,1,1,charged,0,m\n3,1,1,unanswered,,\n",
        "report record 5",
    ),
];

/// What is said of a report of these messages.
fn said_of(alloc: Global, report: &[u8]) -> Result<String, Fail> {
    let mut out = Vec::new(alloc);
    let said = run_rest(
        alloc,
        b"attempts = 1\n",
        b"account,credits\nmain,5\n",
        REFUSED,
        Some(b"prefix,credits\n44,4\n"),
        report,
        None,
        &mut out,
    );
    match said {
        Ok(()) => Ok(String::from_str(alloc, "taken")?),
        Err(fault) => fault_text(alloc, fault),
    }
}

#[test]
fn refuses_a_reason_or_a_charge_that_the_files_rule_out(rt: HostRuntime) -> Result<(), Fail> {
    let alloc = rt.alloc();
    for (lines, fault) in REASONS {
        let report = format!(in alloc; "{HEAD}{lines}")?;
        let got = said_of(alloc, report.as_bytes())?;
        same(&rt, got.as_str(), fault);
    }
    Ok(())
}
