//! What a fault says of a record and of a key: what is wrong, where, and with which value.

use super::same::same;
use sms_files::{
    ConfigValue, Flaw, InputFault, RecordFlaw, Source, read_accounts, read_input, read_schedule,
    read_texts, setup_of,
};
use std::alloc::Global;
use std::process::Abort;

// A file, and of its fault the record, its flaw, its line (0 for none) and the value.
type Flawed = (Source, &'static [u8], usize, Flaw, u64, &'static [u8]);

const FLAWED_ACCOUNTS: [Flawed; 12] = [
    (Source::Accounts, b"", 1, Flaw::Missing, 0, b""),
    (
        Source::Accounts,
        b"account,credits\n",
        2,
        Flaw::Missing,
        0,
        b"",
    ),
    (
        Source::Accounts,
        b"account;credits\na;1\n",
        1,
        Flaw::Header,
        1,
        b"account;credits",
    ),
    (
        Source::Accounts,
        b"account,credit\n",
        1,
        Flaw::Header,
        1,
        b"account,credit",
    ),
    (
        Source::Accounts,
        b"account,credits\na,1,\n",
        2,
        Flaw::Fields(3),
        2,
        b"a,1,",
    ),
    (
        Source::Accounts,
        b"account,credits\n\xff,1\n",
        2,
        Flaw::NotText(1),
        2,
        b"\xff",
    ),
    (
        Source::Accounts,
        b"account,credits\na,1099511627777\n",
        2,
        Flaw::NotNumber(2),
        2,
        b"1099511627777",
    ),
    // Lines end in a carriage return, too.
    (
        Source::Accounts,
        b"account,credits\r\na,1\r\nb,10.00\r\n",
        3,
        Flaw::NotNumber(2),
        3,
        b"10.00",
    ),
    // A record has two lines, and lines are empty.
    (
        Source::Accounts,
        b"account,credits\n\n\"a\nb\",1\n\nc,\"1,000\"\n",
        3,
        Flaw::NotNumber(2),
        6,
        b"1,000",
    ),
    // The same, and the last line has no end.
    (
        Source::Accounts,
        b"account,credits\n\n\"a\nb\",1\n\nc,\"1,000\"",
        3,
        Flaw::NotNumber(2),
        6,
        b"1,000",
    ),
    (
        Source::Accounts,
        b"account,credits\na,1\nb,1\na,2\n",
        4,
        Flaw::Taken(2),
        4,
        b"a",
    ),
    (
        Source::Accounts,
        b"account,credits\naccount,1\nb,1\naccount,2\n",
        4,
        Flaw::Taken(2),
        4,
        b"account",
    ),
];

const FLAWED_MESSAGES: [Flawed; 4] = [
    (
        Source::Messages,
        b"account,source,destination\n",
        1,
        Flaw::Header,
        1,
        b"account,source,destination",
    ),
    (
        Source::Messages,
        b"account,source,destination,text\na,1,2\n",
        2,
        Flaw::Fields(3),
        2,
        b"a,1,2",
    ),
    (
        Source::Messages,
        b"account,source,destination,text\na,1,\xff,b\xff\n",
        2,
        Flaw::NotText(3),
        2,
        b"\xff",
    ),
    (
        Source::Messages,
        b"account,source,destination,text\r\na,1,2,\"b\r\nc\"\r\na,1,2,\xfe",
        3,
        Flaw::NotText(4),
        4,
        b"\xfe",
    ),
];

const FLAWED_RATES: [Flawed; 6] = [
    (
        Source::Tariff,
        b"prefix,credits\n37x,1\n",
        2,
        Flaw::NotDigits(1),
        0,
        b"37x",
    ),
    (
        Source::Tariff,
        b"prefix,credits\n012345678901234567890,1\n",
        2,
        Flaw::NotDigits(1),
        0,
        b"012345678901234567890",
    ),
    (
        Source::Tariff,
        b"prefix,credits\n,0\n",
        2,
        Flaw::NotNumber(2),
        0,
        b"0",
    ),
    (
        Source::Tariff,
        b"prefix,credits\n37,1001\n",
        2,
        Flaw::NotNumber(2),
        0,
        b"1001",
    ),
    (
        Source::Tariff,
        b"prefix,credits\n37,1\n38x,no\n",
        3,
        Flaw::NotNumber(2),
        3,
        b"no",
    ),
    (
        Source::Tariff,
        b"prefix,credits\n,1\n37,1\n37,2\n",
        4,
        Flaw::Taken(3),
        0,
        b"37",
    ),
];

const FLAWED_SCHEDULES: [Flawed; 9] = [
    (Source::Schedule, b"", 1, Flaw::Missing, 0, b""),
    (
        Source::Schedule,
        b"worlds,1,1,1\n",
        1,
        Flaw::Word,
        1,
        b"worlds",
    ),
    (
        Source::Schedule,
        b"world,1,65,1\n",
        1,
        Flaw::NotNumber(3),
        1,
        b"65",
    ),
    (
        Source::Schedule,
        b"world,1,1\n",
        1,
        Flaw::Fields(3),
        1,
        b"world,1,1",
    ),
    (
        Source::Schedule,
        b"world,1,1,1\nclaims,x\n",
        2,
        Flaw::Word,
        2,
        b"claims",
    ),
    (
        Source::Schedule,
        b"world,1,1,1\nclaim,1\n",
        2,
        Flaw::Fields(2),
        2,
        b"claim,1",
    ),
    (
        Source::Schedule,
        b"world,1,1,1\nrespond,1,0,2\n",
        2,
        Flaw::NotNumber(4),
        2,
        b"2",
    ),
    (
        Source::Schedule,
        b"world,1,1,1\ndiscard,-1\n",
        2,
        Flaw::NotNumber(2),
        2,
        b"-1",
    ),
    (
        Source::Schedule,
        b"world,1,1,1\nrelease,1,x\n",
        2,
        Flaw::NotNumber(3),
        2,
        b"x",
    ),
];

const ACCOUNTS: &[u8] = b"account,credits\na,1\n";

const MESSAGES: &[u8] = b"account,source,destination,text\na,1,2,b\n";

// The fault of a file of this source.
fn fault_of(alloc: Global, source: Source, octets: &[u8]) -> Option<InputFault> {
    match source {
        Source::Accounts => read_accounts(alloc, octets).err(),
        Source::Messages => read_texts(alloc, octets).err(),
        Source::Schedule => read_schedule(alloc, octets).err(),
        Source::Tariff => read_input(alloc, b"", ACCOUNTS, MESSAGES, Some(octets)).err(),
    }
}

// What it says of its record.
fn detail_of(rt: &impl Abort, fault: Option<InputFault>, source: Source) -> (usize, RecordFlaw) {
    match fault {
        Some(InputFault::BadRecord(named, place, detail)) => {
            same(rt, named, source);
            (place, detail)
        }
        _ => panic!(rt; "the fault is of no record"),
    }
}

fn want_flawed(rt: &(impl AllocGlobal + Abort), flawed: &Flawed) {
    let (source, octets, place, flaw, line, value) = *flawed;
    let (number, detail) = detail_of(rt, fault_of(rt.alloc(), source, octets), source);
    same(rt, number, place);
    same(rt, detail.flaw, flaw);
    same(rt, detail.line.unwrap_or(0), line);
    same(rt, detail.value.as_slice(), value);
}

#[test]
fn says_what_is_wrong_with_a_record(rt: HostRuntime) {
    for flawed in &FLAWED_ACCOUNTS {
        want_flawed(&rt, flawed);
    }
    for flawed in &FLAWED_MESSAGES {
        want_flawed(&rt, flawed);
    }
    for flawed in &FLAWED_RATES {
        want_flawed(&rt, flawed);
    }
    for flawed in &FLAWED_SCHEDULES {
        want_flawed(&rt, flawed);
    }
}

// What stands at the key of a config's fault, as a number and a text.
fn shown(alloc: Global, value: ConfigValue) -> (u32, i64, String) {
    let none = String::new(alloc);
    match value {
        ConfigValue::Missing => (0, 0, none),
        ConfigValue::Number(number) => (1, number, none),
        ConfigValue::Flag(flag) => (2, i64::from(flag), none),
        ConfigValue::Text(text) => (3, 0, text),
        ConfigValue::Hidden(is_text) => (4, i64::from(is_text), none),
        ConfigValue::Texts => (5, 0, none),
        ConfigValue::BadText(number, text) => (6, i64::try_from(number).unwrap_or(-1), text),
        ConfigValue::Values => (7, 0, none),
        ConfigValue::Table => (8, 0, none),
        ConfigValue::Else => (9, 0, none),
    }
}

// A config whose only fault is of a key with this value.
fn want_value(rt: &(impl AllocGlobal + Abort), config: &[u8], kind: u32, number: i64, text: &str) {
    let value = match setup_of(rt.alloc(), config) {
        Err(InputFault::BadKey(_key, value)) => value,
        _ => panic!(rt; "the fault is of no key"),
    };
    let (k, n, t) = shown(rt.alloc(), value);
    same(rt, k, kind);
    same(rt, n, number);
    same(rt, t.as_str(), text);
}

#[test]
fn says_what_a_config_has_at_a_key(rt: HostRuntime) {
    want_value(&rt, b"port = -5\n", 1, -5, "");
    want_value(&rt, b"port = true\n", 2, 1, "");
    want_value(&rt, b"port = \"a\\u00e9\"\n", 3, 0, "a\u{e9}");
    want_value(&rt, b"system_id = 1.5\n", 9, 0, "");
    want_value(&rt, b"answers = [\"silent\", \"cuts\"]\n", 6, 2, "cuts");
    want_value(&rt, b"binds = [\"cut\"]\n", 5, 0, "");
    want_value(&rt, b"window = [1]\n", 7, 0, "");
    want_value(&rt, b"[mode]\n", 8, 0, "");
    want_value(&rt, b"prot = 2775\n", 1, 2775, "");
}

#[test]
fn says_of_a_password_only_whether_it_is_a_text(rt: HostRuntime) {
    want_value(&rt, b"password = 12345678\n", 4, 0, "");
    want_value(&rt, b"password = \"123456789\"\n", 4, 1, "");
}

// The line and the cause of a config that is no TOML.
fn want_cause(rt: &(impl AllocGlobal + Abort), config: &[u8], line: usize, cause: &str) {
    match setup_of(rt.alloc(), config) {
        Err(InputFault::NotToml(why)) => {
            same(rt, why.line(), line);
            same(rt, why.cause(), cause);
        }
        _ => panic!(rt; "the config is TOML"),
    }
}

#[test]
fn says_where_a_config_is_no_toml(rt: HostRuntime) {
    want_cause(&rt, b"port = 1\nhost = \xff\n", 2, "not UTF-8");
    want_cause(&rt, b"port = 1\nport = 2\n", 2, "duplicate key");
}
