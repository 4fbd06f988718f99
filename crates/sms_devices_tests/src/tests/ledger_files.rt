//! The files of ledgers: how they are opened and read, and what an append leaves wherever its device fails.

ghost use Rattle.std.specs.Prelude.{◌≡◌};

use super::same::same;
use sms_devices::{HeldFile, LedgerFailure, LedgerFiles, LedgerKind, append_text};
use std::alloc::Global;
use std::fs;
use std::io::ErrorKind;
use std::process::Abort;
use std::rt::Files;
use std::test::Fail;

/// A ledger's file in memory, whose device fails at some of its steps: a write, once all was written.
#[derive(Drop)]
struct PaperLedger {
    text: Vec<u8>,
    /// How many steps were taken.
    steps: u32,
    /// Those at which it fails, counted from 1.
    fails: [u32; 2],
}

impl PaperLedger {
    // A file with these octets.
    fn new(alloc: Global, octets: &[u8], fails: [u32; 2]) -> Result<PaperLedger, Fail> {
        let mut text = Vec::new(alloc);
        text.extend_from_slice(octets)?;
        Ok(PaperLedger {
            text,
            steps: 0,
            fails,
        })
    }

    // Whether the next step fails.
    fn is_failing(&mut self) -> bool
        ensures { self.new.text ≡ self.old.text }
    {
        self.steps = self.steps.saturating_add(1);
        self.fails[0] == self.steps || self.fails[1] == self.steps
    }
}

impl HeldFile for PaperLedger {
    ghost use Rattle.std.specs.Prelude.{Some};

    ghost octets = { λ p. Some p.text.items };

    ghost stored = { λ p. Some p.text.items };

    fn read_whole(&self, alloc: Global) -> Result<Vec<u8>, LedgerFailure> {
        let mut text = Vec::new(alloc);
        match text.extend_from_slice(self.text.as_slice()) {
            Ok(()) => Ok(text),
            Err(_memory) => {
                drop(text);
                Err(LedgerFailure::Unread(ErrorKind::OutOfMemory))
            }
        }
    }

    fn cut(&mut self, size: usize) -> Result<(), ErrorKind> {
        if self.is_failing() {
            return Err(ErrorKind::Other);
        }
        self.text.truncate(size);
        Ok(())
    }

    fn write_whole(&mut self, text: &[u8]) -> Result<(), ErrorKind> {
        let is_failing = self.is_failing();
        match self.text.extend_from_slice(text) {
            Ok(()) => {
                if is_failing {
                    return Err(ErrorKind::StorageFull);
                }
                Ok(())
            }
            Err(_memory) => Err(ErrorKind::OutOfMemory),
        }
    }

    fn sync(&mut self) -> Result<(), ErrorKind> {
        if self.is_failing() {
            Err(ErrorKind::Other)
        } else {
            Ok(())
        }
    }

    fn close(self) {
        drop(self);
    }
}

/// What stood there, and how much of it are whole lines.
const BEFORE: &[u8] = b"ledger,1\npaid,1,a,5,\npaid,2,b";

const WHOLE: usize = 21;

/// The steps of an append that fail, what it answers, and what stands there then.
const APPENDS: [([u32; 2], Result<(), LedgerFailure>, &[u8]); 6] = [
    ([0, 0], Ok(()), b"ledger,1\npaid,1,a,5,\npaid,3,c,7,\n"),
    (
        [1, 0],
        Err(LedgerFailure::Unwritten(ErrorKind::Other)),
        BEFORE,
    ),
    (
        [2, 0],
        Err(LedgerFailure::Unwritten(ErrorKind::StorageFull)),
        b"ledger,1\npaid,1,a,5,\n",
    ),
    (
        [2, 3],
        Err(LedgerFailure::Torn(ErrorKind::StorageFull)),
        b"ledger,1\npaid,1,a,5,\npaid,3,c,7,\n",
    ),
    (
        [3, 0],
        Err(LedgerFailure::Unwritten(ErrorKind::Other)),
        b"ledger,1\npaid,1,a,5,\n",
    ),
    (
        [3, 4],
        Err(LedgerFailure::Torn(ErrorKind::Other)),
        b"ledger,1\npaid,1,a,5,\npaid,3,c,7,\n",
    ),
];

/// A line is appended behind the whole lines. Wherever that fails no part of it stays, but where it can't be cut off.
#[test]
fn appends_behind_whole_lines(rt: HostRuntime) -> Result<(), Fail> {
    let alloc = rt.alloc();
    for (fails, wanted, left) in APPENDS {
        let mut file = PaperLedger::new(alloc, BEFORE, fails)?;
        let appended = append_text(&mut file, WHOLE, "paid,3,c,7,\n");
        same(&rt, appended, wanted);
        let octets = file.read_whole(alloc);
        file.close();
        match octets {
            Ok(octets) => same(&rt, octets.as_slice(), left),
            Err(_) => panic!(rt; "not read"),
        }
    }
    Ok(())
}

// All octets of the ledger of this name.
fn viewed<R: AllocGlobal + LedgerFiles + Abort>(rt: &R, name: &str) -> Vec<u8> {
    let file = match rt.view_ledger(name) {
        Ok(file) => file,
        Err(_) => panic!(rt; "no file"),
    };
    let octets = file.read_whole(rt.alloc());
    file.close();
    match octets {
        Ok(octets) => octets,
        Err(_) => panic!(rt; "not read"),
    }
}

// Appends a text behind the first octets of the ledger of this name, twice read before.
fn append_to<R: AllocGlobal + LedgerFiles + Abort>(rt: &R, name: &str, whole: usize, text: &str) {
    let mut file = match rt.open_ledger(name) {
        Ok(file) => file,
        Err(_) => panic!(rt; "no file"),
    };
    let first = file.read_whole(rt.alloc());
    let again = file.read_whole(rt.alloc());
    match (first, again) {
        (Ok(first), Ok(again)) => same(rt, first.as_slice(), again.as_slice()),
        _ => panic!(rt; "not read"),
    }
    let appended = append_text(&mut file, whole, text);
    file.close();
    same(rt, appended, Ok(()));
}

/// A ledger's file is made where it isn't there. What was truncated is cut off where more is appended.
#[test]
fn keeps_what_is_appended(rt: HostRuntime) {
    const NAME: &str = "ledger-of-a-test";
    let _removed = fs::remove_file(&rt, NAME);
    append_to(&rt, NAME, 0, "ledger,1\npai");
    same(
        &rt,
        viewed(&rt, NAME).as_slice(),
        b"ledger,1\npai".as_slice(),
    );
    append_to(&rt, NAME, 9, "paid\n");
    same(
        &rt,
        viewed(&rt, NAME).as_slice(),
        b"ledger,1\npaid\n".as_slice(),
    );
    assert!(rt; fs::remove_file(&rt, NAME).is_ok());
}

// Why no ledger of this name is opened to read it.
fn unviewed<R: LedgerFiles + Abort>(rt: &R, name: &str) -> LedgerFailure {
    match rt.view_ledger(name) {
        Ok(_file) => panic!(rt; "a file"),
        Err(why) => why,
    }
}

// And to append to it.
fn unopened<R: LedgerFiles + Abort>(rt: &R, name: &str) -> LedgerFailure {
    match rt.open_ledger(name) {
        Ok(_file) => panic!(rt; "a file"),
        Err(why) => why,
    }
}

// Nothing of this name is there to be read as a ledger.
fn want_missing<R: LedgerFiles + Abort>(rt: &R, name: &str) {
    let missing = LedgerFailure::Unopened(ErrorKind::NotFound);
    same(rt, unviewed(rt, name), missing);
}

// What has this name is no regular file.
fn want_no_file<R: LedgerFiles + Abort>(rt: &R, name: &str) {
    same(rt, unviewed(rt, name), LedgerFailure::NoFile);
    same(rt, unopened(rt, name), LedgerFailure::NoFile);
}

// The octets of the file of this name.
fn octets_of<R: AllocGlobal + Files + Abort>(rt: &R, name: &str) -> Vec<u8> {
    match fs::read(rt, name) {
        Ok(octets) => octets,
        Err(_) => panic!(rt; "not read"),
    }
}

// The ledger of this name is of this kind, or why it isn't.
fn of_kind<R: LedgerFiles>(
    rt: &R,
    name: &str,
    kind: LedgerKind,
    makes: bool,
) -> Result<(), LedgerFailure> {
    match rt.open_kind(name, kind, makes) {
        Ok(file) => {
            file.close();
            Ok(())
        }
        Err(why) => Err(why),
    }
}

// The ledger with these octets is of this kind alone, whether one may be made or not; and it has these then.
fn want_kind<R: AllocGlobal + Files + LedgerFiles + Abort>(
    rt: &R,
    octets: &[u8],
    kind: LedgerKind,
    then: &[u8],
) {
    const NAME: &str = "ledger-of-a-kind";
    let other = match kind {
        LedgerKind::Paid => LedgerKind::Trial,
        LedgerKind::Trial => LedgerKind::Paid,
    };
    for makes in [false, true] {
        assert!(rt; fs::write(rt, NAME, octets).is_ok());
        same(
            rt,
            of_kind(rt, NAME, other, makes),
            Err(LedgerFailure::OtherKind),
        );
        same(rt, octets_of(rt, NAME).as_slice(), octets);
        same(rt, of_kind(rt, NAME, kind, makes), Ok(()));
        same(rt, octets_of(rt, NAME).as_slice(), then);
    }
    assert!(rt; fs::remove_file(rt, NAME).is_ok());
}

/// A ledger is of one kind from its first octets on. A truncated line of trials gets its rest where more may be appended.
#[test]
fn tells_kinds_apart(rt: HostRuntime) {
    want_kind(&rt, b"ledger,1\n", LedgerKind::Paid, b"ledger,1\n");
    want_kind(&rt, b"led", LedgerKind::Paid, b"led");
    want_kind(&rt, b"trials", LedgerKind::Paid, b"trials");
    want_kind(&rt, b"t", LedgerKind::Trial, b"trial\n");
    want_kind(&rt, b"trial", LedgerKind::Trial, b"trial\n");
    want_kind(&rt, b"trial\nled", LedgerKind::Trial, b"trial\nled");
}

// It isn't of this kind.
fn want_other<R: LedgerFiles + Abort>(rt: &R, name: &str, kind: LedgerKind, makes: bool) {
    let other = Err(LedgerFailure::OtherKind);
    same(rt, of_kind(rt, name, kind, makes), other);
}

/// One that isn't there, or has nothing, becomes one of trials where it may be made so, and else never.
#[test]
fn begins_trials_where_nothing_is(rt: HostRuntime) {
    const NAME: &str = "new-trials-of-a-test";
    let _removed = fs::remove_file(&rt, NAME);
    for kind in [LedgerKind::Paid, LedgerKind::Trial] {
        let missing = Err(LedgerFailure::Unopened(ErrorKind::NotFound));
        same(&rt, of_kind(&rt, NAME, kind, false), missing);
    }
    same(&rt, of_kind(&rt, NAME, LedgerKind::Paid, true), Ok(()));
    want_other(&rt, NAME, LedgerKind::Trial, false);
    same(&rt, octets_of(&rt, NAME).as_slice(), b"".as_slice());
    same(&rt, of_kind(&rt, NAME, LedgerKind::Trial, true), Ok(()));
    same(&rt, of_kind(&rt, NAME, LedgerKind::Trial, true), Ok(()));
    want_other(&rt, NAME, LedgerKind::Paid, true);
    same(&rt, octets_of(&rt, NAME).as_slice(), b"trial\n".as_slice());
    assert!(rt; fs::remove_file(&rt, NAME).is_ok());
}

/// The line of trials isn't read or cut as the text behind it is.
#[test]
fn keeps_trials_apart(rt: HostRuntime) {
    const NAME: &str = "trials-of-a-test";
    assert!(rt; fs::write(&rt, NAME, b"trial\n").is_ok());
    append_to(&rt, NAME, 0, "ledger,1\npai");
    append_to(&rt, NAME, 9, "paid\n");
    let text = b"ledger,1\npaid\n".as_slice();
    same(&rt, viewed(&rt, NAME).as_slice(), text);
    let whole = b"trial\nledger,1\npaid\n".as_slice();
    same(&rt, octets_of(&rt, NAME).as_slice(), whole);
    assert!(rt; fs::write(&rt, NAME, b"tria").is_ok());
    same(&rt, viewed(&rt, NAME).as_slice(), b"".as_slice());
    same(&rt, octets_of(&rt, NAME).as_slice(), b"tria".as_slice());
    append_to(&rt, NAME, 0, "ledger,1\n");
    same(&rt, octets_of(&rt, NAME).as_slice(), &whole[..15]);
    assert!(rt; fs::remove_file(&rt, NAME).is_ok());
}

/// What is no regular file is no ledger; the system says why a file can't be made.
#[test]
fn opens_regular_files_alone(rt: HostRuntime) {
    want_no_file(&rt, ".");
    want_no_file(&rt, "/dev/null");
    want_missing(&rt, "no-ledger-of-a-test");
    want_missing(&rt, "no-folder-of-a-test/ledger");
    let why = unopened(&rt, "no-folder-of-a-test/ledger");
    same(&rt, why, LedgerFailure::Unopened(ErrorKind::NotFound));
}
