//! Names of accounts, of payments and of runs.

ghost use Rattle.std.specs.Prelude.{◌≡◌, ◌<◌, true, take, All, ◌++◌, ◌∷◌, [], IfOk, OnOk, length, string_bytes};
ghost use Rattle.std.specs.List.{list_all};
ghost use Rattle.sms_ledger.specs.declared.name.RunAccount.{RunAccount as TheRunAccount};
ghost use Rattle.sms_ledger.specs.Names.{IsName, IsRun, is_hex as hex, is_name as name, is_run as named_run, name_said, octets_text, run_said};

use crate::escape::{is_escaped, is_hex, spelled};
use sms_files::memory::{self, NoMemory};
use std::alloc::Global;
use std::marker::Model;

/// The greatest length of an account's or a payment's name.
const LONGEST: usize = 192;

/// How many digits a run's name has.
const DIGITS: usize = 32;

fn are_hex(text: &[u8]) -> bool
    ensures { result ≡ list_all hex text.now }
{
    text.iter().all(|octet| is_hex(*octet))
}

fn is_name(text: &[u8]) -> bool
    ensures { result ≡ name text.now }
{
    text.len() != 0 && (text.len() <= LONGEST && is_escaped(text))
}

fn is_run(text: &[u8]) -> bool
    ensures { result ≡ named_run text.now }
{
    text.len() == DIGITS && are_hex(text)
}

/// The text of ASCII characters.
fn ascii_text(alloc: Global, octets: &[u8]) -> Result<String, NoMemory>
    requires { All (λ c. c < 128) octets.now }
    ensures { IfOk result (λ text. string_bytes text ≡ octets.now) }
{
    match str::from_utf8(octets) {
        Ok(text) => memory::text_of(alloc, text),
        Err(_error) => unreachable!(),
    }
}

/// The name of an account or of a payment: 1 to 192 characters, which spell its octets as a journal
/// does. Contracts see the characters.
#[derive(Debug, Drop)]
pub struct Name {
    text: String,
}

impl Model for Name {
    ghost use Rattle.std.specs.Prelude.{List, ℕ, string_bytes};
    ghost use Rattle.sms_ledger.specs.Names.{IsName};

    ghost Value = { List ℕ };

    ghost view = { λ n. string_bytes n.text };

    ghost invariant = { λ n. IsName (string_bytes n.text) };
}

impl Name {
    /// The name that the octets spell, if they do.
    pub fn read(alloc: Global, octets: &[u8]) -> Result<Option<Name>, NoMemory>
        ensures { IfOk result (λ name. name ≡ name_said octets.now) }
    {
        if !is_name(octets) {
            return Ok(None);
        }
        let text = ascii_text(alloc, octets)?;
        Ok(Some(Name { text }))
    }

    /// The name that has these octets, as a messages file has them, if there are any and its spelling
    /// isn't too long.
    pub fn of(alloc: Global, octets: &[u8]) -> Result<Option<Name>, NoMemory>
        ensures { IfOk result (λ name. name ≡ name_said (octets_text octets.now)) }
    {
        let text = spelled(alloc, octets)?;
        Name::read(alloc, text.as_bytes())
    }

    pub fn as_str(&self) -> &str
        ensures same { result.now ≡ self.now }
        ensures good { IsName self.now }
    {
        self.text.as_str()
    }

    pub(crate) fn into_text(self) -> String
        ensures { string_bytes result ≡ self }
    {
        let Name { text } = self;
        text
    }

    pub fn copy(&self, alloc: Global) -> Result<Name, NoMemory>
        ensures { IfOk result (λ name. name ≡ self.now) }
    {
        let text = memory::text_of(alloc, self.text.as_str())?;
        Ok(Name { text })
    }
}

/// The name of a run: 32 hexadecimal digits. Contracts see them.
#[derive(Drop)]
pub struct Run {
    text: String,
}

impl Model for Run {
    ghost use Rattle.std.specs.Prelude.{List, ℕ, string_bytes};
    ghost use Rattle.sms_ledger.specs.Names.{IsRun};

    ghost Value = { List ℕ };

    ghost view = { λ n. string_bytes n.text };

    ghost invariant = { λ n. IsRun (string_bytes n.text) };
}

impl Run {
    /// The run's name that the octets spell, if they do.
    pub fn read(alloc: Global, octets: &[u8]) -> Result<Option<Run>, NoMemory>
        ensures { IfOk result (λ run. run ≡ run_said octets.now) }
    {
        if !is_run(octets) {
            return Ok(None);
        }
        let text = ascii_text(alloc, octets)?;
        Ok(Some(Run { text }))
    }

    pub fn as_str(&self) -> &str
        ensures same { result.now ≡ self.now }
        ensures good { IsRun self.now }
    {
        self.text.as_str()
    }

    pub fn copy(&self, alloc: Global) -> Result<Run, NoMemory>
        ensures { IfOk result (λ name. name ≡ self.now) }
    {
        let text = memory::text_of(alloc, self.text.as_str())?;
        Ok(Run { text })
    }
}

/// A run, and an account of which it takes credits.
#[derive(Drop)]
pub struct RunAccount {
    pub run: Run,
    pub account: Name,
}

impl RunAccount {
    pub fn of(alloc: Global, run: &Run, account: &Name) -> Result<RunAccount, NoMemory>
        ensures { IfOk result (λ of. of ≡ record { run = run.now; account = account.now }) }
    {
        Ok(RunAccount {
            run: run.copy(alloc)?,
            account: account.copy(alloc)?,
        })
    }

    pub fn copy(&self, alloc: Global) -> Result<RunAccount, NoMemory>
        ensures { IfOk result (λ of. of ≡ self.now) }
    {
        RunAccount::of(alloc, &self.run, &self.account)
    }
}
