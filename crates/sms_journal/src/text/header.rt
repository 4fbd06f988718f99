//! The first line of a journal: its kind, and the digests of the run's files.

ghost use Rattle.std.specs.Prelude.{◌≡◌, ◌++◌, ◌<◌, OnOk, string_bytes};
ghost use Rattle.sms_journal.specs.Text.{digest_field, header_text, hex_digit as digit_of, hex_octet, hex_text, kind_word as word_of_kind, number_field, tariff_field, tie_text};

use sms_files::memory::{self, NoMemory};

/// What of a config a run's report is computed by.
#[derive(Clone, Copy, Debug, PartialEq, Eq)]
pub struct ReportKeys {
    /// How often a part is sent at most, 1 to 10.
    pub attempts: u32,
    /// Whether the references of concatenated messages have 16 bits.
    pub long_reference: bool,
    /// Binds of the first round, 1 to 4.
    pub binds: u32,
    /// Workers of each of them, 1 to 8.
    pub workers: u32,
}

/// What a journal is tied to of its run's config.
#[derive(Clone, Copy, Debug, PartialEq, Eq)]
pub enum ConfigTie {
    /// The SHA-256 digest (FIPS 180-4) of its octets (`journal,1`).
    Octets([u8; 32]),
    /// What a report is computed by, and nothing else (`journal,2`): the other keys may be changed between rounds.
    Keys(ReportKeys),
}

/// What a journal is tied to: of the config, and the SHA-256 digests (FIPS 180-4) of the run's other files.
#[derive(Clone, Copy, Debug, PartialEq, Eq)]
pub struct Digests {
    pub config: ConfigTie,
    pub accounts: [u8; 32],
    pub messages: [u8; 32],
    /// That of the tariff, where there is one.
    pub tariff: Option<[u8; 32]>,
}

/// The kind of a journal.
#[derive(Clone, Copy, Debug, PartialEq, Eq)]
pub enum JournalKind {
    /// A run: its requests were sent to message centres.
    Run,
    /// A trial: no message centre received anything.
    Trial,
}

/// The word that a journal begins with.
fn kind_word(kind: JournalKind) -> &'static str
    ensures { result.now ≡ word_of_kind kind }
{
    match kind {
        JournalKind::Run => "journal",
        JournalKind::Trial => "trial",
    }
}

/// A hexadecimal digit.
fn hex_digit(digit: u8) -> u8
    requires { digit < 16 }
    ensures digit { result ≡ digit_of digit }
    ensures ascii { result < 128 }
{
    if digit < 10 { 48 + digit } else { 87 + digit }
}

/// Writes an octet in two hexadecimal digits.
pub(crate) fn write_hex_octet(text: &mut String, octet: u8) -> Result<(), NoMemory>
    ensures { OnOk result (string_bytes text.new ≡ string_bytes text.old ++ hex_octet octet) }
{
    memory::append_char(text, char::from(hex_digit(octet / 16)))?;
    memory::append_char(text, char::from(hex_digit(octet % 16)))
}

/// Writes octets in hexadecimal digits.
pub(crate) fn write_hex(text: &mut String, octets: &[u8]) -> Result<(), NoMemory>
    ensures { OnOk result (string_bytes text.new ≡ string_bytes text.old ++ hex_text octets.now) }
{
    for octet in octets {
        write_hex_octet(text, *octet)?;
    }
    Ok(())
}

/// A comma and the digest after it.
fn write_digest(text: &mut String, digest: &[u8; 32]) -> Result<(), NoMemory>
    ensures { OnOk result (string_bytes text.new ≡ string_bytes text.old ++ digest_field digest.now) }
{
    memory::append(text, ",")?;
    write_hex(text, digest.as_slice())
}

/// The same of a file that there may be.
fn write_tariff(text: &mut String, digest: &Option<[u8; 32]>) -> Result<(), NoMemory>
    ensures { OnOk result (string_bytes text.new ≡ string_bytes text.old ++ tariff_field digest.now) }
{
    match digest {
        Some(digest) => write_digest(text, digest),
        None => memory::append(text, ","),
    }
}

/// A comma and the number after it.
fn write_field(text: &mut String, number: u32) -> Result<(), NoMemory>
    ensures { OnOk result (string_bytes text.new ≡ string_bytes text.old ++ number_field number) }
{
    memory::append_number(text, ",", u64::from(number))
}

/// The version, and what the journal is tied to of its run's config.
fn write_tie(text: &mut String, tie: &ConfigTie) -> Result<(), NoMemory>
    ensures { OnOk result (string_bytes text.new ≡ string_bytes text.old ++ tie_text tie.now) }
{
    match tie {
        ConfigTie::Octets(digest) => {
            memory::append(text, ",1")?;
            write_digest(text, digest)
        }
        ConfigTie::Keys(keys) => {
            memory::append(text, ",2")?;
            write_field(text, keys.attempts)?;
            write_field(text, u32::from(keys.long_reference))?;
            write_field(text, keys.binds)?;
            write_field(text, keys.workers)
        }
    }
}

/// Writes the first line of a journal of this kind.
pub fn write_header(text: &mut String, kind: JournalKind, digests: &Digests) -> Result<(), NoMemory>
    ensures { OnOk result (string_bytes text.new ≡ string_bytes text.old ++ header_text kind digests.now) }
{
    memory::append(text, kind_word(kind))?;
    write_tie(text, &digests.config)?;
    write_digest(text, &digests.accounts)?;
    write_digest(text, &digests.messages)?;
    write_tariff(text, &digests.tariff)?;
    memory::append(text, "\n")
}
