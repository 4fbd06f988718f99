//! The header read: a journal's kind, and the digests of the run's files.

ghost use Rattle.std.specs.Prelude.{◌≡◌, ◌≢◌, ℕ, ◌+◌, ◌++◌, ◌<◌, List, IfOk, MatchOption, None, Some, length};
ghost use Rattle.sms_journal.specs.declared.text.header.Digests.{Digests as TheDigests};
ghost use Rattle.sms_journal.specs.declared.text.header.JournalKind.{JournalKind as TheKind};
ghost use Rattle.sms_journal.specs.Digests.{AreDigests};
ghost use Rattle.sms_journal.specs.Heads.{behind_keys, digest_in as digest_said, digests_in as digests_said, head_in as head_said, keys_in as keys_said, kind_in as kind_said, likely as likely_said, octet_at as octet_said, tariff_in as tariff_said, tie_in as tie_said};
ghost use Rattle.sms_journal.specs.Text.{header_text};

use crate::text::header::{ConfigTie, Digests, JournalKind, ReportKeys, write_header};
use crate::text::note_fields::{cut, digit_in, flag_in, u32_in};
use sms_files::memory::NoMemory;

/// What follows `front`, where the text begins with it.
pub(crate) fn behind<'a>(text: &'a [u8], front: &[u8]) -> Option<&'a [u8]>
    ensures { MatchOption result ((rest : List ℕ) → text.now ≢ front.now ++ rest) (λ rest. text.now ≡ front.now ++ rest.now) }
{
    if text.len() < front.len() {
        return None;
    }
    let (start, rest) = text.split_at(front.len());
    if start == front { Some(rest) } else { None }
}

/// The octet whose two digits stand in the field at this place.
fn octet_at(field: &[u8], place: usize) -> u8
    requires { place + place + 1 < length field.now }
    ensures { result ≡ octet_said field.now place }
{
    digit_in(field[place + place]) * 16 + digit_in(field[place + place + 1])
}

/// The digest whose digits a field is, if it has as many.
#[tactic(auto, unfolding(crate::specs::Heads::digest_in))]
fn digest_in(field: &[u8]) -> Option<[u8; 32]>
    ensures { result ≡ digest_said field.now }
{
    if field.len() != 64 {
        return None;
    }
    let mut digest = [0; 32];
    for place in 0..32 {
        digest[place] = octet_at(field, place);
    }
    Some(digest)
}

/// The digest of the tariff; an empty field where the run had none.
fn tariff_in(field: &[u8]) -> Option<Option<[u8; 32]>>
    ensures { result ≡ tariff_said field.now }
{
    if field.is_empty() {
        return Some(None);
    }
    Some(Some(digest_in(field)?))
}

/// Keys that a config can have.
fn likely(keys: ReportKeys) -> Option<ReportKeys>
    ensures { result ≡ likely_said keys }
{
    if (keys.attempts >= 1 && keys.attempts <= 10)
        && ((keys.binds >= 1 && keys.binds <= 4) && (keys.workers >= 1 && keys.workers <= 8))
    {
        Some(keys)
    } else {
        None
    }
}

/// The keys of a header, and what follows them.
fn keys_in(text: &[u8]) -> (Option<ReportKeys>, &[u8])
    ensures keys { result.0 ≡ keys_said text.now }
    ensures rest { result.1.now ≡ behind_keys text.now }
{
    let (attempts, rest) = cut(text);
    let (long_reference, rest) = cut(rest);
    let (binds, rest) = cut(rest);
    let (workers, rest) = cut(rest);
    match (u32_in(attempts), u32_in(binds), u32_in(workers)) {
        (Some(attempts), Some(binds), Some(workers)) => {
            let keys = ReportKeys {
                attempts,
                long_reference: flag_in(long_reference),
                binds,
                workers,
            };
            (likely(keys), rest)
        }
        _ => (None, rest),
    }
}

/// What the header of this version says that its journal is tied to of the config, and what follows that.
fn tie_in<'a>(version: &[u8], text: &'a [u8]) -> Option<(ConfigTie, &'a [u8])>
    ensures { MatchOption result (tie_said version.now text.now ≡ None) (λ found. tie_said version.now text.now ≡ Some (found.0, found.1.now)) }
{
    if version == b"1".as_slice() {
        let (digest, rest) = cut(text);
        return match digest_in(digest) {
            Some(digest) => Some((ConfigTie::Octets(digest), rest)),
            None => None,
        };
    }
    if version == b"2".as_slice() {
        let (keys, rest) = keys_in(text);
        return match keys {
            Some(keys) => Some((ConfigTie::Keys(keys), rest)),
            None => None,
        };
    }
    None
}

/// What a header says that its journal is tied to.
fn digests_in(version: &[u8], text: &[u8]) -> Option<Digests>
    ensures { result ≡ digests_said version.now text.now }
{
    let (config, rest) = tie_in(version, text)?;
    let (accounts, rest) = cut(rest);
    let (messages, rest) = cut(rest);
    let (tariff, _rest) = cut(rest);
    let accounts = digest_in(accounts)?;
    let messages = digest_in(messages)?;
    let tariff = tariff_in(tariff)?;
    Some(Digests {
        config,
        accounts,
        messages,
        tariff,
    })
}

fn kind_in(word: &[u8]) -> Option<JournalKind>
    ensures { result ≡ kind_said word.now }
{
    if word == b"journal".as_slice() {
        return Some(JournalKind::Run);
    }
    if word == b"trial".as_slice() {
        return Some(JournalKind::Trial);
    }
    None
}

/// The fields of a header, if the text begins with one.
fn head_in(text: &[u8]) -> Option<(JournalKind, Digests)>
    ensures { result ≡ head_said text.now }
{
    let (word, rest) = cut(text);
    let (version, rest) = cut(rest);
    let kind = kind_in(word)?;
    let digests = digests_in(version, rest)?;
    Some((kind, digests))
}

/// A header, and what follows it.
#[derive(Clone, Copy)]
pub(crate) struct Head<'a> {
    pub(crate) kind: JournalKind,
    pub(crate) digests: Digests,
    pub(crate) rest: &'a [u8],
}

/// The header that a text begins with, whatever files it is of. What was read is written again and compared.
pub(crate) fn read_head<'a>(
    header: &mut String,
    text: &'a [u8],
) -> Result<Option<Head<'a>>, NoMemory>
    ensures { IfOk result (λ read. MatchOption read
        ((kind : TheKind) (digests : TheDigests) (behind : List ℕ) → AreDigests digests → text.now ≢ header_text kind digests ++ behind)
        (λ head. AreDigests head.digests × (text.now ≡ header_text head.kind head.digests ++ head.rest.now))) }
{
    let Some((kind, digests)) = head_in(text) else {
        return Ok(None);
    };
    header.clear();
    write_header(header, kind, &digests)?;
    match behind(text, header.as_bytes()) {
        Some(rest) => Ok(Some(Head {
            kind,
            digests,
            rest,
        })),
        None => Ok(None),
    }
}
