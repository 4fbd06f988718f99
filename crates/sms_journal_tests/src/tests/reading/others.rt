//! Journals of other files, and of a config with other keys; and the digests of files.

use super::{FILES, same, text_of, written};
use sms_journal::{
    ConfigTie, Digests, FileTies, JournalError, JournalKind, Note, ReportKeys, RunFile, digests_of,
    read_notes,
};
use std::alloc::{AllocError, Global};
use std::test::Fail;

/// The header of these files, where it is tied to the config's keys, and not its octets.
const KEYED_HEADER: &str = concat!(
    "journal,2,3,1,4,8,",
    "2a2a2a2a2a2a2a2a2a2a2a2a2a2a2a2a2a2a2a2a2a2a2a2a2a2a2a2a2a2a2a2a,",
    "ffffffffffffffffffffffffffffffffffffffffffffffffffffffffffffffff,\n"
);

/// Of a journal of the files with the digests of `FILES`, read as that of others, the file that differs.
fn other_file(
    alloc: Global,
    kind: JournalKind,
    others: &FileTies,
) -> Result<Option<RunFile>, JournalError> {
    let notes = [Note::Begun(3)];
    let text = written(alloc, kind, notes.as_slice())?;
    match read_notes(alloc, text.as_bytes(), others) {
        Ok(_) => Ok(None),
        Err(JournalError::OtherFiles(file)) => Ok(Some(file)),
        Err(fault) => Err(fault),
    }
}

/// The same files, with other octets of the config.
fn with_config(files: FileTies) -> FileTies {
    FileTies {
        digests: Digests {
            config: ConfigTie::Octets([0xFF; 32]),
            ..files.digests
        },
        ..files
    }
}

fn with_accounts(files: FileTies) -> FileTies {
    FileTies {
        digests: Digests {
            accounts: [0x10; 32],
            ..files.digests
        },
        ..files
    }
}

fn with_messages(files: FileTies) -> FileTies {
    FileTies {
        digests: Digests {
            messages: [0x2A; 32],
            ..files.digests
        },
        ..files
    }
}

fn with_tariff(files: FileTies) -> FileTies {
    FileTies {
        digests: Digests {
            tariff: Some([0xFF; 32]),
            ..files.digests
        },
        ..files
    }
}

#[test]
fn the_first_file_that_differs_is_named(rt: HostRuntime) -> Result<(), Fail> {
    let alloc = rt.alloc();
    let tariff = with_tariff(FILES);
    let messages = with_messages(tariff);
    let accounts = with_accounts(messages);
    let cases = [
        (FILES, None),
        (tariff, Some(RunFile::Tariff)),
        (messages, Some(RunFile::Messages)),
        (accounts, Some(RunFile::Accounts)),
        (with_config(accounts), Some(RunFile::Config)),
    ];
    for (others, wanted) in &cases {
        for kind in [JournalKind::Run, JournalKind::Trial] {
            same(&rt, other_file(alloc, kind, others)?, *wanted);
        }
    }
    Ok(())
}

/// What differs, of a journal that is tied to the config's keys and has one note.
fn keyed_difference(
    alloc: Global,
    behind: &str,
    files: &FileTies,
) -> Result<Result<(Option<(u32, u32)>, usize), JournalError>, Fail> {
    let text = text_of(alloc, KEYED_HEADER, behind)?;
    match read_notes(alloc, text.as_bytes(), files) {
        Ok(read) => Ok(Ok((read.first, read.notes.len()))),
        Err(JournalError::OutOfMemory(_)) => Err(Fail::from(AllocError)),
        Err(fault) => Ok(Err(fault)),
    }
}

/// Files whose config has other keys than those of [`FILES`].
fn with_keys(attempts: u32, long_reference: bool, binds: u32) -> FileTies {
    FileTies {
        digests: with_config(FILES).digests,
        keys: ReportKeys {
            attempts,
            long_reference,
            binds,
            workers: 1,
        },
    }
}

/// A journal that is tied to the config's keys is read by the binds and workers of its own first line; of the keys,
/// attempts and the kind of the references must be those that it was begun with.
#[test]
fn other_keys_of_the_config_may_change(rt: HostRuntime) -> Result<(), Fail> {
    let alloc = rt.alloc();
    let cases = [
        (FILES, Ok((Some((4, 8)), 1))),
        (with_keys(3, true, 1), Ok((Some((4, 8)), 1))),
        (
            with_keys(2, true, 4),
            Err(JournalError::OtherFiles(RunFile::Attempts)),
        ),
        (
            with_keys(3, false, 4),
            Err(JournalError::OtherFiles(RunFile::LongReference)),
        ),
        (
            with_accounts(with_keys(3, true, 4)),
            Err(JournalError::OtherFiles(RunFile::Accounts)),
        ),
    ];
    for (files, wanted) in &cases {
        let got = keyed_difference(alloc, "begun,1,3\n", files)?;
        same(&rt, got, *wanted);
    }
    Ok(())
}

/// The digest of nothing, and of `abc` (FIPS 180-4's example).
const OF_NOTHING: [u8; 4] = [0xE3, 0xB0, 0xC4, 0x42];

const OF_ABC: [u8; 4] = [0xBA, 0x78, 0x16, 0xBF];

#[test]
fn files_have_digests(rt: HostRuntime) -> Result<(), Fail> {
    let digests = digests_of(b"abc", b"", b"abc", Some(b"abc".as_slice()));
    let ConfigTie::Octets(config) = digests.config else {
        return Err("no digest".into());
    };
    same(&rt, &config[..4], OF_ABC.as_slice());
    same(&rt, &digests.accounts[..4], OF_NOTHING.as_slice());
    same(&rt, &digests.messages[..4], OF_ABC.as_slice());
    same(&rt, digests.tariff, Some(config));
    same(&rt, digests_of(b"", b"", b"", None).tariff, None);
    Ok(())
}
