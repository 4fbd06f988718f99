//! The names of files that a quote tells, by the system.

use super::same::same;
use sms_files::FileNames;
use sms_send::{FullNames, files_told};
use std::alloc::{AllocError, Global};
use std::process::Abort;
use std::test::Fail;

// The names of the files of a config.
fn names_of(alloc: Global, files: [&str; 3]) -> Result<FileNames, AllocError> {
    let [accounts, messages, tariff] = files;
    Ok(FileNames {
        accounts: String::from_str(alloc, accounts)?,
        messages: String::from_str(alloc, messages)?,
        tariff: String::from_str(alloc, tariff)?,
    })
}

// That these lines tell of a config and its files.
fn want_lines(
    rt: &(impl AllocGlobal + Abort),
    known: &impl FullNames,
    config: &str,
    files: [&str; 3],
    wanted: &str,
) -> Result<(), Fail> {
    let names = names_of(rt.alloc(), files)?;
    let lines = files_told(rt.alloc(), known, config, &names)?;
    same(rt, lines.as_str(), wanted);
    Ok(())
}

/// By the system: what is there from the root, and what isn't as it was given.
#[test]
fn names_files_in_full(rt: HostRuntime) -> Result<(), Fail> {
    want_lines(
        &rt,
        &rt,
        "/..",
        ["/././", "no\nwhere", ""],
        "read config /\nread accounts /\nread messages no\\nwhere\n",
    )?;
    want_lines(
        &rt,
        &rt,
        "/.",
        ["", "//.", "/"],
        "read config /\nread accounts \nread messages /\nread tariff /\n",
    )
}
