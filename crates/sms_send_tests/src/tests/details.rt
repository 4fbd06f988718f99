//! The names of files that were read, and who may read a file.

use super::same::same;
use sms_send::{FilesRead, is_open_to_others};
use std::test::Fail;

#[test]
fn tells_which_files_were_read(rt: HostRuntime) -> Result<(), Fail> {
    let files = FilesRead {
        config: "/a/b.toml",
        accounts: "c\nd",
        messages: "\u{e9}\u{85}",
        tariff: None,
    };
    same(
        &rt,
        files.to_string(rt.alloc())?.as_str(),
        "read config /a/b.toml\nread accounts c\\nd\nread messages \u{e9}\\x85\n",
    );
    let with = FilesRead {
        tariff: Some("/t"),
        ..files
    };
    same(
        &rt,
        with.to_string(rt.alloc())?.as_str(),
        "read config /a/b.toml\nread accounts c\\nd\nread messages \u{e9}\\x85\nread tariff /t\n",
    );
    Ok(())
}

#[test]
fn sees_who_may_read(rt: HostRuntime) -> Result<(), Fail> {
    for (mode, open) in [
        (0o100_600, false),
        (0o100_644, true),
        (0o100_640, true),
        (0o100_604, true),
        (0o100_733, false),
        (0o100_000, false),
    ] {
        same(&rt, is_open_to_others(mode), open);
    }
    Ok(())
}
