//! The lines of the files that were read.

ghost use Rattle.std.specs.Fmt.{WritesOnOk};
ghost use Rattle.std.specs.Prelude.{option_map};
ghost use Rattle.sms_send.specs.FilesRead.{file_line, tariff_line};

use crate::faults::details::shown::write_shown;
use std::fmt;

/// The files that were read, by their names. Each has a line, in this order.
#[derive(Clone, Copy, Debug)]
pub struct FilesRead<'a> {
    pub config: &'a str,
    pub accounts: &'a str,
    pub messages: &'a str,
    pub tariff: Option<&'a str>,
}

impl<'a> fmt::Display for FilesRead<'a> {
    ghost use Rattle.std.specs.Prelude.{Some};
    ghost use Rattle.sms_send.specs.FilesRead.{files_text};

    ghost output = { λ files. Some (files_text files) };

    fn fmt<W: fmt::Write>(&self, f: &mut fmt::Formatter<W>) -> fmt::Result {
        write_file(f, "config", self.config)?;
        write_file(f, "accounts", self.accounts)?;
        write_file(f, "messages", self.messages)?;
        write_tariff(f, self.tariff)
    }
}

/// Writes the line of a file: what it is, and its name.
fn write_file<W: fmt::Write>(f: &mut fmt::Formatter<W>, what: &str, name: &str) -> fmt::Result
    ensures { WritesOnOk W.write_str_gives f.old result (file_line what.now name.now) f.new }
{
    write!(f, "read {what} ")?;
    write_shown(f, name)?;
    f.write_str("\n")
}

/// Writes that of the tariff, where there is one.
fn write_tariff<W: fmt::Write>(f: &mut fmt::Formatter<W>, name: Option<&str>) -> fmt::Result
    ensures { WritesOnOk W.write_str_gives f.old result (tariff_line (option_map (λ name. name.now) name.entry)) f.new }
{
    match name {
        Some(name) => write_file(f, "tariff", name),
        None => Ok(()),
    }
}
