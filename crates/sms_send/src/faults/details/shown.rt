//! Texts that come from outside, which may hold anything. What would begin another line, or move a
//! terminal's cursor, is written out.

ghost use Rattle.std.specs.Fmt.{WritesOnOk};
ghost use Rattle.sms_send.specs.Shown.{indented, indented_char, shown, shown_char};

use std::fmt;

/// Writes a name, or what else stands in one line.
pub fn write_shown<W: fmt::Write>(f: &mut fmt::Formatter<W>, text: &str) -> fmt::Result
    ensures { WritesOnOk W.write_str_gives f.old result (shown text.now) f.new }
{
    for c in text.chars() {
        write_char(f, c)?;
    }
    Ok(())
}

/// A name, or what else stands in one line, as it is shown.
#[derive(Clone, Copy, Debug)]
pub(crate) struct Shown<'a>(pub &'a str);

impl fmt::Display for Shown<'_> {
    fn fmt<W: fmt::Write>(&self, f: &mut fmt::Formatter<W>) -> fmt::Result {
        write_shown(f, self.0)
    }
}

/// Writes a character of a name.
pub(crate) fn write_char<W: fmt::Write>(f: &mut fmt::Formatter<W>, c: char) -> fmt::Result
    ensures { WritesOnOk W.write_str_gives f.old result (shown_char c) f.new }
{
    if !c.is_control() {
        return f.write_char(c);
    }
    match c {
        '\n' => f.write_str("\\n"),
        '\r' => f.write_str("\\r"),
        '\t' => f.write_str("\\t"),
        _ => {
            let (high, low) = (c as u32 / 16, c as u32 % 16);
            write!(f, "\\x{high:x}{low:x}")
        }
    }
}

/// Writes a text of several lines. Each line after the first is indented by two columns.
pub(crate) fn write_indented<W: fmt::Write>(f: &mut fmt::Formatter<W>, text: &str) -> fmt::Result
    ensures { WritesOnOk W.write_str_gives f.old result (indented text.now) f.new }
{
    for c in text.chars() {
        write_indented_char(f, c)?;
    }
    Ok(())
}

/// Writes a character of such a text.
fn write_indented_char<W: fmt::Write>(f: &mut fmt::Formatter<W>, c: char) -> fmt::Result
    ensures { WritesOnOk W.write_str_gives f.old result (indented_char c) f.new }
{
    if c == '\n' {
        f.write_str("\n  ")
    } else {
        write_char(f, c)
    }
}
