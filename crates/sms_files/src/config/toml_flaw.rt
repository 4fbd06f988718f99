//! Why a text is no TOML.

/// What the parser says of a text that is no TOML.
#[derive(Clone, Copy, Debug)]
pub struct TomlFlaw {
    line: usize,
    error: Option<toml::de::Error>,
}

impl TomlFlaw {
    /// Of octets that aren't UTF-8 from this place on.
    pub(crate) fn not_utf8(octets: &[u8], at: usize) -> TomlFlaw {
        let line = line_at(octets, at);
        TomlFlaw { line, error: None }
    }

    /// Of a text that the parser refuses with this error.
    pub(crate) fn of(octets: &[u8], error: toml::de::Error) -> TomlFlaw {
        let at = match error.span() {
            Some(span) => span.start,
            None => 0,
        };
        let line = line_at(octets, at);
        TomlFlaw {
            line,
            error: Some(error),
        }
    }

    /// The line of the fault, from 1.
    pub fn line(&self) -> usize {
        self.line
    }

    /// What the parser says.
    pub fn cause(&self) -> &str {
        match &self.error {
            Some(error) => error.message(),
            None => "not UTF-8",
        }
    }
}

/// The line, from 1, of the octet at a place.
fn line_at(octets: &[u8], at: usize) -> usize {
    let mut line = 1usize;
    for place in 0..octets.len() {
        if place < at && octets[place] == b'\n' {
            line = line.saturating_add(1);
        }
    }
    line
}
