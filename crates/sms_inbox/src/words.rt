//! The words of a receipt's text (SMPP 3.4 Appendix B).

ghost use Rattle.std.specs.Prelude.{◌≡◌, ◌≢◌, ◌≤◌, ◌<◌, ◌∷◌, [], ℕ, List, false, true, IfSome, IsSome, MatchOption, codes, length};
ghost use Rattle.std.specs.Option.{option_copied, unwrap_or};
ghost use Rattle.sms_inbox.specs.Words.{HasSeen, begins as begins_so, blank_at as first_blank, field_of, is_blank as is_separator, or_word, words};

/// The values of a receipt's text by their keys, or no octets.
#[derive(Clone, Copy)]
pub(crate) struct Fields<'a> {
    pub(crate) id: &'a [u8],
    pub(crate) stat: &'a [u8],
    pub(crate) err: &'a [u8],
}

/// The values that the words so far have.
#[derive(Clone, Copy)]
struct Found<'a> {
    id: Option<&'a [u8]>,
    stat: Option<&'a [u8]>,
    err: Option<&'a [u8]>,
}

/// The key of what comes last, the message's own text.
const TEXT: &[u8] = b"text:";

const ID: &[u8] = b"id:";

const STAT: &[u8] = b"stat:";

const ERR: &[u8] = b"err:";

/// Whether words are separated here.
fn is_blank(octet: u8) -> bool
    ensures { result ≡ is_separator octet }
{
    octet <= 0x20
}

/// Where the first word ends.
fn blank_at(text: &[u8]) -> usize
    ensures place { result ≡ first_blank text.now }
    ensures within { result ≤ length text.now }
{
    let mut at = 0;
    while at < text.len() && !is_blank(text[at]) {
        at += 1;
    }
    at
}

/// The first word, and what stands after its end.
fn cut_word(text: &[u8]) -> (&[u8], Option<&[u8]>)
    ensures words { MatchOption result.1 (words text.now ≡ result.0.now ∷ []) (λ rest. words text.now ≡ result.0.now ∷ words rest.now) }
    ensures shorter { IfSome result.1 (λ rest. length rest.now < length text.now) }
{
    let at = blank_at(text);
    if at < text.len() {
        (&text[..at], Some(&text[at + 1..]))
    } else {
        (text, None)
    }
}

/// Whether a word begins with a key, in whatever case its letters are.
fn begins(key: &[u8], word: &[u8]) -> bool
    ensures begins { result ≡ begins_so key.now word.now }
    ensures long { result ≡ true → length key.now ≤ length word.now }
{
    if word.len() < key.len() {
        return false;
    }
    for (i, c) in key.iter().enumerate() {
        if word[i].to_ascii_lowercase() != *c {
            return false;
        }
    }
    true
}

/// The letter that a key begins with, if the word begins with that key.
fn first_letter(word: &[u8]) -> u8
    ensures { (k : ℕ) (ks : List ℕ) → result ≢ k → begins_so (k ∷ ks) word.now ≡ false }
{
    if word.is_empty() {
        0
    } else {
        word[0].to_ascii_lowercase()
    }
}

/// The value found, or else that of the word.
fn or_value<'a>(found: Option<&'a [u8]>, key: &[u8], word: &'a [u8]) -> Option<&'a [u8]>
    ensures { option_copied result ≡ or_word key.now (option_copied found.entry) word.now }
{
    if found.is_none() && begins(key, word) {
        Some(&word[key.len()..])
    } else {
        found
    }
}

impl<'a> Found<'a> {
    /// What is found with one word more, unless that begins the message's own text.
    fn seen(self, word: &'a [u8]) -> Option<Found<'a>>
        ensures { MatchOption result (begins_so (codes "text:") word.now ≡ true) (HasSeen self.entry word.now) }
    {
        match first_letter(word) {
            b'i' => Some(Found {
                id: or_value(self.id, ID, word),
                ..self
            }),
            b's' => Some(Found {
                stat: or_value(self.stat, STAT, word),
                ..self
            }),
            b'e' => Some(Found {
                err: or_value(self.err, ERR, word),
                ..self
            }),
            b't' => { if begins(TEXT, word) { None } else { Some(self) } }
            _ => Some(self),
        }
    }

    fn is_whole(self) -> bool
        ensures id { result ≡ true → IsSome self.entry.id }
        ensures stat { result ≡ true → IsSome self.entry.stat }
        ensures err { result ≡ true → IsSome self.entry.err }
    {
        self.err.is_some() && self.stat.is_some() && self.id.is_some()
    }

    fn fields(self) -> Fields<'a>
        ensures id { result.id.now ≡ unwrap_or (option_copied self.entry.id) [] }
        ensures stat { result.stat.now ≡ unwrap_or (option_copied self.entry.stat) [] }
        ensures err { result.err.now ≡ unwrap_or (option_copied self.entry.err) [] }
    {
        Fields {
            id: self.id.unwrap_or(&[]),
            stat: self.stat.unwrap_or(&[]),
            err: self.err.unwrap_or(&[]),
        }
    }
}

/// The fields of a receipt's text.
pub(crate) fn fields_in<'a>(text: &'a [u8]) -> Fields<'a>
    ensures id { result.id.now ≡ field_of (codes "id:") text.now }
    ensures stat { result.stat.now ≡ field_of (codes "stat:") text.now }
    ensures err { result.err.now ≡ field_of (codes "err:") text.now }
{
    let mut found = Found {
        id: None,
        stat: None,
        err: None,
    };
    let mut left = text;
    loop {
        let (word, rest) = cut_word(left);
        let Some(seen) = found.seen(word) else {
            return found.fields();
        };
        let Some(behind) = rest else {
            return seen.fields();
        };
        if seen.is_whole() {
            return seen.fields();
        }
        found = seen;
        left = behind;
    }
}
