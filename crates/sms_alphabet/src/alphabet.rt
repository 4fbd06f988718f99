//! Look-ups in the default alphabet and its extension table, from a character and from a code.
//! Each takes constant time.

ghost use Rattle.std.specs.Prelude.{◌≡◌, ◌<◌, [], ◌∷◌, Some, IsTrue, slice_index};
ghost use Rattle.std.specs.Option.{option_map};
ghost use Rattle.sms_alphabet.specs.Alphabet.{codes_of, is_plain, IsCharacterOf};
ghost use Rattle.sms_alphabet.specs.Code.{codes};

/// The escape to the extension table (3GPP TS 23.038 6.2.1.1). It is no character's code by itself.
pub const ESCAPE: u8 = 0x1b;

/// Where the alphabet has a character.
#[derive(Clone, Copy)]
pub(crate) enum Code {
    /// A code of the default alphabet (3GPP TS 23.038 6.2.1).
    Basic(u8),
    /// A code of the extension table, which follows the escape (3GPP TS 23.038 6.2.1.1).
    Extension(u8),
}

// The codes of U+0000 to U+00FF in the default alphabet, and the escape for each character that
// it lacks.
static LATIN_CODES: [u8; 256] = [
    0x1b, 0x1b, 0x1b, 0x1b, 0x1b, 0x1b, 0x1b, 0x1b, 0x1b, 0x1b, 0x0a, 0x1b, 0x1b, 0x0d, 0x1b, 0x1b,
    0x1b, 0x1b, 0x1b, 0x1b, 0x1b, 0x1b, 0x1b, 0x1b, 0x1b, 0x1b, 0x1b, 0x1b, 0x1b, 0x1b, 0x1b, 0x1b,
    0x20, 0x21, 0x22, 0x23, 0x02, 0x25, 0x26, 0x27, 0x28, 0x29, 0x2a, 0x2b, 0x2c, 0x2d, 0x2e, 0x2f,
    0x30, 0x31, 0x32, 0x33, 0x34, 0x35, 0x36, 0x37, 0x38, 0x39, 0x3a, 0x3b, 0x3c, 0x3d, 0x3e, 0x3f,
    0x00, 0x41, 0x42, 0x43, 0x44, 0x45, 0x46, 0x47, 0x48, 0x49, 0x4a, 0x4b, 0x4c, 0x4d, 0x4e, 0x4f,
    0x50, 0x51, 0x52, 0x53, 0x54, 0x55, 0x56, 0x57, 0x58, 0x59, 0x5a, 0x1b, 0x1b, 0x1b, 0x1b, 0x11,
    0x1b, 0x61, 0x62, 0x63, 0x64, 0x65, 0x66, 0x67, 0x68, 0x69, 0x6a, 0x6b, 0x6c, 0x6d, 0x6e, 0x6f,
    0x70, 0x71, 0x72, 0x73, 0x74, 0x75, 0x76, 0x77, 0x78, 0x79, 0x7a, 0x1b, 0x1b, 0x1b, 0x1b, 0x1b,
    0x1b, 0x1b, 0x1b, 0x1b, 0x1b, 0x1b, 0x1b, 0x1b, 0x1b, 0x1b, 0x1b, 0x1b, 0x1b, 0x1b, 0x1b, 0x1b,
    0x1b, 0x1b, 0x1b, 0x1b, 0x1b, 0x1b, 0x1b, 0x1b, 0x1b, 0x1b, 0x1b, 0x1b, 0x1b, 0x1b, 0x1b, 0x1b,
    0x1b, 0x40, 0x1b, 0x01, 0x24, 0x03, 0x1b, 0x5f, 0x1b, 0x1b, 0x1b, 0x1b, 0x1b, 0x1b, 0x1b, 0x1b,
    0x1b, 0x1b, 0x1b, 0x1b, 0x1b, 0x1b, 0x1b, 0x1b, 0x1b, 0x1b, 0x1b, 0x1b, 0x1b, 0x1b, 0x1b, 0x60,
    0x1b, 0x1b, 0x1b, 0x1b, 0x5b, 0x0e, 0x1c, 0x09, 0x1b, 0x1f, 0x1b, 0x1b, 0x1b, 0x1b, 0x1b, 0x1b,
    0x1b, 0x5d, 0x1b, 0x1b, 0x1b, 0x1b, 0x5c, 0x1b, 0x0b, 0x1b, 0x1b, 0x1b, 0x5e, 0x1b, 0x1b, 0x1e,
    0x7f, 0x1b, 0x1b, 0x1b, 0x7b, 0x0f, 0x1d, 0x1b, 0x04, 0x05, 0x1b, 0x1b, 0x07, 0x1b, 0x1b, 0x1b,
    0x1b, 0x7d, 0x08, 0x1b, 0x1b, 0x1b, 0x7c, 0x1b, 0x0c, 0x06, 0x1b, 0x1b, 0x7e, 0x1b, 0x1b, 0x1b,
];

// The characters of the default alphabet by their codes, a row for each column of the standard's
// table: 0x00 to 0x0F, 0x10 to 0x1F and so on. At the escape stands U+001B, which no look-up gives.
static CHARACTERS: [[char; 16]; 8] = [
    [
        '@', '£', '$', '¥', 'è', 'é', 'ù', 'ì', 'ò', 'Ç', '\n', 'Ø', 'ø', '\r', 'Å', 'å',
    ],
    [
        'Δ', '_', 'Φ', 'Γ', 'Λ', 'Ω', 'Π', 'Ψ', 'Σ', 'Θ', 'Ξ', '\u{1b}', 'Æ', 'æ', 'ß', 'É',
    ],
    [
        ' ', '!', '"', '#', '¤', '%', '&', '\'', '(', ')', '*', '+', ',', '-', '.', '/',
    ],
    [
        '0', '1', '2', '3', '4', '5', '6', '7', '8', '9', ':', ';', '<', '=', '>', '?',
    ],
    [
        '¡', 'A', 'B', 'C', 'D', 'E', 'F', 'G', 'H', 'I', 'J', 'K', 'L', 'M', 'N', 'O',
    ],
    [
        'P', 'Q', 'R', 'S', 'T', 'U', 'V', 'W', 'X', 'Y', 'Z', 'Ä', 'Ö', 'Ñ', 'Ü', '§',
    ],
    [
        '¿', 'a', 'b', 'c', 'd', 'e', 'f', 'g', 'h', 'i', 'j', 'k', 'l', 'm', 'n', 'o',
    ],
    [
        'p', 'q', 'r', 's', 't', 'u', 'v', 'w', 'x', 'y', 'z', 'ä', 'ö', 'ñ', 'ü', 'à',
    ],
];

/// Where the alphabet has the character, if it does.
pub(crate) fn code_of(c: char) -> Option<Code>
    ensures { option_map codes result ≡ codes_of c }
{
    if c <= '\u{ff}' {
        let code = LATIN_CODES[c as usize];
        if code != ESCAPE {
            return Some(Code::Basic(code));
        }
    }
    code_beyond_latin(c)
}

/// Whether an octet of a text is an ASCII character with a code of the default alphabet. All of it is
/// compared, without a branch, so that a loop over octets looks at many at once.
pub(crate) fn is_plain(octet: u8) -> bool
    ensures { result ≡ is_plain octet }
{
    ((octet >= b' ') & (octet <= b'Z'))
        | ((octet >= b'a') & (octet <= b'z'))
        | (octet == b'_')
        | (octet == b'\n')
        | (octet == b'\r')
}

/// The code of such a character. It is its own but for three.
#[tactic(auto, unfolding(crate::specs::Alphabet::codes_of, crate::specs::Alphabet::default_alphabet))]
pub(crate) fn plain_code(octet: u8) -> u8
    requires { IsTrue (is_plain octet) }
    ensures { codes_of octet ≡ Some (result ∷ []) }
{
    match octet {
        b'@' => 0x00,
        b'$' => 0x02,
        b'_' => 0x11,
        _ => octet,
    }
}

/// The capital letters of Greek that aren't drawn as Latin ones, and the extension table.
#[tactic(auto, unfolding(crate::specs::Alphabet::codes_of, crate::specs::Alphabet::default_alphabet))]
fn code_beyond_latin(c: char) -> Option<Code>
    requires { c < 256 → slice_index LATIN_CODES c ≡ ESCAPE }
    ensures { option_map codes result ≡ codes_of c }
{
    match c {
        'Γ' => Some(Code::Basic(0x13)),
        'Δ' => Some(Code::Basic(0x10)),
        'Θ' => Some(Code::Basic(0x19)),
        'Λ' => Some(Code::Basic(0x14)),
        'Ξ' => Some(Code::Basic(0x1a)),
        'Π' => Some(Code::Basic(0x16)),
        'Σ' => Some(Code::Basic(0x18)),
        'Φ' => Some(Code::Basic(0x12)),
        'Ψ' => Some(Code::Basic(0x17)),
        'Ω' => Some(Code::Basic(0x15)),
        '\u{c}' => Some(Code::Extension(0x0a)),
        '[' => Some(Code::Extension(0x3c)),
        '\\' => Some(Code::Extension(0x2f)),
        ']' => Some(Code::Extension(0x3e)),
        '^' => Some(Code::Extension(0x14)),
        '{' => Some(Code::Extension(0x28)),
        '|' => Some(Code::Extension(0x40)),
        '}' => Some(Code::Extension(0x29)),
        '~' => Some(Code::Extension(0x3d)),
        '€' => Some(Code::Extension(0x65)),
        _ => None,
    }
}

/// The character that has this code in the default alphabet.
pub(crate) fn basic_character(code: u16) -> Option<char>
    ensures { IsCharacterOf (code ∷ []) result }
{
    if code >= 128 || code == ESCAPE as u16 {
        return None;
    }
    let code = code as usize;
    Some(CHARACTERS[code / 16][code % 16])
}

/// The character that has this code in the extension table.
#[tactic(auto, unfolding(crate::specs::Alphabet::codes_of, crate::specs::Alphabet::default_alphabet))]
pub(crate) fn extension_character(code: u16) -> Option<char>
    ensures { IsCharacterOf (ESCAPE ∷ code ∷ []) result }
{
    match code {
        0x0a => Some('\u{c}'),
        0x14 => Some('^'),
        0x28 => Some('{'),
        0x29 => Some('}'),
        0x2f => Some('\\'),
        0x3c => Some('['),
        0x3d => Some('~'),
        0x3e => Some(']'),
        0x40 => Some('|'),
        0x65 => Some('€'),
        _ => None,
    }
}
