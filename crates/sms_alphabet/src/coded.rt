//! A text as it is sent: its coding and its units.

use crate::units::Units;

/// How the text of a short message is coded.
#[derive(Clone, Copy, Debug, PartialEq, Eq)]
pub enum Coding {
    /// The GSM 7 bit default alphabet and its extension table (3GPP TS 23.038 6.2.1, 6.2.1.1).
    Gsm,
    /// UCS2 (3GPP TS 23.038 6.2.3), which holds UTF-16 code units.
    Ucs2,
}

/// A coded text. In `Gsm` a unit is one code of the default alphabet, 0 to 127, and a character of
/// the extension table is two units, of which the first is the escape, 0x1B. In `Ucs2` a unit is
/// one UTF-16 code unit.
#[derive(Debug, Drop, PartialEq, Eq)]
pub struct Coded {
    pub coding: Coding,
    pub units: Units,
}
