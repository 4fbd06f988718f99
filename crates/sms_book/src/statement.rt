//! What a gathered book says.

ghost use Rattle.std.specs.Prelude.{◌≡◌};

use sms_core::Row;
use std::marker::Model;

/// The rows of all accounts, once every share came back. Contracts see them as a list.
#[derive(Debug, Drop)]
pub struct Statement {
    rows: Vec<Row>,
}

impl Model for Statement {
    ghost use Rattle.std.specs.Prelude.{List};
    ghost use Rattle.sms_core.specs.declared.row.Row.{Row};

    ghost Value = { List Row };

    ghost view = { λ s. s.rows.items };
}

impl Statement {
    /// A statement of these rows, an account's in its place.
    pub fn new(rows: Vec<Row>) -> Statement
        ensures { result ≡ rows.items }
    {
        Statement { rows }
    }

    /// The rows, an account's in its place.
    pub fn rows(&self) -> &[Row]
        ensures { result.now ≡ self.now }
    {
        self.rows.as_slice()
    }

    /// The rows themselves, an account's in its place.
    pub fn into_rows(self) -> Vec<Row>
        ensures { result.items ≡ self }
    {
        let Statement { rows } = self;
        rows
    }
}
