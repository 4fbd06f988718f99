//! What names a book.

use std::marker::Brand;

/// Names one book. A function that opens a book is generic in such a name; its caller passes
/// `Brand` and picks the blank's name for it, so that the book's till and shares fit that book and
/// no other.
pub trait BookName {
    ghost use Rattle.sms_book.specs.Name.{BookId};

    ghost book: { BookId };
}

impl BookName for Brand {
    ghost use Rattle.sms_book.specs.Name.{no_book};

    ghost book = { no_book };
}
