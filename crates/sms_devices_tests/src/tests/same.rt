//! How the tests compare.

use std::fmt::Debug;
use std::process::Abort;

/// Both are the same. A test that compares by a call has a short proof: the printing of two values that differ is
/// proved only here.
pub fn same<T: PartialEq + Debug + Drop>(rt: &impl Abort, got: T, expected: T) {
    assert_eq!(rt; got, expected);
}
