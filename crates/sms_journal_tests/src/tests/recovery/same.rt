//! How the tests compare.

use std::fmt::Debug;
use std::process::Abort;

/// Both are the same. A test that compares by a call has a short proof: what is printed where they
/// differ stands here alone.
pub fn same<T: PartialEq + Debug + Drop>(rt: &impl Abort, got: T, wanted: T) {
    assert_eq!(rt; got, wanted);
}
