//! How tests compare, in one call each: an assertion in a test itself costs its proof far more.

use std::alloc::Global;
use std::fmt::Debug;
use std::process::Abort;

/// Ends the test where two values differ.
pub fn same<T: PartialEq + Debug>(rt: &impl Abort, got: &T, want: &T) {
    assert_eq!(rt; got, want);
}

/// Ends the test where bytes differ.
pub fn same_bytes(rt: &impl Abort, got: &[u8], want: &[u8]) {
    assert_eq!(rt; got, want);
}

/// Ends the test where what is printed of a value differs.
pub fn shows(rt: &impl Abort, alloc: Global, got: &impl Debug, want: &str) {
    let text = format!(in alloc; "{got:?}").ok().expect(rt, "memory");
    assert_eq!(rt; text.as_str(), want);
}
