//! What tests of several topics assert. What fails is named by what is given for `at`.

use std::fmt::{Debug, Display};
use std::process::Abort;

// The two are the same.
pub(crate) fn same<A: Copy + Display, T: Copy + Debug + PartialEq>(
    rt: &impl Abort,
    at: A,
    found: T,
    wanted: T,
) {
    assert_eq!(rt; found, wanted, "at {at}");
}
