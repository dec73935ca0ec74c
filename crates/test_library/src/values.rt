//! How tests read the data of a kind into values.

use crate::checks::{are_values, holds};
use crate::fixtures::{full, is_written};
use rtp_values::{Extension, ExtensionValues};
use std::alloc::Global;
use std::process::Abort;

// Whether the data are well-formed, once they were read into the values.
pub(crate) fn is_read_into(
    rt: &impl Abort,
    alloc: Global,
    kind: &Extension,
    data: &[u8],
    values: &mut ExtensionValues,
) -> bool {
    let read = kind.parse_value(alloc, data, values);
    read.expect(rt, "memory").is_some()
}

// The values once the data, which are well-formed, were read into values that are all absent.
pub(crate) fn read(
    rt: &impl Abort,
    alloc: Global,
    kind: &Extension,
    data: &[u8],
) -> ExtensionValues {
    let mut values = ExtensionValues::default();
    let is_read = is_read_into(rt, alloc, kind, data, &mut values);
    holds(rt, kind, is_read);
    values
}

// The data are refused, and leave the values as they are.
pub(crate) fn is_refused(rt: &impl Abort, alloc: Global, kind: &Extension, data: &[u8]) {
    let mut values = full();
    let is_read = is_read_into(rt, alloc, kind, data, &mut values);
    holds(rt, kind, !is_read);
    are_values(rt, kind.as_uri(), &values, &full());
}

// The kind's data are these for the values.
pub(crate) fn has_data(rt: &impl Abort, kind: &Extension, values: &ExtensionValues, data: &[u8]) {
    holds(rt, kind, is_written(kind, values, data));
}
