//! Bounds that a crate shows of its types by a call at each.

use crate::{Bytes, Seq, Text};

/// Threads may share the value.
pub fn is_shared<T: Send + Sync>(_value: &T) {}

/// A thread may be given the value.
pub fn is_sent<T: Send>(_value: &T) {}

fn are_shared<T: Send + Sync>(text: &Text, bytes: &Bytes, list: &Seq<T>) {
    is_shared(text);
    is_shared(bytes);
    is_shared(list);
}
