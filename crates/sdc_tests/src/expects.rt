//! What a test expects of a text.
use std::process::Abort;

// That it comes to what is wanted of it.
pub(crate) fn same(rt: &impl Abort, text: &str, got: &str, want: &str) {
    assert_eq!(rt; got, want, "{text}");
}
