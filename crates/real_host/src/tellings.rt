//! What is told of a call that failed.
use std::fmt;
use std::fmt::{Display, Formatter};
use std::io::ErrorKind;

/// A call that failed, by the name that it was asked for.
#[derive(Clone, Copy)]
pub enum Failure<'a> {
    Read(&'a str, ErrorKind),
    Save(&'a str, ErrorKind),
    /// A save over a file that was read in this run.
    SaveOver(&'a str),
    Print,
}

impl Display for Failure<'_> {
    fn fmt<W: fmt::Write>(&self, f: &mut Formatter<W>) -> fmt::Result {
        match *self {
            Failure::Read(name, kind) => write!(f, "{name}: {}", words_of(kind, "can't be read")),
            Failure::Save(name, kind) => write!(f, "{name}: {}", words_of(kind, "can't be saved")),
            Failure::SaveOver(name) => {
                write!(f, "{name} was read in this run and is not saved over")
            }
            Failure::Print => f.write_str("standard output: can't be written"),
        }
    }
}

// The words for a kind of failure, else for what could not be done.
fn words_of(kind: ErrorKind, deed: &'static str) -> &'static str {
    match kind {
        ErrorKind::NotFound => "no such file",
        ErrorKind::PermissionDenied => "permission denied",
        ErrorKind::IsADirectory => "is a directory",
        ErrorKind::StorageFull => "no space left",
        _ => deed,
    }
}
