//! What `clap` tells of words: help, the version, or what is wrong with them. Nothing here says what words name.
use crate::apps::{Aim, sdcv};
use clap::Error;
use clap::error::ErrorKind;
use std::alloc::{AllocError, Global};

fn text_of(alloc: Global, error: &Error) -> Result<Option<String>, AllocError> {
    match error.kind() {
        ErrorKind::OutOfMemory => Err(AllocError),
        _ => Ok(Some(format!(in alloc; "{error}")?)),
    }
}

/// What `clap` tells of the words, with a line feed at its end, by a program of that version. None where it takes them.
pub fn told<'a>(
    alloc: Global,
    version: &'a str,
    words: &'a [String],
) -> Result<Option<String>, AllocError> {
    let command = sdcv(alloc, Aim::Tell)?.version(version);
    match command.try_get_matches_from(words).err() {
        Some(error) => text_of(alloc, &error),
        None => Ok(None),
    }
}
