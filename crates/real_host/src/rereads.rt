//! A file that is read once more, to tell of it.
ghost use Rattle.std.specs.Prelude.{◌≤◌, IfSome, length};

use crate::pieces::read_all;
use std::alloc::Global;
use std::fs;
use std::fs::File;
use std::rt::Files;

/// What a regular file has now, where that is at most `limit` bytes. It is no call of a host: a failure is not told and not
/// counted, and what is no regular file, as a pipe, is not opened.
pub fn read_again<F: Files>(alloc: Global, files: &F, name: &str, limit: usize) -> Option<Vec<u8>>
    ensures { IfSome result (λ bytes. length bytes.items ≤ limit) }
{
    match fs::metadata(files, name) {
        Ok(there) => {
            if !there.is_file() {
                return None;
            }
        }
        Err(_) => return None,
    }
    let mut file = match File::open(files, name) {
        Ok(file) => file,
        Err(_) => return None,
    };
    match read_all(alloc, &mut file, limit) {
        Ok(bytes) => Some(bytes),
        Err(_) => None,
    }
}
