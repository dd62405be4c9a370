//! All that is left of a reader, and a whole piece to a writer.
ghost use Rattle.std.specs.Prelude.{◌≡◌, ◌≤◌, ◌<◌, IfOk, IfSome, IsErrOf, length};
ghost use Rattle.real_host.specs.Pieces.{Writes};

use std::alloc::Global;
use std::io;
use std::io::{ErrorKind, Read, Write};

/// Why a file was not read.
#[derive(Drop)]
pub enum Unread {
    /// It has more bytes than the limit.
    TooLong,
    Memory,
    System(ErrorKind),
}

/// All that is left to read, where it is at most `limit` bytes.
pub fn read_all<R: Read>(alloc: Global, file: &mut R, limit: usize) -> Result<Vec<u8>, Unread>
    ensures size { IfOk result (λ bytes. length bytes.items ≤ limit) }
    ensures bytes { IfOk result (λ bytes. IfSome (R.remaining file.old) (λ all. bytes.items ≡ all)) }
    ensures long { IsErrOf result Unread.TooLong → IfSome (R.remaining file.old) (λ all. limit < length all) }
{
    let mut bytes = Vec::new(alloc);
    let mut buf = [0u8; 4096];
    for _ in 0..u64::MAX {
        match file.read(&mut buf) {
            Ok(0) => return Ok(bytes),
            Ok(n) => {
                if n > limit - bytes.len() {
                    return Err(Unread::TooLong);
                }
                if bytes.extend_from_slice(&buf[..n]).is_err() {
                    return Err(Unread::Memory);
                }
            }
            Err(e) => {
                if e.kind() != ErrorKind::Interrupted {
                    return Err(Unread::System(e.kind()));
                }
            }
        }
    }
    Err(Unread::System(ErrorKind::TimedOut))
}

/// Writes the whole piece, or after a failure a front of it.
pub fn write_piece<W: Write>(out: &mut W, piece: &[u8]) -> io::Result<()>
    ensures { Writes (W.contents out.old) (W.contents out.new) piece.now result }
{
    let mut done = 0;
    for _ in 0..u64::MAX {
        if done == piece.len() {
            return Ok(());
        }
        match out.write(&piece[done..]) {
            Ok(0) => return Err(io::Error::from(ErrorKind::WriteZero)),
            Ok(n) => done += n,
            Err(e) => {
                if e.kind() != ErrorKind::Interrupted {
                    return Err(e);
                }
            }
        }
    }
    Err(io::Error::from(ErrorKind::TimedOut))
}
