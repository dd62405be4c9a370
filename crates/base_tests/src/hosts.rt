use crate::faulty_files::{FaultyFiles, Step};
use real_host::RealHost;
use sdcv_base::{Host, HostFault, ReadFault};
use std::alloc::{AllocError, Global};
use std::fs::{File, Permissions};
use std::io::{ErrorKind, Read, Sink, Write};
use std::os::fd::AsRawFd;
use std::os::unix::fs::{PermissionsExt, symlink};
use std::process::Abort;
use std::rt::Files;
use std::test::Fail;
use std::{fs, io};

// So many bytes, no run of them like the next.
fn many(alloc: Global, count: u32) -> Result<Vec<u8>, AllocError> {
    let mut bytes = Vec::new(alloc);
    for i in 0..count {
        bytes.push((i % 251) as u8)?;
    }
    Ok(bytes)
}

// A host that prints nothing and tells to `err`.
fn teller<F: Files>(alloc: Global, files: F, err: &mut Vec<u8>) -> RealHost<F, Sink, &mut Vec<u8>> {
    RealHost::new(alloc, "sdcv", files, io::sink(), err)
}

// Removes what a test made, and what one that failed may have left before.
fn clear(files: &impl Files, names: &[&str]) {
    for name in names {
        let _ = fs::remove_file(files, *name);
    }
}

// What stands under the name, in 2,000,000 bytes.
fn held(rt: &HostRuntime, name: &str) -> Result<Vec<u8>, ReadFault> {
    let mut told = Vec::new(rt.alloc());
    teller(rt.alloc(), rt, &mut told).read_file(rt.alloc(), name, 2_000_000)
}

// Whether it is saved, and what is told of it.
fn save(rt: &HostRuntime, name: &str, bytes: &[u8]) -> (bool, Vec<u8>) {
    let mut told = Vec::new(rt.alloc());
    let saved = teller(rt.alloc(), rt, &mut told).save(name, bytes);
    (saved.is_ok(), told)
}

// Whether the file is these bytes, and no part of it is left.
fn stands(rt: &HostRuntime, name: &str, part: &str, bytes: &[u8]) -> Result<bool, Fail> {
    let held = held(rt, name)?;
    Ok(held.as_slice() == bytes && !fs::exists(rt, part)?)
}

// Whether so many bytes are saved whole, and nothing is told of it.
fn is_saved(rt: &HostRuntime, count: u32) -> Result<bool, Fail> {
    let bytes = many(rt.alloc(), count)?;
    let (saved, told) = save(rt, "large.bin", &bytes);
    Ok(saved && told.is_empty() && stands(rt, "large.bin", "large.bin.sdcv-part", &bytes)?)
}

// The first is larger than each buffer and than a megabyte. The second leaves nothing of the first.
#[test]
fn a_file_gives_back_what_was_saved(rt: HostRuntime) -> Result<(), Fail> {
    for count in [1_200_000, 100_000, 0] {
        assert!(rt; is_saved(&rt, count)?, "{count} bytes");
    }
    clear(&rt, &["large.bin"]);
    Ok(())
}

// Prints the bytes in two pieces.
fn print(rt: &HostRuntime, bytes: &[u8]) -> Result<(), Fail> {
    let first = bytes.len().min(70_000);
    let out = File::create(rt, "printed.bin")?;
    let mut host = RealHost::new(rt.alloc(), "sdcv", rt, out, io::sink());
    host.print(&bytes[..first])?;
    host.print(&bytes[first..])?;
    Ok(())
}

// What is read of them, at most so many.
fn printed(rt: &HostRuntime, limit: usize) -> Result<Vec<u8>, ReadFault> {
    let mut told = Vec::new(rt.alloc());
    teller(rt.alloc(), rt, &mut told).read_file(rt.alloc(), "printed.bin", limit)
}

// 100,000 bytes are read back with their exact number as the limit, and with one less.
#[test]
fn all_pieces_are_printed(rt: HostRuntime) -> Result<(), Fail> {
    let bytes = many(rt.alloc(), 100_000)?;
    print(&rt, &bytes)?;
    assert!(rt; printed(&rt, 100_000)?.as_slice() == bytes.as_slice());
    assert_eq!(rt; printed(&rt, 99_999).err(), Some(ReadFault::TooLong));
    clear(&rt, &["printed.bin"]);
    Ok(())
}

// Names that can't be read, and what is told.
const UNREAD: &[(&str, &str)] = &[
    ("missing.txt", "sdcv: missing.txt: no such file\n"),
    (".", "sdcv: .: is a directory\n"),
    ("two\0words", "sdcv: two\0words: can't be read\n"),
];

// Names that nothing can be saved under.
const UNSAVED: &[(&str, &str)] = &[
    ("no/such/file", "sdcv: no/such/file: no such file\n"),
    (".", "sdcv: .: is a directory\n"),
    ("/dev/full", "sdcv: /dev/full: no space left\n"),
    ("two\0words", "sdcv: two\0words: can't be saved\n"),
];

// Why the name is not read, and what is told of it.
fn read(rt: &HostRuntime, name: &str) -> (Option<ReadFault>, Vec<u8>) {
    let mut told = Vec::new(rt.alloc());
    let fault = teller(rt.alloc(), rt, &mut told)
        .read_file(rt.alloc(), name, 9)
        .err();
    (fault, told)
}

#[test]
fn a_failed_read_is_told(rt: HostRuntime) {
    for (name, line) in UNREAD {
        let (fault, told) = read(&rt, name);
        assert_eq!(rt; fault, Some(ReadFault::Failed), "{name}");
        assert!(rt; told.as_slice() == line.as_bytes(), "{name}");
    }
}

#[test]
fn a_failed_save_is_told(rt: HostRuntime) {
    for (name, line) in UNSAVED {
        let (saved, told) = save(&rt, name, b"some bytes");
        assert!(rt; !saved && told.as_slice() == line.as_bytes(), "{name}");
    }
}

// `/dev/full` takes no byte, and stays what it is.
#[test]
fn a_failed_print_is_told(rt: HostRuntime) -> Result<(), Fail> {
    let alloc = rt.alloc();
    let full = File::options().write(true).open(&rt, "/dev/full")?;
    let mut told = Vec::new(alloc);
    let mut host = RealHost::new(alloc, "sdcv", &rt, full, &mut told);
    assert_eq!(rt; host.print(b"a line\n"), Err(HostFault::Failed));
    drop(host);
    assert!(rt; told.as_slice() == b"sdcv: standard output: can't be written\n".as_slice());
    Ok(())
}

/// The end of a pipe whose reader is gone.
#[derive(Drop)]
struct ClosedPipe;

impl Write for ClosedPipe {
    fn write(&mut self, _buf: &[u8]) -> io::Result<usize> {
        Err(io::Error::from(ErrorKind::BrokenPipe))
    }

    fn flush(&mut self) -> io::Result<()> {
        Ok(())
    }
}

#[test]
fn nothing_is_told_of_a_closed_pipe(rt: HostRuntime) {
    let alloc = rt.alloc();
    let mut told = Vec::new(alloc);
    let mut host = RealHost::new(alloc, "sdcv", &rt, ClosedPipe, &mut told);
    assert_eq!(rt; host.print(b"a line\n"), Err(HostFault::Failed));
    drop(host);
    assert!(rt; told.is_empty());
}

// Whether it is saved by a host that has read a file, and what is told of it.
fn save_after_read(rt: &HostRuntime, name: &str) -> Result<(bool, Vec<u8>), Fail> {
    let mut told = Vec::new(rt.alloc());
    let mut host = teller(rt.alloc(), rt, &mut told);
    host.read_file(rt.alloc(), "kept.v", 9)?;
    let saved = host.save(name, b"certificate").is_ok();
    drop(host);
    Ok((saved, told))
}

// Whether it is not, by its name, and the file stands.
fn is_kept(rt: &HostRuntime, name: &str) -> Result<bool, Fail> {
    let (saved, told) = save_after_read(rt, name)?;
    let line = format!(in rt.alloc(); "sdcv: {name} was read in this run and is not saved over\n")?;
    let is_told = told.as_slice() == line.as_bytes();
    Ok(!saved && is_told && held(rt, "kept.v")?.as_slice() == b"module".as_slice())
}

// Three names of one file that was read: none of them is saved over.
#[test]
fn a_file_that_was_read_is_not_saved_over(rt: HostRuntime) -> Result<(), Fail> {
    let made = ["kept.v", "also_kept.v"];
    clear(&rt, &made);
    fs::write(&rt, "kept.v", b"module")?;
    symlink(&rt, "kept.v", "also_kept.v")?;
    for name in ["kept.v", "./kept.v", "also_kept.v"] {
        assert!(rt; is_kept(&rt, name)?, "{name}");
    }
    clear(&rt, &made);
    Ok(())
}

// Whether a save under the link leaves the link and stands under its target.
fn is_followed(rt: &HostRuntime, target: &str, link: &str) -> Result<bool, Fail> {
    symlink(rt, target, link)?;
    let (saved, _) = save(rt, link, b"saved");
    let is_link = fs::symlink_metadata(rt, link)?.file_type().is_symlink();
    Ok(saved && is_link && held(rt, target)?.as_slice() == b"saved".as_slice())
}

// A link to a file, and one to a file that is not there yet.
#[test]
fn a_link_is_followed(rt: HostRuntime) -> Result<(), Fail> {
    let made = ["real_old", "real_new", "old_link", "new_link"];
    clear(&rt, &made);
    fs::write(&rt, "real_old", b"old")?;
    for (target, link) in [("real_old", "old_link"), ("real_new", "new_link")] {
        assert!(rt; is_followed(&rt, target, link)?, "{link}");
    }
    clear(&rt, &made);
    Ok(())
}

// The rights of a new file, which are those of the old one.
fn saved_mode(rt: &HostRuntime) -> Result<u32, Fail> {
    fs::write(rt, "own.cert", b"old")?;
    fs::set_permissions(rt, "own.cert", Permissions::from_mode(0o640))?;
    let (saved, _) = save(rt, "own.cert", b"new");
    let mode = fs::metadata(rt, "own.cert")?.permissions().mode();
    Ok(if saved { mode & 0o777 } else { 0 })
}

// A device stays one.
#[test]
fn what_stands_there_keeps_its_kind(rt: HostRuntime) -> Result<(), Fail> {
    assert_eq!(rt; saved_mode(&rt)?, 0o640);
    clear(&rt, &["own.cert"]);
    let (saved, _) = save(&rt, "/dev/null", b"new");
    assert!(rt; saved && !fs::metadata(&rt, "/dev/null")?.is_file());
    Ok(())
}

// What a pipe gets of a save.
fn piped(rt: &HostRuntime, bytes: &[u8]) -> Result<Vec<u8>, Fail> {
    let (mut reader, writer) = io::pipe(rt)?;
    let name = format!(in rt.alloc(); "/proc/self/fd/{}", writer.as_raw_fd())?;
    let (saved, _) = save(rt, name.as_str(), bytes);
    drop(writer);
    let mut got = Vec::new(rt.alloc());
    if saved {
        reader.read_to_end(&mut got)?;
    }
    Ok(got)
}

// It is all that is saved, with nothing beside it: it is written as it is.
#[test]
fn a_pipe_is_written_as_it_is(rt: HostRuntime) -> Result<(), Fail> {
    let bytes = many(rt.alloc(), 10_000)?;
    assert!(rt; piped(&rt, &bytes)?.as_slice() == bytes.as_slice());
    Ok(())
}

// Each step of a save that can fail, with what is told.
const STEPS: &[(Step, &str)] = &[
    (Step::Write, "sdcv: old.cert: no space left\n"),
    (Step::Sync, "sdcv: old.cert: can't be saved\n"),
    (Step::Rename, "sdcv: old.cert: permission denied\n"),
];

// Whether it is saved where the step fails, and what is told of it.
fn save_failing(rt: &HostRuntime, step: Step, bytes: &[u8]) -> (bool, Vec<u8>) {
    let mut told = Vec::new(rt.alloc());
    let files = FaultyFiles { files: rt, step };
    let saved = teller(rt.alloc(), files, &mut told).save("old.cert", bytes);
    (saved.is_ok(), told)
}

// After any of them the old file stands, and no part is left.
#[test]
fn a_failed_save_leaves_the_old_file(rt: HostRuntime) -> Result<(), Fail> {
    fs::write(&rt, "old.cert", b"old")?;
    let bytes = many(rt.alloc(), 10_000)?;
    for (step, line) in STEPS {
        let (saved, told) = save_failing(&rt, *step, &bytes);
        assert!(rt; !saved && told.as_slice() == line.as_bytes(), "{step:?}");
        assert!(rt;
            stands(&rt, "old.cert", "old.cert.sdcv-part", b"old")?,
            "{step:?}"
        );
    }
    clear(&rt, &["old.cert"]);
    Ok(())
}
