use sdcv_base::{
    Cursor, Fail, FileRec, Host, HostFault, LimitName, MemHost, Name, ReadFault, Seq, push_decimal,
    read_decimal,
};
use std::alloc::{AllocError, Global};
use std::process::Abort;
use std::test;

// Texts and limits, read by hand: 1 to 20 digits, leading zeros allowed, nothing else.
#[test]
fn decimals_are_digits_up_to_a_limit(rt: HostRuntime) -> Result<(), test::Fail> {
    let cases: [(&[u8], u64, Option<u64>); 9] = [
        (b"0", 0, Some(0)),
        (b"007", 7, Some(7)),
        (b"64", 64, Some(64)),
        (b"65", 64, None),
        (b"", 9, None),
        (b"+1", 9, None),
        (b"1 ", 9, None),
        (b"18446744073709551615", u64::MAX, Some(u64::MAX)),
        (b"000000000000000000001", 9, None),
    ];
    for (text, limit, want) in cases {
        assert_eq!(rt; read_decimal(text, limit), want, "limit {limit}");
    }
    let mut out = Vec::new(rt.alloc());
    push_decimal(rt.alloc(), &mut out, 190)?;
    push_decimal(rt.alloc(), &mut out, 0)?;
    assert!(rt; out.as_slice() == b"1900".as_slice());
    Ok(())
}

fn file(alloc: Global, name: &[u8], bytes: &[u8]) -> Result<FileRec, AllocError> {
    Ok(FileRec {
        name: Name::new(alloc, name)?,
        bytes: Vec::from_slice(alloc, bytes)?,
    })
}

fn two_files(alloc: Global) -> Result<Vec<FileRec>, AllocError> {
    let mut files = Vec::new(alloc);
    files.push(file(alloc, b"v", b"first")?)?;
    files.push(file(alloc, b"v", b"second")?)?;
    Ok(files)
}

fn planned_host(alloc: Global) -> Result<MemHost, AllocError> {
    let files = two_files(alloc)?;
    let fails = Vec::from_slice(alloc, &[Fail { call: 3, taken: 2 }])?;
    MemHost::new(alloc, files, fails, 8)
}

fn has_read(rt: &impl Abort, alloc: Global, host: &mut MemHost) -> Result<(), ReadFault> {
    assert!(rt; host.read_file(alloc, "v", 5)?.as_slice() == b"first".as_slice());
    assert!(rt; matches!(host.read_file(alloc, "v", 4), Err(ReadFault::TooLong)));
    Ok(())
}

fn has_written(rt: &impl Abort, alloc: Global, host: &mut MemHost) {
    assert!(rt; host.print(b"abc").is_err());
    assert!(rt; host.print(b"def").is_ok());
    assert!(rt; host.print(b"too long").is_err());
    assert!(rt; host.save("c", b"kept").is_ok());
    assert!(rt; host.save("d", b"not").is_err());
    assert!(rt; matches!(host.read_file(alloc, "w", 9), Err(ReadFault::Failed)));
}

fn has_kept(rt: &impl Abort, host: &MemHost) {
    assert!(rt; host.printed() == b"abdef".as_slice());
    assert_eq!(rt; host.faults(), 4);
    assert_eq!(rt; host.asked().len(), 3);
    assert_eq!(rt; host.saved().len(), 1);
}

// Of two files of one name the first counts; call 3 is planned to fail after two bytes.
#[test]
fn a_host_in_memory_does_as_planned(rt: HostRuntime) -> Result<(), test::Fail> {
    let mut host = planned_host(rt.alloc())?;
    has_read(&rt, rt.alloc(), &mut host)?;
    has_written(&rt, rt.alloc(), &mut host);
    has_kept(&rt, &host);
    Ok(())
}

// As the types' own words say it.
#[test]
fn faults_have_their_words(rt: HostRuntime) -> Result<(), test::Fail> {
    let alloc = rt.alloc();
    let reads = [
        (ReadFault::Failed, "the host could not read"),
        (ReadFault::TooLong, "the file is too long"),
        (ReadFault::Memory, "out of memory"),
    ];
    for (fault, want) in reads {
        assert_eq!(rt; format!(in alloc; "{fault}")?.as_str(), want);
    }
    let write = HostFault::Failed;
    assert_eq!(rt;
        format!(in alloc; "{write}")?.as_str(),
        "the host could not write"
    );
    Ok(())
}

fn shows_its_bytes(rt: &impl Abort, alloc: Global) -> Result<(), test::Fail> {
    let name = Name::new(alloc, b"a\x07z")?;
    assert!(rt; name.copy(alloc)? == name);
    let shown = format!(in alloc; "{name} {}", LimitName::Pairs)?;
    assert_eq!(rt; shown.as_str(), "a?z pairs");
    Ok(())
}

fn holds_numbers(rt: &impl Abort, alloc: Global) -> Result<(), AllocError> {
    let mut numbers = Seq::new(alloc);
    numbers.push(5_usize)?;
    assert_eq!(rt; numbers.copy(alloc)?.at(0), 5);
    assert_eq!(rt; Seq::of(alloc, &[3_u8, 4])?.at(1), 4);
    assert_eq!(rt; Seq::filled(alloc, 7_u8, 3)?.at(2), 7);
    assert_eq!(rt; Seq::one(alloc, 9_u8)?.len(), 1);
    Ok(())
}

#[test]
fn names_lists_and_cursors_give_what_they_hold(rt: HostRuntime) -> Result<(), test::Fail> {
    shows_its_bytes(&rt, rt.alloc())?;
    holds_numbers(&rt, rt.alloc())?;
    let mut cursor = Cursor::new(b"xy");
    cursor.bump();
    assert_eq!(rt; cursor.peek(), Some(b'y'));
    cursor.skip(1);
    assert_eq!(rt; cursor.peek(), None);
    Ok(())
}
