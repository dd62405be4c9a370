//! Gates over files in memory.
use crate::answers::answer;
use crate::commands::asked_by;
use crate::ends::{Answer, Ended};
use sdcv_base::{FileRec, MemHost, Name};
use std::alloc::{AllocError, Global};

const PASSES: &[u8] = b"sdcv 1 mode plain reset 0 depth 8 budget 20000 inv 1
command 1 line 1 false pairs 1
pair 1 command 1 false a -> b justified fixed
total 1 justified 1 refuted 0 undecided 0
";

const STOPS: &[u8] = b"sdcv 1 mode plain reset 0 depth 8 budget 20000 inv 1
command 1 line 1 false pairs 1
pair 1 command 1 false a -> b undecided depth 8
total 1 justified 0 refuted 0 undecided 1
";

const CUT: &[u8] = b"sdcv 1 mode plain reset 0 depth 8 budget 20000 inv 1\n";

const FILES: &[(&str, &[u8])] = &[
    ("passes", PASSES),
    ("stops", STOPS),
    ("cut", CUT),
    ("empty", b""),
    ("known", b"a -> b false undecided until 2027-06-30\n"),
    ("other", b"a -> c false undecided\n"),
    ("broken", b"# so\na -> b justified\n"),
];

const LINE: &str = "a -> b 1 undecided depth 8 command 1 false first 1\n";

// Words after `gate`, the status, what is printed, and what is told on standard error.
const CASES: &[(&str, u8, &str, &str)] = &[
    ("passes", 0, "", ""),
    ("stops", 1, LINE, ""),
    ("passes --today 2027-06-30", 0, "", ""),
    (
        "nowhere --today yesterday",
        2,
        "",
        "--today takes a day of the calendar, as 2027-06-30",
    ),
    ("stops --accepted empty", 1, LINE, ""),
    ("stops --accepted other", 1, LINE, "other:1: fits nothing"),
    ("stops --accepted known --today 2027-06-30", 0, "", ""),
    (
        "stops --accepted known --today 2027-07-01",
        1,
        LINE,
        "known:1: until 2027-06-30 is over",
    ),
    (
        "stops --accepted known",
        3,
        "",
        "known:1: until 2027-06-30 wants --today",
    ),
    (
        "stops --accepted known --today 2027-02-29",
        2,
        "",
        "--today takes a day of the calendar, as 2027-06-30",
    ),
    (
        "stops --accepted broken",
        3,
        "",
        "broken:2: no line of an accepted list",
    ),
    ("cut --accepted broken", 3, "", "cut ends before its total"),
    ("nowhere", 5, "", ""),
    ("stops --accepted nowhere", 5, "", ""),
];

// A host with the files.
fn host(alloc: Global) -> Result<MemHost, AllocError> {
    let mut files = Vec::new(alloc);
    for (name, bytes) in FILES {
        let name = Name::new(alloc, name.as_bytes())?;
        let bytes = Vec::from_slice(alloc, bytes)?;
        files.push(FileRec { name, bytes })?;
    }
    MemHost::new(alloc, files, Vec::new(alloc), 4096)
}

// The words of a command.
fn words_of(alloc: Global, line: &str) -> Result<Vec<String>, AllocError> {
    let mut words = Vec::new(alloc);
    words.push(String::from_str(alloc, "gate")?)?;
    for word in line.split(' ') {
        words.push(String::from_str(alloc, word)?)?;
    }
    Ok(words)
}

// What is told beside an answer.
fn told(alloc: Global, answer: &Answer) -> Result<String, AllocError> {
    let mut text = String::new(alloc);
    for remark in answer.remarks.as_slice() {
        text.push_str(remark.as_str())?;
    }
    Ok(text)
}

// The status of a run, and what it tells on standard error.
fn end_of(alloc: Global, ended: Result<Answer, Ended>) -> Result<(u8, String), AllocError> {
    match ended {
        Ok(answer) => Ok((answer.status, told(alloc, &answer)?)),
        Err(Ended::Stopped(stop)) => Ok((stop.status(), format!(in alloc; "{stop}")?)),
        Err(Ended::Host) => Ok((5, String::new(alloc))),
    }
}

#[test]
fn a_gate_ends_with_its_status(rt: HostRuntime) -> Result<(), AllocError> {
    for (line, status, printed, tells) in CASES {
        let mut host = host(rt.alloc())?;
        let words = words_of(rt.alloc(), line)?;
        let Ok(asked) = asked_by(rt.alloc(), &words) else {
            return Err(AllocError);
        };
        let ended = answer(rt.alloc(), &mut host, &asked);
        let (got, told) = end_of(rt.alloc(), ended)?;
        assert_eq!(rt; got, *status, "{line}");
        assert!(rt; host.printed() == printed.as_bytes(), "{line}");
        assert!(rt; told.as_bytes() == tells.as_bytes(), "{line}");
    }
    Ok(())
}
