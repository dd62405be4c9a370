//! What of a report stops a build beside what a list accepts, and what is told of the list.
use crate::read_cases::{NOTES, SAMPLER, SIGNOFF};
use accepted_lists::{Day, ListFault, ListLine, day_of, list_on, read_list};
use report_groups::{Gate, gate_with, line_remark_text, remarks_of};
use report_rows::{Report, ReportFault, read_report};
use sdcv_base::Seq;
use std::alloc::{AllocError, Global};
use thiserror::Error;

/// Why a case was not tried.
#[derive(Debug, Drop, Error)]
enum Untried {
    #[error("no report")]
    Report(ReportFault),
    #[error("no list")]
    List(ListFault),
    #[error("no day")]
    Day,
    #[error("out of memory")]
    Memory,
}

impl From<AllocError> for Untried {
    fn from(_: AllocError) -> Untried {
        Untried::Memory
    }
}

impl From<ReportFault> for Untried {
    fn from(fault: ReportFault) -> Untried {
        Untried::Report(fault)
    }
}

impl From<ListFault> for Untried {
    fn from(fault: ListFault) -> Untried {
        Untried::List(fault)
    }
}

/// A report, a list, the day, what stops a build, and what is told of the list.
struct Case {
    report: &'static str,
    list: &'static str,
    today: &'static str,
    stops: &'static str,
    remarks: &'static str,
}

/// Names that could be words of a list.
const HOSTILE: &str = "sdcv 1 mode plain reset 0 depth 8 budget 20000 inv 1
command 1 line 1 false pairs 4
pair 1 command 1 false -> -> -> undecided depth 8
pair 2 command 1 false justified -> until undecided depth 8
pair 3 command 1 false \"a\" -> 'b' undecided depth 8
pair 4 command 1 false #c -> # undecided depth 8
total 4 justified 0 refuted 0 undecided 4
";

const ODD: &str =
    "u_path/a_reg[*] -> u_watch/odd_reg 2 refuted offset 0 command 3 multi 2 first 5\n";

const SNAP: &str =
    "u_settings/mode_reg -> u_watch/snap_reg 1 undecided depth 8 command 4 false first 9\n";

const CASES: &[Case] = &[
    Case {
        report: SAMPLER,
        list: "u_path/* -> u_watch/odd_reg multi 2 refuted until 2027-06-30\n",
        today: "2027-06-30",
        stops: SNAP,
        remarks: "",
    },
    Case {
        report: SAMPLER,
        list: "# known\n\nu_path/* -> u_watch/odd_reg multi 2 refuted until 2027-06-30  # asked\n",
        today: "2027-07-01",
        stops: "u_path/a_reg[*] -> u_watch/odd_reg 2 refuted offset 0 command 3 multi 2 first 5
u_settings/mode_reg -> u_watch/snap_reg 1 undecided depth 8 command 4 false first 9
",
        remarks: "L:3: until 2027-06-30 is over\n",
    },
    Case {
        report: SAMPLER,
        list: "u_path/a_reg[*] -> u_watch/odd_reg 1 multi 2 refuted
u_settings/mode_reg -> u_watch/snap_reg 7 undecided depth 5 command 9 false first 2
u_path/* -> u_path/* multi 2 refuted
u_settings/mode_reg -> u_watch/snap_reg hazard false undecided
warning nothing nosuch*
",
        today: "",
        stops: ODD,
        remarks: "L:1: accepts 1 pair, here are 2
L:3: fits nothing
L:4: fits nothing
L:5: fits nothing
",
    },
    Case {
        report: SAMPLER,
        list: "* -> * multi 2 refuted\n*/* -> */* 0 multi 2 refuted\n*/* -> */* false undecided\n",
        today: "",
        stops: ODD,
        remarks: "L:1: fits nothing\nL:2: accepts 0 pairs, here are 2\n",
    },
    Case {
        report: NOTES,
        list: "warning nothing nosuch* b until 2028-02-29
command 4 line 5 warning dropped x[*] 2
false selects nothing
command 2 line 3 aside -rise until 2028-02-28
m[*]/a[x] -> q[]_reg lag 2 multi 2 rise undecided
",
        today: "2028-02-29",
        stops: "command 2 line 3 aside -rise\n",
        remarks: "L:4: until 2028-02-28 is over\n",
    },
    Case {
        report: SIGNOFF,
        list: "unjudged set_sense\nline 9 unjudged set_clock_groups\n",
        today: "",
        stops: "line 3 unjudged set_clock_groups\ncommand 2 line 7 false selects nothing\n",
        remarks: "L:2: fits nothing\n",
    },
    Case {
        report: HOSTILE,
        list: "-> -> -> 1 undecided depth 8 command 1 false first 1
justified -> until false undecided until 2027-01-01
\"a\" -> 'b' 1 undecided depth 8 command 1 false first 3
?c -> ? false undecided
",
        today: "2026-12-31",
        stops: "",
        remarks: "",
    },
    Case {
        report: HOSTILE,
        list: "#c -> # 1 undecided depth 8 command 1 false first 4\n",
        today: "",
        stops: "-> -> -> 1 undecided depth 8 command 1 false first 1
justified -> until 1 undecided depth 8 command 1 false first 2
\"a\" -> 'b' 1 undecided depth 8 command 1 false first 3
#c -> # 1 undecided depth 8 command 1 false first 4
",
        remarks: "",
    },
];

// The day, where one is given.
fn day(word: &str) -> Result<Option<Day>, Untried> {
    if word.is_empty() {
        return Ok(None);
    }
    match day_of(word.as_bytes()) {
        Some(day) => Ok(Some(day)),
        None => Err(Untried::Day),
    }
}

// What is told of the list in the file `L`.
fn remarks(
    alloc: Global,
    today: Option<Day>,
    lines: &[ListLine],
    report: &Report,
) -> Result<Vec<u8>, AllocError> {
    let found = remarks_of(alloc, today, lines, report)?;
    let mut text = Vec::new(alloc);
    for remark in found.as_slice() {
        let line = line_remark_text(alloc, "L", remark)?;
        text.extend_from_slice(line.as_bytes())?;
        text.push(b'\n')?;
    }
    Ok(text)
}

fn gate_by(
    alloc: Global,
    today: Option<Day>,
    lines: &Seq<ListLine>,
    report: Report,
) -> Result<Gate, AllocError> {
    let list = list_on(alloc, today, lines.as_slice())?;
    gate_with(alloc, &list, report)
}

#[test]
fn a_build_stops_at_what_no_list_accepts(rt: HostRuntime) -> Result<(), Untried> {
    for case in CASES {
        let list = case.list;
        let report = read_report(rt.alloc(), case.report.as_bytes())?;
        let lines = read_list(rt.alloc(), list.as_bytes())?;
        let today = day(case.today)?;
        let told = remarks(rt.alloc(), today, lines.as_slice(), &report)?;
        assert!(rt;
            told.as_slice() == case.remarks.as_bytes(),
            "remarks of {list}"
        );
        let gate = gate_by(rt.alloc(), today, &lines, report)?;
        assert!(rt;
            gate.text.as_slice() == case.stops.as_bytes(),
            "stops of {list}"
        );
        assert_eq!(rt; gate.passes, case.stops.is_empty(), "{list}");
    }
    Ok(())
}

// Lists, and the first line that is none of one.
const BROKEN: &[(&str, u64)] = &[
    ("\na -> b false refuted until tomorrow\n", 2),
    ("a -> b false refuted until 2027-6-30\n", 1),
    ("a -> b false refuted until 2027-13-01\n", 1),
    ("a -> b false refuted until 2027-02-29\n", 1),
    ("# so\n# so\nwarning nothing x until 2027/06/30\n", 3),
    ("until 2027-06-30\n", 1),
    ("a -> b until 2027-06-30\n", 1),
    ("a -> b false justified\n", 1),
    ("a -> b false refuted 2027-06-30\n", 1),
    ("a -> b false refuted until 2027-06-30 2028-06-30\n", 1),
    ("no exception\n", 1),
    ("a -> # false refuted\n", 1),
];

#[test]
fn a_list_is_refused_at_its_first_broken_line(rt: HostRuntime) {
    for (list, line) in BROKEN {
        match read_list(rt.alloc(), list.as_bytes()) {
            Ok(_) => assert!(rt; false, "{list}"),
            Err(fault) => assert_eq!(rt; fault, ListFault::Line(*line), "{list}"),
        }
    }
}

const DAYS: &[(&str, bool)] = &[
    ("2027-06-30", true),
    ("2027-06-31", false),
    ("2027-00-10", false),
    ("2027-10-00", false),
    ("2028-02-29", true),
    ("2100-02-29", false),
    ("2000-02-29", true),
    ("0000-01-01", true),
    ("9999-12-31", true),
    ("2027-12-32", false),
    ("20270630", false),
    ("2027-06-3", false),
    ("+027-06-30", false),
    ("2027-06-30 ", false),
    ("", false),
];

#[test]
fn a_day_is_one_of_the_calendar(rt: HostRuntime) {
    for (word, want) in DAYS {
        assert_eq!(rt; day_of(word.as_bytes()).is_some(), *want, "{word}");
    }
}
