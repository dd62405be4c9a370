//! Reports read back, and texts that are none.
use crate::read_cases::{CUTS, CUTS_JSON, NOTES, SAMPLER, SIGNOFF};
use report_rows::ReportFault::{self, Ends, Json, Line, Pairs, Total};
use report_rows::{Said, Told, Word, read_report, stimulus_of};
use std::alloc::{AllocError, Global};
use std::process::Abort;
use std::test;

const HEAD: &str = "sdcv 1 mode plain reset 1 depth 8 budget 20000 inv 1\n";

const FREE_HEAD: &str = "sdcv 1 mode plain reset 1 depth 8 budget 20000 inv 1 free 0\n";

const STRICT_HEAD: &str = "sdcv 1 mode plain reset 1 depth 8 budget 20000 inv 1 strict\n";

// What follows the first line, and why that is no report.
const NONE: &[(&str, ReportFault)] = &[
    ("", Ends),
    ("\n", Line(2)),
    ("total 0 justified 0 refuted 0 undecided 0", Ends),
    ("total 0 justified 0 refuted 0 undecided 0\n\n", Line(3)),
    ("total 0 justified 0 refuted 0 unde\n", Line(2)),
    ("total 0 justified 0 refuted 0 undecided x\n", Line(2)),
    ("command 1 line 1 false\n", Line(2)),
    (
        "command 1 line 1 false pairs 18446744073709551616\n",
        Line(2),
    ),
    ("warning command 1 nothing x\n", Line(2)),
    (
        "command 1 line 1 hold\nwarning command 2 nothing x\n",
        Line(3),
    ),
    ("pair 2 command 1 false a -> b justified fixed\n", Line(2)),
    ("pair 1 command 1 false a -> b justif\n", Line(2)),
    ("pair 1 command 1 false a -> b justified\n", Line(2)),
    ("pair 1 command 1 a -> b justified fixed\n", Line(2)),
    ("pair 1 command 1 false a -> b justified fixed\r\n", Line(2)),
    ("pair 1 command 1 false a -> b justified fixed", Ends),
    ("pair 1 command 1 false a -> b justified fixed\n", Ends),
    ("skipped set_sense\n", Line(2)),
    ("skipped set_sense 0\n", Line(2)),
    ("skipped set_sense 01\n", Line(2)),
    ("skipped a 1\nskipped b x\n", Line(3)),
    ("command 1 line 1 hold\nskipped set_sense 1\n", Line(3)),
    ("top chip\n", Line(2)),
    ("clock ck\n", Line(2)),
    ("cut RAM 1\n", Line(2)),
    ("warning line 3 unjudged set_sense\n", Line(2)),
    ("note hold side not judged commands 1\n", Line(2)),
    ("found a -> b multi 4\n", Line(2)),
    ("refused sdc 1 Syntax 12\n", Line(2)),
];

// Reports after their first line that have other numbers of pairs than they say.
const MISCOUNTED: &[(&str, ReportFault)] = &[
    ("total 1 justified 1 refuted 0 undecided 0\n", Total),
    ("total 0 justified 1 refuted 0 undecided 0\n", Total),
    (
        "command 1 line 2 false pairs 9\ntotal 0 justified 0 refuted 0 undecided 0\n",
        Pairs(1, 0, 9),
    ),
    // A start and an end with the name of the arrow: what is read is no pair of these totals.
    (
        "command 1 line 2 multi 2 pairs 1
pair 1 command 1 multi 2 -> -> justified refuted offset 0
total 1 justified 0 refuted 1 undecided 0
",
        Total,
    ),
    // The first of two exceptions.
    (
        "command 1 line 2 false pairs 0
command 2 line 3 false hold pairs 0
pair 1 command 1 false a -> b justified fixed
pair 2 command 2 false hold a -> b justified fixed
total 0 justified 0 refuted 0 undecided 0
",
        Pairs(1, 1, 0),
    ),
];

// What follows the first line of a strict report, and why that is no report.
const NOT_STRICT: &[(&str, ReportFault)] = &[
    ("warning line 0 unjudged a\n", Line(2)),
    ("warning line 3 unjudged\n", Line(2)),
    ("warning line 3 passed a\n", Line(2)),
    ("warning line 3 unjudged a\nskipped a 1\n", Line(3)),
    (
        "command 1 line 1 hold\nwarning line 3 unjudged a\n",
        Line(3),
    ),
    ("note hold side not judged commands 0\n", Line(2)),
    ("note hold side not judged commands\n", Line(2)),
    (
        "note hold side not judged commands 1\nnote hold side not judged commands 1\n",
        Line(3),
    ),
    (
        "note hold side not judged commands 1\nwarning line 3 unjudged a\n",
        Line(3),
    ),
    ("end\nnote hold side not judged commands 1\n", Line(3)),
];

// What follows the first line of a report of a run in which cells may be cut out, and why that is no report.
const NOT_CUT: &[(&str, ReportFault)] = &[
    ("top\n", Line(2)),
    ("top chip\ntop chip\n", Line(3)),
    ("clock\n", Line(2)),
    ("clock ck\nclock ck\n", Line(3)),
    ("clock ck\ntop chip\n", Line(3)),
    ("cut RAM 1\nclock ck\n", Line(3)),
    ("cut RAM\n", Line(2)),
    ("cut RAM 0\n", Line(2)),
    ("cut RAM open\n", Line(2)),
    ("cut RAM 01 open\n", Line(2)),
    ("cut RAM 1 closed\n", Line(2)),
    ("cut RAM 1\ntop chip\n", Line(3)),
    ("skipped a 1\ncut RAM 1\n", Line(3)),
    ("command 1 line 1 hold\ncut RAM 1\n", Line(3)),
    ("warning line 3 unjudged a\n", Line(2)),
];

fn fault_after_head(alloc: Global, rest: &str) -> Result<Option<ReportFault>, AllocError> {
    let text = format!(in alloc; "{HEAD}{rest}")?;
    Ok(read_report(alloc, text.as_bytes()).err())
}

#[test]
fn the_first_line_that_is_none_of_a_report_is_told(rt: HostRuntime) -> Result<(), AllocError> {
    for (rest, want) in NONE {
        let fault = fault_after_head(rt.alloc(), rest)?;
        assert_eq!(rt; fault, Some(*want), "{rest}");
    }
    Ok(())
}

#[test]
fn what_is_told_beside_the_exceptions_stands_in_its_place(
    rt: HostRuntime,
) -> Result<(), AllocError> {
    for (rest, want) in NOT_STRICT {
        let text = format!(in rt.alloc(); "{STRICT_HEAD}{rest}")?;
        let fault = read_report(rt.alloc(), text.as_bytes()).err();
        assert_eq!(rt; fault, Some(*want), "{rest}");
    }
    Ok(())
}

#[test]
fn what_is_told_of_a_netlist_stands_in_its_place(rt: HostRuntime) -> Result<(), AllocError> {
    for (rest, want) in NOT_CUT {
        let text = format!(in rt.alloc(); "{FREE_HEAD}{rest}")?;
        let fault = read_report(rt.alloc(), text.as_bytes()).err();
        assert_eq!(rt; fault, Some(*want), "{rest}");
    }
    Ok(())
}

#[test]
fn a_report_with_other_numbers_of_pairs_than_it_says_is_refused(
    rt: HostRuntime,
) -> Result<(), AllocError> {
    for (rest, want) in MISCOUNTED {
        let fault = fault_after_head(rt.alloc(), rest)?;
        assert_eq!(rt; fault, Some(*want), "{rest}");
    }
    Ok(())
}

// Whole texts that are no reports: nothing, a refused run, a report of `detect`, one with CRLF, and JSON.
const NO_REPORTS: &[(&str, ReportFault)] = &[
    ("", Line(1)),
    ("refused verilog 1 Syntax 120\n", Line(1)),
    (
        "sdcv 1 detect mode plain reset 1 depth 8 budget 20000 inv 1 bound 4\n",
        Line(1),
    ),
    (
        "sdcv 1 mode plain reset 1 depth 8 budget 20000 inv 1\r\n",
        Line(1),
    ),
    (
        "sdcv 1 mode plain reset 1 depth 8 budget 20000 inv 1 lag\n",
        Line(1),
    ),
    (
        "sdcv 1 mode plain reset 1 depth 8 budget 20000 inv 1 strict free 0\n",
        Line(1),
    ),
    ("{", Json),
    (
        r#"{"commands":[],"mode":"plain","pairs":[],"reset":0,"unjudged":[],"total":{"justified":0,"pairs":0,"refuted":0,"undecided":0}}"#,
        Json,
    ),
    (
        r#"{"commands":[],"mode":"plain","pairs":[],"reset":0,"hold_commands":0,"total":{"justified":0,"pairs":0,"refuted":0,"undecided":0}}"#,
        Json,
    ),
    (
        r#"{"commands":[],"mode":"plain","pairs":[],"reset":0,"strict":true,"hold_commands":0,"total":{"justified":0,"pairs":0,"refuted":0,"undecided":0}}"#,
        Json,
    ),
    (
        r#"{"commands":[],"mode":"plain","pairs":[],"reset":0,"strict":true,"unjudged":[],"total":{"justified":0,"pairs":0,"refuted":0,"undecided":0}}"#,
        Json,
    ),
    (
        r#"{"commands":[],"mode":"plain","pairs":[],"reset":0,"strict":true,"hold":true,"hold_commands":0,"unjudged":[],"total":{"justified":0,"pairs":0,"refuted":0,"undecided":0}}"#,
        Json,
    ),
    (
        r#"{"commands":[],"mode":"plain","pairs":[],"reset":0,"skipped":1,"total":{"justified":0,"pairs":0,"refuted":0,"undecided":0}}"#,
        Json,
    ),
    (
        r#"{"commands":[],"mode":"plain","pairs":[],"reset":0,"skipped":[{"name":"a"}],"total":{"justified":0,"pairs":0,"refuted":0,"undecided":0}}"#,
        Json,
    ),
    ("{}", Json),
    (
        r#"{"mode":"plain","reset":0,"commands":[],"pairs":{}}"#,
        Json,
    ),
    (
        r#"{"mode":"plain","reset":-1,"commands":[],"pairs":[]}"#,
        Json,
    ),
    (
        r#"{"mode":"plain","reset":0,"commands":[],"pairs":[]}"#,
        Json,
    ),
    (
        r#"{"mode":"plain","reset":0,"commands":[],"pairs":[],"total":{"justified":0,"pairs":0,"refuted":0}}"#,
        Json,
    ),
    // Cells are cut out, and no list says which; or no cells may be.
    (
        r#"{"mode":"plain","reset":0,"free":0,"commands":[],"pairs":[],"total":{"justified":0,"pairs":0,"refuted":0,"undecided":0}}"#,
        Json,
    ),
    (
        r#"{"mode":"plain","reset":0,"cuts":[],"commands":[],"pairs":[],"total":{"justified":0,"pairs":0,"refuted":0,"undecided":0}}"#,
        Json,
    ),
    (
        r#"{"mode":"plain","reset":0,"top":"a","commands":[],"pairs":[],"total":{"justified":0,"pairs":0,"refuted":0,"undecided":0}}"#,
        Json,
    ),
    (
        r#"{"mode":"plain","reset":0,"clock":"ck","commands":[],"pairs":[],"total":{"justified":0,"pairs":0,"refuted":0,"undecided":0}}"#,
        Json,
    ),
    (
        r#"{"mode":"plain","reset":0,"free":0,"clock":1,"cuts":[],"commands":[],"pairs":[],"total":{"justified":0,"pairs":0,"refuted":0,"undecided":0}}"#,
        Json,
    ),
    (
        r#"{"mode":"plain","reset":0,"free":0,"cuts":[{"cells":1,"name":"a"}],"commands":[],"pairs":[],"total":{"justified":0,"pairs":0,"refuted":0,"undecided":0}}"#,
        Json,
    ),
    (
        r#"{"mode":"plain","reset":0,"commands":[],"pairs":[],"total":{"justified":0,"pairs":0,"refuted":0,"undecided":1}}"#,
        Total,
    ),
    (
        r#"{"mode":"plain","reset":0,"commands":[{"line":1,"number":7,"pairs":2,"warnings":[],"what":"false"}],"pairs":[],"total":{"justified":0,"pairs":0,"refuted":0,"undecided":0}}"#,
        Pairs(7, 0, 2),
    ),
];

#[test]
fn what_is_no_report_is_refused(rt: HostRuntime) {
    for (text, want) in NO_REPORTS {
        let fault = read_report(rt.alloc(), text.as_bytes()).err();
        assert_eq!(rt; fault, Some(*want), "{text}");
    }
}

// No part of the text that ends before its end is a report.
fn check_cuts(rt: &impl Abort, alloc: Global, text: &[u8]) {
    for end in 0..text.len() {
        assert!(rt; read_report(alloc, &text[..end]).is_err(), "{end}");
    }
}

#[test]
fn each_cut_of_a_report_is_refused(rt: HostRuntime) {
    check_cuts(&rt, rt.alloc(), SAMPLER.as_bytes());
    check_cuts(&rt, rt.alloc(), NOTES.as_bytes());
    check_cuts(&rt, rt.alloc(), SIGNOFF.as_bytes());
    check_cuts(&rt, rt.alloc(), CUTS.as_bytes());
}

#[test]
fn rows_have_what_the_lines_say(rt: HostRuntime) -> Result<(), test::Fail> {
    let report = read_report(rt.alloc(), NOTES.as_bytes())?;
    assert!(rt; report.head.hazard);
    assert_eq!(rt; (report.head.reset, report.head.lag), (0, 2));
    let Some(warned) = report.script.as_slice().get(5) else {
        rt.abort();
    };
    assert_eq!(rt; (warned.command, warned.line), (4, 5));
    assert!(rt;
        matches!(&warned.said, Said::Warns(text) if text.as_bytes() == b"dropped x[*] 2".as_slice())
    );
    let Some(last) = report.pairs.as_slice().get(2) else {
        rt.abort();
    };
    assert_eq!(rt; (last.number, last.command), (3, 4));
    assert!(rt; last.kind.as_bytes() == b"multi 2 rise".as_slice());
    assert!(rt; last.start.as_bytes() == b"m[4]/a[x]".as_slice());
    assert!(rt; last.end.as_bytes() == b"q[]_reg".as_slice());
    assert_eq!(rt; last.verdict, Word::Undecided);
    assert!(rt; last.why.as_bytes() == b"budget base 3".as_slice());
    Ok(())
}

#[test]
fn rows_have_what_is_told_beside_the_exceptions(rt: HostRuntime) -> Result<(), test::Fail> {
    let report = read_report(rt.alloc(), SIGNOFF.as_bytes())?;
    let told = report.told.as_slice();
    assert_eq!(rt; told.len(), 5);
    assert!(rt;
        matches!(told.get(1), Some(Told::Skipped(name, 1)) if name.as_bytes() == b"set dont use".as_slice())
    );
    assert!(rt;
        matches!(told.get(2), Some(Told::Unjudged(3, name)) if name.as_bytes() == b"set_clock_groups".as_slice())
    );
    assert!(rt; matches!(told.get(4), Some(Told::HoldSides(2))));
    Ok(())
}

// The rows of a report of cells that are cut out, by lines or as JSON.
fn has_cuts(told: &[Told]) -> bool {
    told.len() == 5
        && matches!(told.first(), Some(Told::Top(name)) if name.as_bytes() == b"chip".as_slice())
        && matches!(told.get(1), Some(Told::Clock(name)) if name.as_bytes() == b"clk a".as_slice())
        && matches!(told.get(2), Some(Told::Cut(cell, 1, false)) if cell.as_bytes() == b"RAM".as_slice())
        && matches!(told.get(3), Some(Told::Cut(cell, 2, true)) if cell.as_bytes() == b"pad cell".as_slice())
        && matches!(told.get(4), Some(Told::Skipped(_, 2)))
}

#[test]
fn rows_have_what_is_told_of_a_netlist(rt: HostRuntime) -> Result<(), test::Fail> {
    for text in [CUTS, CUTS_JSON] {
        let report = read_report(rt.alloc(), text.as_bytes())?;
        assert_eq!(rt; report.head.asked.free, Some(2));
        assert!(rt; has_cuts(report.told.as_slice()), "{text}");
        let stimulus = stimulus_of(rt.alloc(), text.as_bytes(), 2)?;
        assert_eq!(rt; (stimulus.state.len(), stimulus.inputs.len()), (0, 2));
    }
    Ok(())
}
