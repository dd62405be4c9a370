//! Groups, the gate, and comma-separated values.
use crate::read_cases::{
    CLEAN, CUTS, CUTS_JSON, EMPTY, NOTED, NOTES, NOTES_JSON, REFUTED_JSON, SAMPLER, SIGNOFF,
    SIGNOFF_JSON,
};
use report_groups::{Gate, csv_text, gate, groups_text};
use report_rows::{ReportFault, read_report};
use std::alloc::Global;

const SAMPLER_GROUPS: &str =
    "u_path/a_reg[*] -> u_path/b_reg[*] 4 justified depth 0 command 1 multi 2 first 1
u_path/a_reg[*] -> u_watch/odd_reg 2 refuted offset 0 command 3 multi 2 first 5
u_settings/mode_reg -> u_path/b_reg[*] 2 justified depth 0 command 4 false first 7
u_settings/mode_reg -> u_watch/snap_reg 1 undecided depth 8 command 4 false first 9
";

const SAMPLER_GATE: &str =
    "u_path/a_reg[*] -> u_watch/odd_reg 2 refuted offset 0 command 3 multi 2 first 5
u_settings/mode_reg -> u_watch/snap_reg 1 undecided depth 8 command 4 false first 9
";

const NOTES_GROUPS: &str = "command 1 line 2 false selects nothing
command 1 line 2 warning nothing nosuch* b
command 2 line 3 aside -rise
command 4 line 5 warning dropped x[*] 2
m[*]/a[*] -> q[*]_reg 2 justified single command 4 multi 2 rise first 1
m[*]/a[x] -> q[]_reg 1 undecided budget base 3 command 4 multi 2 rise first 3
";

const NOTES_GATE: &str = "command 1 line 2 false selects nothing
command 1 line 2 warning nothing nosuch* b
command 2 line 3 aside -rise
command 4 line 5 warning dropped x[*] 2
m[*]/a[x] -> q[]_reg 1 undecided budget base 3 command 4 multi 2 rise first 3
";

const SIGNOFF_GROUPS: &str = "line 3 unjudged set_clock_groups
line 4 unjudged set_sense
command 2 line 7 false selects nothing
a -> b 1 justified fixed command 1 false first 1
";

const SIGNOFF_GATE: &str = "line 3 unjudged set_clock_groups
line 4 unjudged set_sense
command 2 line 7 false selects nothing
";

const CUTS_GROUPS: &str = "a[*] -> m/A[*] 2 undecided free 0 command 1 false first 1
a[*] -> b 1 undecided cut command 1 false first 3
";

// A report, its groups, and what of it stops a build.
const TOLD: &[(&str, &str, &str)] = &[
    (SAMPLER, SAMPLER_GROUPS, SAMPLER_GATE),
    (NOTES, NOTES_GROUPS, NOTES_GATE),
    (NOTES_JSON, NOTES_GROUPS, NOTES_GATE),
    (SIGNOFF, SIGNOFF_GROUPS, SIGNOFF_GATE),
    (SIGNOFF_JSON, SIGNOFF_GROUPS, SIGNOFF_GATE),
    (CUTS, CUTS_GROUPS, CUTS_GROUPS),
    (CUTS_JSON, CUTS_GROUPS, CUTS_GROUPS),
    (
        NOTED,
        "a -> b 1 justified fixed command 1 false first 1\n",
        "",
    ),
    (EMPTY, "no exception\n", "no exception\n"),
    (
        CLEAN,
        "a -> b 1 justified fixed command 1 false first 1\n",
        "",
    ),
    (
        REFUTED_JSON,
        "a -> b 1 refuted offset 0 command 1 false first 1\n",
        "a -> b 1 refuted offset 0 command 1 false first 1\n",
    ),
];

fn groups(alloc: Global, report: &str) -> Result<Vec<u8>, ReportFault> {
    let read = read_report(alloc, report.as_bytes())?;
    Ok(groups_text(alloc, &read)?)
}

fn gate_of(alloc: Global, report: &str) -> Result<Gate, ReportFault> {
    let read = read_report(alloc, report.as_bytes())?;
    Ok(gate(alloc, &read)?)
}

#[test]
fn a_report_is_told_by_groups(rt: HostRuntime) -> Result<(), ReportFault> {
    for (report, want, stopping) in TOLD {
        let text = groups(rt.alloc(), report)?;
        assert!(rt; text.as_slice() == want.as_bytes(), "{want}");
        let gate = gate_of(rt.alloc(), report)?;
        assert!(rt; gate.text.as_slice() == stopping.as_bytes(), "{stopping}");
        assert_eq!(rt; gate.passes, stopping.is_empty(), "{stopping}");
    }
    Ok(())
}

const SAMPLER_CSV: &str = "command,kind,start,end,pairs,verdict,why,first
1,multi 2,u_path/a_reg[*],u_path/b_reg[*],4,justified,depth 0,1
3,multi 2,u_path/a_reg[*],u_watch/odd_reg,2,refuted,offset 0,5
4,false,u_settings/mode_reg,u_path/b_reg[*],2,justified,depth 0,7
4,false,u_settings/mode_reg,u_watch/snap_reg,1,undecided,depth 8,9
";

// RFC 4180: a field with a comma or a quote stands in quotes, and a quote in it twice.
const QUOTED: &str = "sdcv 1 mode plain reset 0 depth 8 budget 20000 inv 1
command 1 line 1 false pairs 1
pair 1 command 1 false a,b -> \"c\" justified fixed
total 1 justified 1 refuted 0 undecided 0
";

const QUOTED_CSV: &str = "command,kind,start,end,pairs,verdict,why,first
1,false,\"a,b\",\"\"\"c\"\"\",1,justified,fixed,1
";

// What a spreadsheet may run has a `'` in front, within the quotes.
const RUNNING: &str = "sdcv 1 mode plain reset 0 depth 8 budget 20000 inv 1
command 1 line 1 false pairs 2
pair 1 command 1 false =2+3 -> @b,c justified fixed
pair 2 command 1 false -x -> a+b undecided depth 8
total 2 justified 1 refuted 0 undecided 1
";

const RUNNING_CSV: &str = "command,kind,start,end,pairs,verdict,why,first
1,false,'=2+3,\"'@b,c\",1,justified,fixed,1
1,false,'-x,a+b,1,undecided,depth 8,2
";

const SEPARATED: &[(&str, &str)] = &[
    (SAMPLER, SAMPLER_CSV),
    (QUOTED, QUOTED_CSV),
    (RUNNING, RUNNING_CSV),
];

fn csv(alloc: Global, report: &str) -> Result<Vec<u8>, ReportFault> {
    let read = read_report(alloc, report.as_bytes())?;
    Ok(csv_text(alloc, &read)?)
}

#[test]
fn groups_are_told_as_comma_separated_values(rt: HostRuntime) -> Result<(), ReportFault> {
    for (report, want) in SEPARATED {
        let text = csv(rt.alloc(), report)?;
        assert!(rt; text.as_slice() == want.as_bytes(), "{want}");
    }
    Ok(())
}
