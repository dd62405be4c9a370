//! Reports as lines and as JSON, and the stimuli that are read back.
use crate::builders::{
    Bits, Case, Found, Pair, check_rows, is_stimulus, joined, notices_of, selected_of, verdicts_of,
};
use crate::cases::{CASES, CUTS, EACH};
use report_json::write_json;
use report_text::write_report;
use std::alloc::{AllocError, Global};
use std::process::Abort;
use witness_replay::{StimFault, read_stim};

fn lines(rt: &impl Abort, alloc: Global, case: &Case) -> Result<Vec<Vec<u8>>, AllocError> {
    let notices = notices_of(alloc, &case.tells)?;
    let selected = selected_of(alloc, case)?;
    let verdicts = verdicts_of(alloc, case.pairs)?;
    check_rows(rt, &selected, &verdicts);
    write_report(alloc, &case.options, &notices, &selected, &verdicts)
}

fn text(rt: &impl Abort, alloc: Global, case: &Case) -> Result<Vec<u8>, AllocError> {
    let lines = lines(rt, alloc, case)?;
    joined(alloc, &lines)
}

fn json(rt: &impl Abort, alloc: Global, case: &Case) -> Result<Vec<u8>, AllocError> {
    let notices = notices_of(alloc, &case.tells)?;
    let selected = selected_of(alloc, case)?;
    let verdicts = verdicts_of(alloc, case.pairs)?;
    check_rows(rt, &selected, &verdicts);
    write_json(alloc, &case.options, &notices, &selected, &verdicts)
}

#[test]
fn each_report_has_its_lines_and_its_json(rt: HostRuntime) -> Result<(), AllocError> {
    for case in CASES {
        let text = text(&rt, rt.alloc(), case)?;
        assert!(rt; text.as_slice() == case.text.as_bytes(), "{}", case.text);
        let json = json(&rt, rt.alloc(), case)?;
        assert!(rt; json.as_slice() == case.json.as_bytes(), "{}", case.json);
    }
    Ok(())
}

// The bits by which a pair is refuted, or may be.
fn bits_of(found: Found) -> Option<Bits> {
    match found {
        Found::Refuted(_offset, bits) | Found::Free(_offset, bits) => Some(bits),
        _ => None,
    }
}

// Whether the stimulus of a pair in a report is the one by which it is refuted, or may be, or there is none as it is not.
fn is_read_back(alloc: Global, report: &str, pair: &Pair, number: u64) -> bool {
    match (bits_of(pair.4), read_stim(alloc, report.as_bytes(), number)) {
        (Some(bits), Ok(stimulus)) => is_stimulus(&stimulus, bits),
        (None, Err(fault)) => fault == StimFault::NoBlock,
        _ => false,
    }
}

#[test]
fn the_stimulus_of_each_refuted_pair_is_read_back(rt: HostRuntime) {
    for case in &[EACH, CUTS] {
        for (pair, number) in case.pairs.iter().zip(1..) {
            assert!(rt;
                is_read_back(rt.alloc(), case.text, pair, number),
                "pair {number}"
            );
        }
    }
}
