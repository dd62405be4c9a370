//! The stimulus of a pair.
use crate::read_cases::{NOTES_JSON, REFUTED_JSON, SAMPLER};
use report_rows::stimulus_of;
use std::alloc::Global;
use witness_replay::StimFault::{self, Form, NoBlock};
use witness_replay::write_stim;

// A report, the number of a pair, and the block of its stimulus.
const BLOCKS: &[(&str, u64, &str)] = &[
    (
        SAMPLER,
        6,
        "stimulus 6 cycles 3\nstate 000000000000\ninput 0000000\ninput 1000010\ninput 1000000\nend\n",
    ),
    (
        REFUTED_JSON,
        1,
        "stimulus 1 cycles 2\nstate -\ninput 10\ninput 01\nend\n",
    ),
];

fn block(alloc: Global, report: &str, number: u64) -> Result<Vec<u8>, StimFault> {
    let stimulus = stimulus_of(alloc, report.as_bytes(), number)?;
    Ok(write_stim(alloc, number, &stimulus)?)
}

#[test]
fn a_refuted_pair_has_its_stimulus(rt: HostRuntime) -> Result<(), StimFault> {
    for (report, number, want) in BLOCKS {
        let block = block(rt.alloc(), report, *number)?;
        assert!(rt; block.as_slice() == want.as_bytes(), "{want}");
    }
    Ok(())
}

const BAD: &str =
    r#"{"pairs":[{"number":7,"stimulus":{"inputs":["0","x"],"state":"0"}},{"number":8,"stimulus":{"inputs":[],"state":"2"}}]}"#;

const NONE: &[(&str, u64, StimFault)] = &[
    (SAMPLER, 1, NoBlock),
    (NOTES_JSON, 1, NoBlock),
    (REFUTED_JSON, 2, NoBlock),
    ("{", 1, NoBlock),
    (BAD, 7, Form(4)),
    (BAD, 8, Form(2)),
];

#[test]
fn why_there_is_no_stimulus_is_told(rt: HostRuntime) {
    for (report, number, want) in NONE {
        let fault = stimulus_of(rt.alloc(), report.as_bytes(), *number).err();
        assert_eq!(rt; fault, Some(*want), "{number}");
    }
}
