//! Texts of stimuli.
use net_model::Stimulus;
use sdcv_base::Seq;
use std::alloc::{AllocError, Global};
use std::process::Abort;
use witness_replay::{ReplayFault, StimFault, read_stim, write_stim};

// A number, a text, and the stimulus of that number: bits of registers, and of the inputs in each cycle.
struct Row(
    u64,
    &'static str,
    &'static [bool],
    &'static [&'static [bool]],
);

fn stimulus_of(alloc: Global, row: &Row) -> Result<Stimulus, AllocError> {
    let mut inputs = Seq::new(alloc);
    for ins in row.3 {
        inputs.push(Seq::of(alloc, ins)?)?;
    }
    let state = Seq::of(alloc, row.2)?;
    Ok(Stimulus { state, inputs })
}

fn written(alloc: Global, row: &Row) -> Result<Vec<u8>, AllocError> {
    let stimulus = stimulus_of(alloc, row)?;
    write_stim(alloc, row.0, &stimulus)
}

// Four registers that are 0, and three cycles of two inputs: 10, 01 and 00. And no bits at all.
const WRITTEN: &[Row] = &[
    Row(
        12,
        "stimulus 12 cycles 3\nstate 0000\ninput 10\ninput 01\ninput 00\nend\n",
        &[false, false, false, false],
        &[&[true, false], &[false, true], &[false, false]],
    ),
    Row(0, "stimulus 0 cycles 0\nstate -\nend\n", &[], &[]),
];

#[test]
fn a_stimulus_is_written_as_a_block(rt: HostRuntime) -> Result<(), AllocError> {
    for row in WRITTEN {
        let text = written(rt.alloc(), row)?;
        assert_eq!(rt; text.as_slice(), row.1.as_bytes());
    }
    Ok(())
}

fn check_stimulus(rt: &impl Abort, stimulus: &Stimulus, row: &Row) {
    assert_eq!(rt; stimulus.state.as_slice(), row.2);
    assert_eq!(rt; stimulus.inputs.len(), row.3.len());
    for (ins, want) in stimulus.inputs.as_slice().iter().zip(row.3) {
        assert_eq!(rt; ins.as_slice(), *want);
    }
}

const REPORT: &str = "sdcv 1 mode plain reset 1 depth 4 budget 9 inv 0\n\
    stimulus 12 cycles 0\nstate -\nend\n\
    stimulus 1 cycles 3\nstate 00\ninput 10\ninput 01\ninput 00\nend\n\
    stimulus 1 cycles 0\nstate 1\nend";

// A report with other lines round its blocks, and two blocks of one number; and a block in which no bits are written `-`,
// and the last newline is missing.
const BLOCKS: &[Row] = &[
    Row(
        1,
        REPORT,
        &[false, false],
        &[&[true, false], &[false, true], &[false, false]],
    ),
    Row(12, REPORT, &[], &[]),
    Row(
        7,
        "stimulus 7 cycles 2\nstate -\ninput -\ninput 1\nend",
        &[],
        &[&[], &[true]],
    ),
];

#[test]
fn the_first_block_of_a_number_is_read(rt: HostRuntime) {
    for row in BLOCKS {
        match read_stim(rt.alloc(), row.1.as_bytes(), row.0) {
            Ok(stimulus) => check_stimulus(&rt, &stimulus, row),
            Err(fault) => assert!(rt; false, "{fault}"),
        }
    }
}

// Reports of which no line is `stimulus 1` or begins with `stimulus 1 `; and reports with the line, from 1, that breaks the
// block of number 1, or that is missing.
const REFUSED: &[(&str, StimFault)] = &[
    ("", StimFault::NoBlock),
    ("\n\n", StimFault::NoBlock),
    ("stimulus 12 cycles 0\nstate -\nend\n", StimFault::NoBlock),
    (" stimulus 1 cycles 0\nstate -\nend\n", StimFault::NoBlock),
    ("stimulus 01 cycles 0\nstate -\nend\n", StimFault::NoBlock),
    ("stimulus  1 cycles 0\nstate -\nend\n", StimFault::NoBlock),
    ("stimulus 1\t\nstimulus", StimFault::NoBlock),
    ("stimulus 1", StimFault::Form(1)),
    (
        "\nstimulus 1 cycles 01\nstate -\ninput -\nend\n",
        StimFault::Form(2),
    ),
    (
        "stimulus 1 cycles 18446744073709551616\nstate -\nend\n",
        StimFault::Form(1),
    ),
    ("stimulus 1 cycles  0\nstate -\nend\n", StimFault::Form(1)),
    ("stimulus 1 cycles 0 \nstate -\nend\n", StimFault::Form(1)),
    ("stimulus 1 cycles 0\r\nstate -\nend\n", StimFault::Form(1)),
    (
        "stimulus 1 cycles 18446744073709551615\nstate -\ninput 0\n",
        StimFault::Form(4),
    ),
    ("stimulus 12\nstimulus 1 cycles 0", StimFault::Form(3)),
    (
        "stimulus 1 cycles 0\nend\nstimulus 1 cycles 0\nstate -\nend\n",
        StimFault::Form(2),
    ),
    ("stimulus 1 cycles 0\nstate \nend\n", StimFault::Form(2)),
    ("stimulus 1 cycles 0\nstate 0-\nend\n", StimFault::Form(2)),
    ("stimulus 1 cycles 0\nstate 02\nend\n", StimFault::Form(2)),
    ("stimulus 1 cycles 0\nstate 0 1\nend\n", StimFault::Form(2)),
    ("stimulus 1 cycles 0\nstate  0\nend\n", StimFault::Form(2)),
    ("stimulus 1 cycles 1\nstate 0\nend\n", StimFault::Form(3)),
    (
        "stimulus 1 cycles 1\nstate 0\n\ninput 0\nend\n",
        StimFault::Form(3),
    ),
    (
        "stimulus 1 cycles 1\nstate 0\ninput 1\n",
        StimFault::Form(4),
    ),
    (
        "stimulus 1 cycles 1\nstate 0\ninput 1\ninput 1\nend\n",
        StimFault::Form(4),
    ),
    (
        "stimulus 1 cycles 1\nstate 0\ninput 1\nend \n",
        StimFault::Form(4),
    ),
];

#[test]
fn a_report_without_a_whole_block_is_refused_at_its_line(rt: HostRuntime) {
    for (report, want) in REFUSED {
        let found = read_stim(rt.alloc(), report.as_bytes(), 1);
        assert_eq!(rt; found.err(), Some(*want), "{report}");
    }
}

// As the faults' own words say it.
const REPLAY_WORDS: &[(ReplayFault, &str)] = &[
    (
        ReplayFault::Shape,
        "the numbers of bits are not those of the design",
    ),
    (
        ReplayFault::NotReset(3),
        "cycle 3: a reset or fixed input has another value",
    ),
    (ReplayFault::Memory, "out of memory"),
];

const STIM_WORDS: &[(StimFault, &str)] = &[
    (StimFault::NoBlock, "no stimulus of that number"),
    (StimFault::Form(4), "line 4: not as a stimulus goes on"),
    (StimFault::Memory, "out of memory"),
];

#[test]
fn each_fault_has_its_words(rt: HostRuntime) -> Result<(), AllocError> {
    for (fault, want) in REPLAY_WORDS {
        assert_eq!(rt; format!(in rt.alloc(); "{fault}")?.as_str(), *want);
    }
    for (fault, want) in STIM_WORDS {
        assert_eq!(rt; format!(in rt.alloc(); "{fault}")?.as_str(), *want);
    }
    Ok(())
}
