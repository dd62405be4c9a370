use crate::commands::words_in;
use sdcv_words::told;
use std::alloc::{AllocError, Global};

// How the text begins that words without a command are told, by the texts of clap and by the rules of values.
const BEGINNINGS: &[(&str, &str)] = &[
    (
        "verfy",
        "error: unrecognized subcommand 'verfy'\n\n  tip: a similar subcommand exists: 'verify'\n",
    ),
    (
        "verify|v|l|s",
        "error: the following required arguments were not provided:\n  --out <CERT>\n",
    ),
    (
        "verify|v|l|s|--out|c|--depth|65",
        "error: invalid value '65' for '--depth <D>': 65 is not in 0..=64\n",
    ),
    (
        "verify|v|l|s|--out|c|--rst|x",
        "error: unexpected argument '--rst' found\n",
    ),
    (
        "demo|7|161",
        "error: invalid value '161' for '<SIZE>': 161 is not in 1..=160\n",
    ),
    (
        "check|v|l|s|c|--lag|1|--lag|1",
        "error: the argument '--lag <L>' cannot be used multiple times\n",
    ),
    (
        "verify|v|l|s|--out|c|--depth|+5",
        "sdcv: --depth takes a number from 0 to 64, of digits alone and at most 20\n",
    ),
    (
        "verify|v|l|s|--out|c|--budget|000000000000000000001",
        "sdcv: --budget takes a number from 1 to 10000000, of digits alone and at most 20\n",
    ),
    (
        "replay|v|l|s|r|+1",
        "sdcv: PAIR takes a number from 1 to 18446744073709551615, of digits alone and at most 20\n",
    ),
    (
        "check|v|l|s|c|--reset|rst=2",
        "sdcv: --reset takes PORT=0 or PORT=1, parted by commas, each port once\n",
    ),
    (
        "check|v|l|s|c|--reset|a=1,a=0|--lag|+1",
        "sdcv: --lag takes a number from 0 to 8, of digits alone and at most 20\n",
    ),
    (
        "check|v|l|s|c|--skip|a,set_false_path",
        "sdcv: --skip takes names of commands, parted by commas, and none that a run reads itself\n",
    ),
    (
        "check|v|l|s|c|--free|RAM,,SEQ",
        "sdcv: --free takes patterns of references, parted by commas, none of them empty and no - at the start\n",
    ),
    (
        "mend|v|l|s|--out|m|--top=",
        "sdcv: --top takes a name, which is not empty and has no - at its start\n",
    ),
    (
        "check|v|l|s|c|--clock=",
        "sdcv: --clock takes a name, which is not empty and has no - at its start\n",
    ),
    (
        "detect|v|l|s|--out|m|--strict",
        "error: unexpected argument '--strict' found\n",
    ),
    ("--version", "sdcv 1.2.3 (of a test)\n"),
    ("--help", "Prove or refute the timing exceptions"),
    ("help", "Prove or refute the timing exceptions"),
    (
        "help|verify",
        "Judge each register pair that the exceptions select\n\nUsage: sdcv verify [OPTIONS] --out <CERT> <V> <L> <S>\n",
    ),
    (
        "aiger|v|l|s|1|--out|a|--hazard",
        "error: unexpected argument '--hazard' found\n",
    ),
    (
        "help|aiger",
        "Save the claim of a pair as an AIGER text, whose bad literal rises where it is violated\n\nUsage: sdcv aiger [OPTIONS] --out <FILE> <V> <L> <S> <PAIR>\n",
    ),
    (
        "help|mend",
        "Save the script with the exceptions that are justified alone\n\nUsage: sdcv mend [OPTIONS] --out <SDC> <V> <L> <S>\n",
    ),
    (
        "verify|-h",
        "Judge each register pair that the exceptions select\n",
    ),
];

fn telling(alloc: Global, text: &str) -> Result<String, AllocError> {
    let words = words_in(alloc, text)?;
    told(alloc, "1.2.3 (of a test)", &words)
}

#[test]
fn words_without_a_command_are_told_what_is_wrong(rt: HostRuntime) -> Result<(), AllocError> {
    for (text, beginning) in BEGINNINGS {
        let telling = telling(rt.alloc(), text)?;
        assert!(rt; telling.starts_with(*beginning), "{text}: {telling}");
    }
    Ok(())
}

#[test]
fn no_words_are_told_what_the_program_does(rt: HostRuntime) -> Result<(), AllocError> {
    let telling = told(rt.alloc(), "1.2.3", &[])?;
    assert!(rt; telling.starts_with("Prove or refute"));
    Ok(())
}
