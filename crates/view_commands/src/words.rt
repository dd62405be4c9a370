//! Words that more than files are named by.

/// How a design is reset: the list of `--reset`, and the digits of `--reset-cycles`.
#[derive(Clone, Copy)]
pub struct ResetWords<'a> {
    pub ports: Option<&'a str>,
    pub cycles: Option<&'a str>,
}

/// A pair of a report, by its number from 1, and the name of the report's file.
#[derive(Clone, Copy)]
pub struct PairWords<'a> {
    pub report: &'a str,
    pub pair: u64,
}
