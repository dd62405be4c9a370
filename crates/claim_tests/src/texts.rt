//! Answers to texts that are written by hand.
ghost use Rattle.net_model.specs.Netlist.{IsSound};
ghost use Rattle.net_model.specs.Fits.{Fits};
ghost use Rattle.std.specs.Prelude.{All};

use crate::cases::{claims_of, sound_design};
use crate::machines::TIED;
use crate::wanted_answers::{ends_early, has_answer};
use cert_values::CertFault::{
    self, Form, Invariant, NotTrivial, Pair, TwicePair, UnknownPair, UnknownRegister, Version,
};
use net_model::{Claim, Design};
use net_samples::Ask;
use net_samples::Ask::{In, Multi};
use rup_check::CheckFault::{HintMissing, NoConflict, NotEmpty};
use sdcv_base::Seq;
use std::alloc::{AllocError, Global};
use std::process::Abort;

/// The claims, what follows `sdcv-cert ` in some texts of one ending, that ending, and the answer.
struct Row(
    &'static [&'static [Ask]],
    &'static [&'static str],
    &'static str,
    Result<&'static [u64], CertFault>,
);

const FALSE: &[&[Ask]] = &[&[]];

// It judges no capture.
const ONCE: &[&[Ask]] = &[&[Multi(1)]];

// These begin at the reset, which never toggles after it.
const RESET: &[&[Ask]] = &[&[In(0)]];

const RESET_ONCE: &[&[Ask]] = &[&[In(0), Multi(1)]];

const EACH: &[&str] = &["1", "2", "3"];

// Numbers count from 1. An unknown number comes before one that is listed twice, and that before what is not of its kind.
const ROWS: &[Row] = &[
    Row(ONCE, EACH, "\ninv 0 0\npair 1 single\nend\n", Ok(&[1])),
    Row(FALSE, EACH, "\ninv 0 0\nend\n", Ok(&[])),
    Row(RESET, EACH, "\ninv 0 0\npair 1 fixed\nend\n", Ok(&[1])),
    Row(ONCE, &["1"], "\ninv 0 0\npair 1 single\n", Err(Form(34))),
    Row(
        ONCE,
        &["1"],
        "\ninv 0 0\npair 1 single\nend\n\n",
        Err(Form(38)),
    ),
    Row(
        ONCE,
        &["9"],
        "\ninv 0 0\npair 1 single\nend\n",
        Err(Version(9)),
    ),
    Row(ONCE, &["20"], "\ninv 0 0\nend\n", Err(Version(20))),
    Row(
        FALSE,
        &["4"],
        "\ninv 0 0\npair 1 depth 0\ni 1\ns 0 0\nend\n",
        Err(Version(4)),
    ),
    Row(ONCE, &["9", "20"], "", Err(Form(0))),
    Row(ONCE, &["2"], "", Err(Form(11))),
    Row(ONCE, &["01", "02"], "\ninv 0 0\nend\n", Err(Form(0))),
    Row(
        ONCE,
        EACH,
        "\ninv 0 0\npair 2 single\nend\n",
        Err(UnknownPair(2)),
    ),
    Row(
        ONCE,
        EACH,
        "\ninv 0 0\npair 0 single\nend\n",
        Err(UnknownPair(0)),
    ),
    Row(
        ONCE,
        EACH,
        "\ninv 0 0\npair 1 single\npair 1 single\nend\n",
        Err(TwicePair(1)),
    ),
    Row(
        ONCE,
        EACH,
        "\ninv 0 0\npair 1 single\npair 1 single\npair 3 single\nend\n",
        Err(UnknownPair(3)),
    ),
    Row(
        FALSE,
        EACH,
        "\ninv 0 0\npair 1 single\npair 1 single\nend\n",
        Err(TwicePair(1)),
    ),
    Row(
        FALSE,
        EACH,
        "\ninv 0 0\npair 1 single\nend\n",
        Err(NotTrivial(1)),
    ),
    Row(
        FALSE,
        EACH,
        "\ninv 0 0\npair 1 fixed\nend\n",
        Err(NotTrivial(1)),
    ),
    Row(
        RESET_ONCE,
        EACH,
        "\ninv 0 0\npair 1 fixed\nend\n",
        Err(NotTrivial(1)),
    ),
    Row(
        ONCE,
        EACH,
        "\ninv 0 0\npair 1 depth 0\ni 0\nend\n",
        Err(NotTrivial(1)),
    ),
    Row(
        FALSE,
        EACH,
        "\ninv 0 0\npair 1 depth 0\ni 0\nend\n",
        Err(Pair(1, NotEmpty)),
    ),
    Row(
        FALSE,
        EACH,
        "\ninv 0 0\npair 1 depth 0\ni 1\ns 0 0\nend\n",
        Err(Pair(1, NoConflict(1))),
    ),
    Row(
        FALSE,
        EACH,
        "\ninv 0 0\npair 1 depth 0\ni 1\ns 0 999999 0\nend\n",
        Err(Pair(1, HintMissing(1))),
    ),
    // Register 8 is none of the two; register 0 has no derivation.
    Row(
        FALSE,
        EACH,
        "\ninv 1 1\nk 9\nb 0\ni 0\nend\n",
        Err(UnknownRegister(1)),
    ),
    Row(
        FALSE,
        EACH,
        "\ninv 1 1\nk 1\nb 0\ni 0\nend\n",
        Err(Invariant(1, NotEmpty)),
    ),
    // A third literal stands in version 3 alone, its register above the second one's.
    Row(
        FALSE,
        &["1", "2"],
        "\ninv 1 1\nk 1 2 9\nb 0\ni 0\nend\n",
        Err(Form(20)),
    ),
    Row(
        FALSE,
        &["3"],
        "\ninv 1 1\nk 1 2 9\nb 0\ni 0\nend\n",
        Err(UnknownRegister(1)),
    ),
    Row(
        FALSE,
        &["3"],
        "\ninv 1 1\nk 1 9 2\nb 0\ni 0\nend\n",
        Err(Form(20)),
    ),
    Row(FALSE, EACH, "\ninv 1 1\nk\nb 0\ni 0\nend\n", Err(Form(20))),
    // A text that ends early ends where more bytes could mend it; else its fault stands at the line.
    Row(FALSE, EACH, "\ninv 1 1\nk", Err(Form(21))),
    Row(FALSE, EACH, "\ninv 1 1\nk ", Err(Form(22))),
    Row(FALSE, EACH, "\ninv 1 1\nk 1", Err(Form(23))),
    Row(FALSE, EACH, "\ninv 1 1\nk 1 ", Err(Form(24))),
    Row(FALSE, EACH, "\ninv 1 1\nk 1 1", Err(Form(25))),
    Row(FALSE, EACH, "\ninv 1 1\nk 1 1\n", Err(Form(20))),
    Row(FALSE, EACH, "\ninv 1 1\nk 2 1", Err(Form(25))),
    Row(FALSE, EACH, "\ninv 1 1\nk 2 1\n", Err(Form(20))),
    Row(FALSE, EACH, "\ninv 1 1\nk 1 -", Err(Form(25))),
    Row(FALSE, EACH, "\ninv 1 1\nk 1 -2", Err(Form(26))),
    Row(FALSE, &["1", "2"], "\ninv 1 1\nk 1 -2 ", Err(Form(20))),
    Row(FALSE, &["3"], "\ninv 1 1\nk 1 -2 ", Err(Form(27))),
    Row(FALSE, &["1", "2"], "\ninv 1 1\nk 1 -2 3", Err(Form(20))),
    Row(FALSE, &["3"], "\ninv 1 1\nk 1 -2 3", Err(Form(28))),
];

// Each front of a text that is accepted ends early.
fn is_answered(
    alloc: Global,
    design: &Design,
    claims: &Seq<Claim>,
    version: &str,
    row: &Row,
) -> Result<bool, AllocError>
    requires sound { IsSound design.now }
    requires fit { All (Fits design.now) claims.now }
{
    let text = format!(in alloc; "sdcv-cert {version}{}", row.2)?;
    let bytes = text.as_bytes();
    Ok(
        has_answer(alloc, design, claims, bytes, &row.3)
            && (row.3.is_err() || ends_early(alloc, design, claims, bytes)),
    )
}

fn are_answered(
    alloc: Global,
    design: &Design,
    claims: &Seq<Claim>,
    row: &Row,
) -> Result<bool, AllocError>
    requires sound { IsSound design.now }
    requires fit { All (Fits design.now) claims.now }
{
    for version in row.1 {
        if !is_answered(alloc, design, claims, version, row)? {
            return Ok(false);
        }
    }
    Ok(true)
}

fn is_right_of(
    rt: &impl Abort,
    alloc: Global,
    design: &Design,
    row: &Row,
) -> Result<bool, AllocError>
    requires sound { IsSound design.now }
{
    let claims = claims_of(rt, alloc, design, row.0)?;
    are_answered(alloc, design, &claims, row)
}

fn is_right(rt: &impl Abort, alloc: Global, row: &Row) -> Result<bool, AllocError> {
    let design = sound_design(rt, alloc, TIED)?;
    is_right_of(rt, alloc, &design, row)
}

#[test]
fn each_text_has_its_answer(rt: HostRuntime) -> Result<(), AllocError> {
    for row in ROWS {
        assert!(rt; is_right(&rt, rt.alloc(), row)?, "{}", row.2);
    }
    Ok(())
}
