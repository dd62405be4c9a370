//! Lists of the names of pairs.
ghost use Rattle.std.specs.Prelude.{◌≡◌, ◌++◌, if◌then◌else◌, OnOk, codes, map};
ghost use Rattle.mend_lines.specs.Lines.{joined_by, name_text, named_list};

use crate::joins::push_next;
use mend_groups::Row;
use sdcv_base::Seq;
use selected_types::PairLine;
use std::alloc::AllocError;

// The name of the end of a pair, or of its start.
fn name_of<'a>(pairs: &'a Seq<PairLine>, row: &Row, ends: bool) -> &'a [u8]
    ensures { result.now ≡ name_text ends pairs.now row.now }
{
    match pairs.as_slice().get(row.place) {
        Some(pair) => side_of(pair, ends),
        None => &[],
    }
}

fn side_of(pair: &PairLine, ends: bool) -> &[u8]
    ensures { result.now ≡ (if ends then pair.now.end else pair.now.start) }
{
    if ends {
        pair.end.as_bytes()
    } else {
        pair.start.as_bytes()
    }
}

fn push_names(
    text: &mut Vec<u8>,
    pairs: &Seq<PairLine>,
    rows: &Seq<Row>,
    ends: bool,
) -> Result<(), AllocError>
    ensures { OnOk result (text.new.items ≡ text.old.items ++ joined_by (codes " ") (map (name_text ends pairs.now) rows.now)) }
{
    for place in 0..rows.len() {
        push_next(
            text,
            b" ",
            place == 0,
            name_of(pairs, &rows.at(place), ends),
        )?;
    }
    Ok(())
}

/// Appends the names of the ends of some pairs, or of their starts, as objects that are got by this word.
pub(crate) fn push_named(
    text: &mut Vec<u8>,
    get: &str,
    pairs: &Seq<PairLine>,
    rows: &Seq<Row>,
    ends: bool,
) -> Result<(), AllocError>
    ensures { OnOk result (text.new.items ≡ text.old.items ++ named_list get.now (map (name_text ends pairs.now) rows.now)) }
{
    text.extend_from_slice(b"[")?;
    text.extend_from_slice(get.as_bytes())?;
    text.extend_from_slice(b" {")?;
    push_names(text, pairs, rows, ends)?;
    text.extend_from_slice(b"}]")
}
