//! The form of a row of words, and how a row is found.
ghost use Rattle.std.specs.Prelude.{◌≡◌, map, nat_eq};
ghost use Rattle.std.specs.List.{starts_with};
ghost use Rattle.std.specs.Option.{option_map};
ghost use Rattle.refusal_words.specs.Rows as spec;
ghost use Rattle.refusal_words.specs.Rows.{seen_row};

/// What the first field of a line says of where it is.
#[derive(Clone, Copy, Debug, PartialEq, Eq)]
pub(crate) enum Spot {
    /// Nothing: the whole text is meant.
    Whole,
    /// The number of a line.
    Line,
    /// How many bytes stand before the place.
    Offset,
}

/// The head of a line, what its first field says, and the words for its cause and its remedy. In a cause `@` stands for what
/// follows the head, `<` for the first field of it, `>` for what follows that, `{` and `}` for the numbers one below these, and
/// `$` for the word of the cells.
#[derive(Clone, Copy)]
pub(crate) struct Row {
    pub head: &'static str,
    pub spot: Spot,
    pub cause: &'static str,
    pub remedy: &'static str,
}

// Whether the line has the head of a row.
fn fits(line: &[u8], row: &Row) -> bool
    ensures { result ≡ starts_with nat_eq line.now row.now.head.now }
{
    line.starts_with(row.head.as_bytes())
}

/// The first row whose head the line has.
pub(crate) fn row_in(rows: &[Row], line: &[u8]) -> Option<Row>
    ensures { option_map seen_row result ≡ spec.row_in (map seen_row rows.now) line.now }
{
    for row in rows {
        if fits(line, row) {
            return Some(*row);
        }
    }
    None
}
