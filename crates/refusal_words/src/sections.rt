//! The parts of a run that refuse: the file that each is about, and the section of the page that has its lines.
ghost use Rattle.std.specs.Prelude.{◌≡◌, map};
ghost use Rattle.std.specs.Option.{option_map};
ghost use Rattle.std.specs.Str.{bytes_eq};
ghost use Rattle.refusal_words.specs.Sections as spec;
ghost use Rattle.refusal_words.specs.Sections.{seen_names, seen_section, section_rows};

/// The names of the files that a run reads. `further` is that of a certificate, a report or clauses, and empty where there is
/// none; `top` the word that names the top module.
#[derive(Clone, Copy)]
pub struct FileNames<'a> {
    pub netlist: &'a str,
    pub cells: &'a str,
    pub script: &'a str,
    pub further: &'a str,
    pub top: Option<&'a [u8]>,
}

/// Which file a refusal is about.
#[derive(Clone, Copy, Debug, PartialEq, Eq)]
pub(crate) enum Source {
    Netlist,
    Cells,
    Script,
    Further,
}

/// The word of a part, the file that its refusals are about, and its section of the page.
#[derive(Clone, Copy)]
pub(crate) struct Section {
    pub word: &'static str,
    pub source: Source,
    pub anchor: &'static str,
}

const SECTIONS: [Section; 13] = [
    Section {
        word: "verilog",
        source: Source::Netlist,
        anchor: "verilog",
    },
    Section {
        word: "liberty",
        source: Source::Cells,
        anchor: "liberty",
    },
    Section {
        word: "sdc",
        source: Source::Script,
        anchor: "sdc",
    },
    Section {
        word: "link",
        source: Source::Netlist,
        anchor: "link",
    },
    Section {
        word: "expand",
        source: Source::Script,
        anchor: "expand",
    },
    Section {
        word: "detect",
        source: Source::Netlist,
        anchor: "detect",
    },
    Section {
        word: "mend",
        source: Source::Script,
        anchor: "mend",
    },
    Section {
        word: "assist",
        source: Source::Further,
        anchor: "assist",
    },
    Section {
        word: "cert",
        source: Source::Further,
        anchor: "check",
    },
    Section {
        word: "rejected",
        source: Source::Further,
        anchor: "check",
    },
    Section {
        word: "pair",
        source: Source::Script,
        anchor: "replay",
    },
    Section {
        word: "stimulus",
        source: Source::Further,
        anchor: "replay",
    },
    Section {
        word: "replay",
        source: Source::Further,
        anchor: "replay",
    },
];

#[tactic(auto, unfolding(crate::specs::Sections::section_rows))]
fn sections() -> &'static [Section]
    ensures { map seen_section result.now ≡ section_rows }
{
    &SECTIONS
}

// The row of a word among these.
fn section_in(rows: &[Section], word: &[u8]) -> Option<Section>
    ensures { option_map seen_section result ≡ spec.section_in (map seen_section rows.now) word.now }
{
    for row in rows {
        if word == row.word.as_bytes() {
            return Some(*row);
        }
    }
    None
}

/// The part that a word names.
pub(crate) fn section_of(word: &[u8]) -> Option<Section>
    ensures { option_map seen_section result ≡ spec.section_in section_rows word.now }
{
    section_in(sections(), word)
}

/// The name of a file.
pub(crate) fn file_of<'a>(names: &FileNames<'a>, source: Source) -> &'a str
    ensures { result.now ≡ spec.file_of (seen_names names.now) source }
{
    match source {
        Source::Netlist => names.netlist,
        Source::Cells => names.cells,
        Source::Script => names.script,
        Source::Further => names.further,
    }
}
