//! The lines of a session.

/// What a line asks for.
#[derive(Clone, Copy)]
pub enum Step<'a> {
    /// `## TEXT`: it ends a file, and is for the reader.
    Remark,
    /// `file NAME`: the lines that follow are that file, each with its newline.
    File(&'a str),
    /// `times N PIECE`: the file has the piece N times next, with no newline.
    Times(usize, &'a str),
    /// `numbered N PIECE`: the same, with the number of the time, from 0 on, for each `#`, and the next number for each `@`.
    Numbered(usize, &'a str),
    /// `fail N`: the Nth step of the next call on its host fails, and a print prints two bytes first.
    Fail(u64),
    /// `$ WORDS`, or `PART $ WORDS`: a call, and what of its lines is told.
    Call(Part<'a>, &'a str),
    /// A line of a file.
    Line,
}

/// How much is told of what a call prints.
#[derive(Clone, Copy)]
pub enum Part<'a> {
    /// All of it.
    Whole,
    /// `head N`: the first lines.
    Head(usize),
    /// `tail N`: the last lines.
    Tail(usize),
    /// `upto TEXT`: what stands before that text, and the text.
    UpTo(&'a str),
}

/// What the line asks for.
pub fn step_of(line: &str) -> Step<'_> {
    if line.starts_with("## ") {
        return Step::Remark;
    }
    if let Some(words) = line.strip_prefix("$ ") {
        return Step::Call(Part::Whole, words);
    }
    match line.split_once(' ') {
        Some((word, more)) => named_step(word, more),
        None => Step::Line,
    }
}

// What a line asks for that begins with the word.
fn named_step<'a>(word: &str, more: &'a str) -> Step<'a> {
    match word {
        "file" => Step::File(more),
        "times" => pieces_of(more).map_or(Step::Line, |(times, piece)| Step::Times(times, piece)),
        "numbered" => {
            pieces_of(more).map_or(Step::Line, |(times, piece)| Step::Numbered(times, piece))
        }
        "fail" => number_of(more).map_or(Step::Line, |step| Step::Fail(step as u64)),
        "head" | "tail" | "upto" => part_of(word, more).unwrap_or(Step::Line),
        _ => Step::Line,
    }
}

/// The word of that place, from 0 on; none where there are fewer.
pub fn word_at(words: &str, place: usize) -> &str {
    words.split(' ').nth(place).unwrap_or("")
}

/// The word that follows that word; none where it does not stand there.
pub fn word_after<'a>(words: &'a str, word: &str) -> &'a str {
    let mut is_next = false;
    for one in words.split(' ') {
        if is_next {
            return one;
        }
        is_next = one == word;
    }
    ""
}

/// The number that the text spells.
pub fn number_of(text: &str) -> Option<usize> {
    text.parse::<usize>().ok()
}

fn pieces_of(more: &str) -> Option<(usize, &str)> {
    let (times, piece) = more.split_once(' ')?;
    Some((number_of(times)?, piece))
}

fn part_of<'a>(word: &str, more: &'a str) -> Option<Step<'a>> {
    let (which, words) = more.split_once(" $ ")?;
    let part = match word {
        "head" => Part::Head(number_of(which)?),
        "tail" => Part::Tail(number_of(which)?),
        _ => Part::UpTo(which),
    };
    Some(Step::Call(part, words))
}
