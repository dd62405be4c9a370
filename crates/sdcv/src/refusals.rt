//! What is told of a refusal.
use real_host::read_again;
use refusal_words::{FileNames, file_to_read, told_refusal};
use run_options::NetlistForm;
use sdcv_words::{Command, Job, Options, Texts, command_of};
use std::alloc::AllocError;

/// The most bytes of a file that is read again, to say where in it the cause is.
const LIMIT: usize = 67_108_864;

/// The lines that tell the refusal of a run over these words, which printed this line.
pub fn told_line(
    rt: &HostRuntime,
    words: &[String],
    line: &[u8],
) -> Result<Option<String>, AllocError> {
    let Some(command) = command_of(rt.alloc(), words)? else {
        return Ok(None);
    };
    let Some(names) = names_of(&command) else {
        return Ok(None);
    };
    let text = match file_to_read(rt.alloc(), &names, line)? {
        Some(file) => read_again(rt.alloc(), rt, file, LIMIT),
        None => None,
    };
    match &text {
        Some(text) => told_refusal(rt.alloc(), "sdcv", &names, line, Some(text.as_slice())),
        None => told_refusal(rt.alloc(), "sdcv", &names, line, None),
    }
}

// The names of the files that a command reads.
fn names_of<'a>(command: &'a Command<'a>) -> Option<FileNames<'a>> {
    match command {
        Command::Over {
            texts,
            options,
            job,
        } => Some(names_with(*texts, options, further_of(*job))),
        Command::Detect {
            texts,
            options,
            finding: _,
        } => Some(names_with(*texts, options, "")),
        Command::Mend {
            texts,
            options,
            mending,
        } => Some(names_with(*texts, options, mending.assist.unwrap_or(""))),
        Command::Demo { seed: _, size: _ } => None,
    }
}

fn names_with<'a>(texts: Texts<'a>, options: &'a Options, further: &'a str) -> FileNames<'a> {
    FileNames {
        netlist: texts.netlist,
        cells: texts.cells,
        script: texts.constraints,
        further,
        top: top_of(options),
    }
}

// The name of the file that a job reads beside the three texts.
fn further_of<'a>(job: Job<'a>) -> &'a str {
    match job {
        Job::Verify {
            out: _,
            json: _,
            proving: _,
            assist,
        } => assist.unwrap_or(""),
        Job::Check { cert } => cert,
        Job::Replay { report, pair: _ } => report,
        Job::Aiger {
            out: _,
            pair: _,
            symbols: _,
        } => "",
    }
}

// The word that names the top module, where no reset port has that name too: a line does not say which of both it means.
fn top_of(options: &Options) -> Option<&[u8]> {
    let top = match &options.forms.netlist {
        NetlistForm::Wide(cutting) => match &cutting.top {
            Some(top) => top,
            None => return None,
        },
        NetlistForm::Narrow => return None,
    };
    if options
        .reset
        .ports
        .as_slice()
        .iter()
        .any(|port| port.name == *top)
    {
        return None;
    }
    Some(top.as_bytes())
}
