//! The options of commands by their words.
ghost use Rattle.std.specs.Prelude.{◌≡◌};
ghost use Rattle.std.specs.Str.{bytes_eq};
ghost use Rattle.sdc_text.specs.Options as spec;

use sdcv_base::Edge;

/// The commands of timing exceptions.
#[derive(Clone, Copy, PartialEq, Eq)]
pub enum PathCommand {
    FalsePath,
    Multicycle,
}

/// An option of a timing exception.
#[derive(Clone, Copy, PartialEq, Eq)]
pub enum PathOption {
    /// The starts come next, with the change of their own bits at which the paths begin.
    From(Edge),
    Through,
    To,
    Setup,
    Hold,
    Comment,
    /// Which clock the cycles are counted by. It changes nothing under one clock.
    Reference,
    /// The number comes next, in a wide script.
    Multiplier,
    /// The command is set aside for it. It stands alone.
    LeftOut,
    /// The command is set aside for it. It takes a word.
    LeftOutList,
}

/// The commands that make a clock.
#[derive(Clone, Copy, PartialEq, Eq)]
pub enum ClockCommand {
    Create,
    Generate,
}

/// An option of a command that makes a clock.
#[derive(Clone, Copy, PartialEq, Eq)]
pub enum ClockOption {
    /// The clock's name comes next.
    Called,
    /// A word comes next that changes nothing here.
    Timing,
    /// The objects of the clock that it is made of come next, which change nothing here.
    Master,
    /// It stands alone, and changes nothing here.
    Added,
}

/// An option of a delay.
#[derive(Clone, Copy, PartialEq, Eq)]
pub enum DelayOption {
    /// The clocks come next.
    Clocks,
    /// It stands alone, and changes no list.
    Alone,
}

/// Whether these bytes are this word.
pub fn is(name: &[u8], word: &str) -> bool
    ensures { result ≡ bytes_eq name.now word.now }
{
    name == word.as_bytes()
}

#[tactic(auto, unfolding(crate::specs::Options::left_out_option))]
fn left_out_option(name: &[u8]) -> Option<PathOption>
    ensures { result ≡ spec.left_out_option name.now }
{
    if is(name, "-rise") {
        Some(PathOption::LeftOut)
    } else if is(name, "-fall") {
        Some(PathOption::LeftOut)
    } else if is(name, "-reset_path") {
        Some(PathOption::LeftOut)
    } else if is(name, "-rise_through") {
        Some(PathOption::LeftOutList)
    } else if is(name, "-fall_through") {
        Some(PathOption::LeftOutList)
    } else if is(name, "-rise_to") {
        Some(PathOption::LeftOutList)
    } else if is(name, "-fall_to") {
        Some(PathOption::LeftOutList)
    } else {
        None
    }
}

#[tactic(auto, unfolding(crate::specs::Options::common_option))]
fn common_option(name: &[u8]) -> Option<PathOption>
    ensures { result ≡ spec.common_option name.now }
{
    if is(name, "-from") {
        Some(PathOption::From(Edge::Any))
    } else if is(name, "-rise_from") {
        Some(PathOption::From(Edge::Rise))
    } else if is(name, "-fall_from") {
        Some(PathOption::From(Edge::Fall))
    } else if is(name, "-through") {
        Some(PathOption::Through)
    } else if is(name, "-to") {
        Some(PathOption::To)
    } else if is(name, "-setup") {
        Some(PathOption::Setup)
    } else if is(name, "-hold") {
        Some(PathOption::Hold)
    } else if is(name, "-comment") {
        Some(PathOption::Comment)
    } else {
        left_out_option(name)
    }
}

#[tactic(auto, unfolding(crate::specs::Options::multicycle_option))]
fn multicycle_option(name: &[u8]) -> Option<PathOption>
    ensures { result ≡ spec.multicycle_option name.now }
{
    if is(name, "-start") {
        Some(PathOption::Reference)
    } else if is(name, "-end") {
        Some(PathOption::Reference)
    } else {
        common_option(name)
    }
}

#[tactic(auto, unfolding(crate::specs::Options::wide_option))]
fn wide_option(name: &[u8]) -> Option<PathOption>
    ensures { result ≡ spec.wide_option name.now }
{
    if is(name, "-path_multiplier") {
        Some(PathOption::Multiplier)
    } else {
        multicycle_option(name)
    }
}

/// The option of an exception of a wide or a narrow script that this word is, and `None` exactly where it is none.
#[tactic(auto, unfolding(crate::specs::Options::path_option))]
pub fn path_option(wide: bool, path: PathCommand, name: &[u8]) -> Option<PathOption>
    ensures { result ≡ spec.path_option wide path name.now }
{
    match path {
        PathCommand::FalsePath => common_option(name),
        PathCommand::Multicycle => {
            if wide {
                wide_option(name)
            } else {
                multicycle_option(name)
            }
        }
    }
}

#[tactic(auto, unfolding(crate::specs::Options::created_option))]
fn created_option(name: &[u8]) -> Option<ClockOption>
    ensures { result ≡ spec.created_option name.now }
{
    if is(name, "-name") {
        Some(ClockOption::Called)
    } else if is(name, "-period") {
        Some(ClockOption::Timing)
    } else if is(name, "-waveform") {
        Some(ClockOption::Timing)
    } else if is(name, "-comment") {
        Some(ClockOption::Timing)
    } else if is(name, "-add") {
        Some(ClockOption::Added)
    } else {
        None
    }
}

#[tactic(auto, unfolding(crate::specs::Options::generated_option))]
fn generated_option(name: &[u8]) -> Option<ClockOption>
    ensures { result ≡ spec.generated_option name.now }
{
    if is(name, "-name") {
        Some(ClockOption::Called)
    } else if is(name, "-source") {
        Some(ClockOption::Master)
    } else if is(name, "-master_clock") {
        Some(ClockOption::Master)
    } else if is(name, "-divide_by") {
        Some(ClockOption::Timing)
    } else if is(name, "-multiply_by") {
        Some(ClockOption::Timing)
    } else if is(name, "-duty_cycle") {
        Some(ClockOption::Timing)
    } else if is(name, "-edges") {
        Some(ClockOption::Timing)
    } else if is(name, "-edge_shift") {
        Some(ClockOption::Timing)
    } else if is(name, "-comment") {
        Some(ClockOption::Timing)
    } else if is(name, "-invert") {
        Some(ClockOption::Added)
    } else if is(name, "-add") {
        Some(ClockOption::Added)
    } else if is(name, "-combinational") {
        Some(ClockOption::Added)
    } else {
        None
    }
}

/// The option of a command that makes a clock that this word is, and `None` exactly where it is none.
#[tactic(auto, unfolding(crate::specs::Options::clock_option))]
pub fn clock_option(command: ClockCommand, name: &[u8]) -> Option<ClockOption>
    ensures { result ≡ spec.clock_option command name.now }
{
    match command {
        ClockCommand::Create => created_option(name),
        ClockCommand::Generate => generated_option(name),
    }
}

/// The option of a delay that this word is, and `None` exactly where it is none.
#[tactic(auto, unfolding(crate::specs::Options::delay_option))]
pub fn delay_option(name: &[u8]) -> Option<DelayOption>
    ensures { result ≡ spec.delay_option name.now }
{
    if is(name, "-clock") {
        Some(DelayOption::Clocks)
    } else if is(name, "-clock_fall") {
        Some(DelayOption::Alone)
    } else if is(name, "-rise") {
        Some(DelayOption::Alone)
    } else if is(name, "-fall") {
        Some(DelayOption::Alone)
    } else if is(name, "-max") {
        Some(DelayOption::Alone)
    } else if is(name, "-min") {
        Some(DelayOption::Alone)
    } else if is(name, "-add_delay") {
        Some(DelayOption::Alone)
    } else if is(name, "-network_latency_included") {
        Some(DelayOption::Alone)
    } else if is(name, "-source_latency_included") {
        Some(DelayOption::Alone)
    } else {
        None
    }
}
