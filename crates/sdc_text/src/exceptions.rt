//! Timing exceptions.
ghost use Rattle.std.specs.Prelude.{◌≡◌, Bool, OnOk, IfOk, is_some};
ghost use Rattle.std.specs.Option.{option_map};
ghost use Rattle.texts.specs.Rules.{Gives};
ghost use Rattle.sdc_values.specs.Told.{Fails};
ghost use Rattle.sdc_text.specs.Exceptions as spec;

use crate::gathers::{Gather, take_all};
use crate::heads::{Head, option_of};
use crate::numbers::{is_integer, is_whole, multiplier};
use crate::options::{PathCommand, PathOption, path_option};
use script_types::{Checks, Exception, Held, Object, What};
use sdc_values::{Said, SdcFault, Value, objects_of};
use sdcv_base::{Edge, Kind, Name, Seq};
use std::alloc::{AllocError, Global};
use std::mem;

/// What the words of an exception have said so far.
#[derive(Drop)]
pub struct Reading {
    /// Whether the script is wide.
    pub wide: bool,
    pub head: Head,
    pub path: PathCommand,
    /// The option whose word comes next, and its own word.
    pub awaited: Option<(PathOption, Name)>,
    /// The list of the one option of the from kind, and the edge that the option says.
    pub from: Option<Seq<Object>>,
    pub edge: Edge,
    pub through: Seq<Seq<Object>>,
    pub to: Option<Seq<Object>>,
    pub number: Option<Value>,
    /// The first option for which the command is set aside.
    pub aside: Option<Name>,
    pub has_setup: bool,
    pub has_hold: bool,
}

impl Reading {
    fn new(alloc: Global, wide: bool, path: PathCommand, head: Head) -> Reading
        ensures { result ≡ spec.bare wide path head }
    {
        Reading {
            wide,
            head,
            path,
            awaited: None,
            from: None,
            edge: Edge::Any,
            through: Seq::new(alloc),
            to: None,
            number: None,
            aside: None,
            has_setup: false,
            has_hold: false,
        }
    }

    fn await_word(
        &mut self,
        alloc: Global,
        option: PathOption,
        name: &Name,
    ) -> Result<(), AllocError>
        ensures { OnOk result (self.new ≡ spec.awaiting self.old option name.now) }
    {
        self.awaited = Some((option, name.copy(alloc)?));
        Ok(())
    }

    // Awaits the word of an option with at most one list, which may have been given before.
    fn begin_once(
        &mut self,
        alloc: Global,
        option: PathOption,
        name: &Name,
        is_given: bool,
    ) -> Result<(), SdcFault>
        ensures { Gives Fails (λ _. self.new) result (spec.begun_once self.old option name.now is_given) }
    {
        if is_given {
            return Err(self.head.bad_option(alloc, name)?);
        }
        self.await_word(alloc, option, name)?;
        Ok(())
    }

    fn set_aside(&mut self, alloc: Global, name: &Name) -> Result<(), AllocError>
        ensures { OnOk result (self.new ≡ spec.set_aside self.old name.now) }
    {
        if self.aside.is_none() {
            self.aside = Some(name.copy(alloc)?);
        }
        Ok(())
    }

    #[tactic(auto, unfolding(crate::specs::Exceptions::begun))]
    fn begin(&mut self, alloc: Global, name: &Name, option: PathOption) -> Result<(), SdcFault>
        ensures { Gives Fails (λ _. self.new) result (spec.begun self.old name.now option) }
    {
        match option {
            PathOption::From(_) => {
                let is_given = self.from.is_some();
                self.begin_once(alloc, option, name, is_given)?;
            }
            PathOption::To => {
                let is_given = self.to.is_some();
                self.begin_once(alloc, option, name, is_given)?;
            }
            PathOption::Multiplier => {
                let is_given = self.number.is_some();
                self.begin_once(alloc, option, name, is_given)?;
            }
            PathOption::Through | PathOption::Comment => self.await_word(alloc, option, name)?,
            PathOption::Setup => self.has_setup = true,
            PathOption::Hold => self.has_hold = true,
            PathOption::Reference => {}
            PathOption::LeftOut => self.set_aside(alloc, name)?,
            PathOption::LeftOutList => {
                self.set_aside(alloc, name)?;
                self.await_word(alloc, option, name)?;
            }
        }
        Ok(())
    }

    #[tactic(auto, unfolding(crate::specs::Exceptions::given))]
    fn give(&mut self, alloc: Global, option: PathOption, word: &Said<'_>) -> Result<(), SdcFault>
        ensures { Gives Fails (λ _. self.new) result (spec.given self.old option word.now) }
    {
        match option {
            PathOption::From(edge) => {
                self.from = Some(objects_of(alloc, word)?);
                self.edge = edge;
            }
            PathOption::To => self.to = Some(objects_of(alloc, word)?),
            PathOption::Through => self.through.push(objects_of(alloc, word)?)?,
            PathOption::Multiplier => self.number = Some(word.value.get().copy(alloc)?),
            _ => {}
        }
        Ok(())
    }

    #[tactic(auto, unfolding(crate::specs::Exceptions::with_number))]
    fn take_number(&mut self, alloc: Global, value: &Value) -> Result<(), SdcFault>
        ensures { Gives Fails (λ _. self.new) result (spec.with_number self.old value.now) }
    {
        if is_multicycle(self.path) && self.number.is_none() {
            self.number = Some(value.copy(alloc)?);
            return Ok(());
        }
        Err(self.head.surplus(alloc, value)?)
    }

    #[tactic(auto, unfolding(crate::specs::Exceptions::with_word))]
    fn take_word(&mut self, alloc: Global, value: &Value) -> Result<(), SdcFault>
        ensures { Gives Fails (λ _. self.new) result (spec.with_word self.old value.now) }
    {
        let Some(name) = option_of(value) else {
            return self.take_number(alloc, value);
        };
        match path_option(self.wide, self.path, name.as_bytes()) {
            Some(option) => self.begin(alloc, name, option),
            None => Err(self.head.bad_option(alloc, name)?),
        }
    }
}

impl Gather for Reading {
    ghost adds = { spec.adds_word };

    #[tactic(auto, unfolding(crate::specs::Exceptions::adds_word))]
    fn add(&mut self, alloc: Global, word: &Said<'_>) -> Result<(), SdcFault> {
        match self.awaited.take() {
            Some((option, _)) => self.give(alloc, option, word),
            None => self.take_word(alloc, word.value.get()),
        }
    }
}

fn is_multicycle(path: PathCommand) -> bool
    ensures { result ≡ spec.is_multicycle path }
{
    match path {
        PathCommand::FalsePath => false,
        PathCommand::Multicycle => true,
    }
}

fn is_hold(reading: &Reading) -> bool
    ensures { result ≡ spec.is_hold reading.now }
{
    reading.has_hold && !reading.has_setup
}

fn kind_by(alloc: Global, reading: &Reading, text: &Name) -> Result<Option<Kind>, SdcFault>
    ensures { Gives Fails (λ kind. kind) result (spec.kind_by reading.now text.now) }
{
    if is_hold(reading) {
        if is_whole(text.as_bytes()) {
            return Ok(None);
        }
        return Err(reading.head.bad_number(alloc, text)?);
    }
    match multiplier(text.as_bytes()) {
        Some(k) => Ok(Some(Kind::Multi(k))),
        None => Err(reading.head.bad_number(alloc, text)?),
    }
}

#[tactic(auto, unfolding(crate::specs::Exceptions::kind_of))]
fn kind_of(alloc: Global, reading: &Reading) -> Result<Option<Kind>, SdcFault>
    ensures { Gives Fails (λ kind. kind) result (spec.kind_of reading.now) }
{
    let Some(number) = &reading.number else {
        if is_hold(reading) {
            return Ok(None);
        }
        return Ok(Some(Kind::False));
    };
    let text = reading.head.wanted_text(alloc, number)?;
    kind_by(alloc, reading, text)
}

fn checks_of(reading: &Reading) -> Checks
    ensures { result ≡ spec.checks_of reading.now }
{
    if reading.has_setup {
        if reading.has_hold {
            Checks::Both
        } else {
            Checks::Setup
        }
    } else {
        Checks::Unsaid
    }
}

// An exception that claims, whose lists leave the reading.
fn exception_by(alloc: Global, reading: &mut Reading, kind: Kind) -> Exception
    ensures { result ≡ spec.exception_by reading.old kind }
{
    Exception {
        kind,
        checks: checks_of(reading),
        edge: reading.edge,
        from: reading.from.take(),
        through: mem::replace(&mut reading.through, Seq::new(alloc)),
        to: reading.to.take(),
    }
}

fn number_text(number: Option<Value>) -> Option<Name>
    ensures { result ≡ spec.number_text number }
{
    match number {
        Some(Value::Text(text)) => Some(text),
        Some(Value::Objects(_)) | None => None,
    }
}

// An exception about the hold check alone, whose number and lists leave the reading.
fn held(alloc: Global, reading: &mut Reading) -> Held
    ensures { result ≡ spec.held reading.old }
{
    Held {
        number: number_text(reading.number.take()),
        edge: reading.edge,
        from: reading.from.take(),
        through: mem::replace(&mut reading.through, Seq::new(alloc)),
        to: reading.to.take(),
    }
}

// What the exception says, whose number and lists leave the reading.
fn exception_or_hold(alloc: Global, reading: &mut Reading, kind: Option<Kind>) -> What
    ensures { result ≡ spec.exception_or_hold reading.old kind }
{
    match kind {
        Some(kind) => What::Claiming(exception_by(alloc, reading, kind)),
        None => What::Hold(held(alloc, reading)),
    }
}

// The number of a claiming exception that is whole, and no multiplier.
#[tactic(auto, unfolding(crate::specs::Exceptions::beyond, crate::specs::Exceptions::whole_beyond))]
fn beyond(reading: &Reading) -> Option<&Name>
    ensures { option_map (λ t. t.now) result ≡ spec.beyond reading.entry.now }
{
    match &reading.number {
        Some(Value::Text(text)) if reading.wide && !is_hold(reading) => {
            if is_integer(text.as_bytes()) && multiplier(text.as_bytes()).is_none() {
                Some(text)
            } else {
                None
            }
        }
        _ => None,
    }
}

#[tactic(auto, unfolding(crate::specs::Exceptions::claimed))]
fn claimed(alloc: Global, reading: &mut Reading) -> Result<What, SdcFault>
    ensures { Gives Fails (λ what. what) result (spec.claimed reading.old) }
{
    if let Some(text) = beyond(reading) {
        return Ok(What::Aside(text.copy(alloc)?));
    }
    let kind = kind_of(alloc, reading)?;
    Ok(exception_or_hold(alloc, reading, kind))
}

#[tactic(auto, unfolding(crate::specs::Exceptions::concluded))]
fn concluded(alloc: Global, reading: &mut Reading) -> Result<What, SdcFault>
    ensures { Gives Fails (λ what. what) result (spec.concluded reading.old) }
{
    if let Some((_, name)) = &reading.awaited {
        return Err(reading.head.bad_option(alloc, name)?);
    }
    if is_multicycle(reading.path) && reading.number.is_none() {
        return Err(reading.head.lacking(alloc)?);
    }
    if let Some(name) = &reading.aside {
        return Ok(What::Aside(name.copy(alloc)?));
    }
    claimed(alloc, reading)
}

/// What the words of an exception of a wide or a narrow script say, after the command's name.
pub fn take_exception(
    alloc: Global,
    wide: bool,
    path: PathCommand,
    head: Head,
    words: &[Said<'_>],
) -> Result<What, SdcFault>
    ensures { Gives Fails (λ what. what) result (spec.exception_of wide path head words.now) }
{
    let mut reading = Reading::new(alloc, wide, path, head);
    take_all(alloc, words, &mut reading)?;
    concluded(alloc, &mut reading)
}
