//! Delays of ports.
ghost use Rattle.std.specs.Prelude.{◌≡◌, ◌<◌, ◌≤◌, [], drop, length, IfOk, Result, Err};
ghost use Rattle.texts.specs.Rules.{Gives};
ghost use Rattle.sdc_values.specs.Told.{Fails};
ghost use Rattle.script_types.specs.declared.faults.SdcFault.{SdcFault as TheFault};
ghost use Rattle.sdc_values.specs.declared.values.Said.{Said as TheSaid};
ghost use Rattle.sdc_text.specs.Delays as spec;
ghost use Rattle.sdcv_base.specs.Steps.{after_all};

use crate::heads::option_of;
use crate::options::{DelayOption, delay_option};
use script_types::{Class, Object, Query, What};
use sdc_values::{
    Loan, Said, SdcFault, Value, Variables, bracket_len, collection, objects_of, said_text,
    words_after,
};
use sdc_words::Word;
use sdcv_base::Seq;
use std::alloc::{AllocError, Global};

/// What a list of a delay is of.
#[derive(Clone, Copy, PartialEq, Eq)]
pub enum Role {
    Ports,
    Clocks,
}

/// What the words of a delay have said so far.
#[derive(Drop)]
pub struct DelayReading {
    pub awaits_clocks: bool,
    pub clocks: Option<Seq<Object>>,
    pub has_value: bool,
    pub objects: Option<Seq<Object>>,
}

/// The words are not those of a delay that is read.
fn unread() -> SdcFault
    ensures { result ≡ spec.unread }
{
    SdcFault::Syntax(0)
}

fn class_of(role: Role) -> Class
    ensures { result ≡ spec.class_of role }
{
    match role {
        Role::Ports => Class::Ports,
        Role::Clocks => Class::Clocks,
    }
}

fn is_class(role: Role, class: Class) -> bool
    ensures { result ≡ spec.is_class role class }
{
    match (role, class) {
        (Role::Ports, Class::Ports) => true,
        (Role::Clocks, Class::Clocks) => true,
        (_, Class::Any) => true,
        _ => false,
    }
}

fn fitted_query(alloc: Global, role: Role, query: &Query) -> Result<Object, AllocError>
    ensures { IfOk result (λ o. o ≡ spec.fitted_query role query.now) }
{
    Ok(Object::Named(Query {
        class: class_of(role),
        hier: query.hier,
        pattern: query.pattern.copy(alloc)?,
    }))
}

/// The object that an object is in such a list, and `None` exactly where it may not stand there.
#[tactic(auto, unfolding(crate::specs::Delays::fitted))]
fn fitted(alloc: Global, role: Role, object: &Object) -> Result<Option<Object>, AllocError>
    ensures { IfOk result (λ o. o ≡ spec.fitted role object.now) }
{
    match (role, object) {
        (_, Object::Named(query)) => {
            if is_class(role, query.class) {
                Ok(Some(fitted_query(alloc, role, query)?))
            } else {
                Ok(None)
            }
        }
        (Role::Ports, Object::AllInputs) => Ok(Some(Object::AllInputs)),
        (Role::Ports, Object::AllOutputs) => Ok(Some(Object::AllOutputs)),
        (Role::Clocks, Object::AllClocks) => Ok(Some(Object::AllClocks)),
        _ => Ok(None),
    }
}

#[tactic(auto, unfolding(crate::specs::Delays::adds_fitted))]
fn add_fitted(
    alloc: Global,
    role: Role,
    found: &mut Seq<Object>,
    object: &Object,
) -> Result<(), SdcFault>
    ensures { Gives Fails (λ _. found.new) result (spec.adds_fitted role found.old object.now) }
{
    match fitted(alloc, role, object)? {
        Some(fit) => {
            found.push(fit)?;
            Ok(())
        }
        None => Err(unread()),
    }
}

fn all_fitted(alloc: Global, role: Role, objects: &[Object]) -> Result<Seq<Object>, SdcFault>
    ensures { Gives Fails (λ found. found) result (after_all (spec.adds_fitted role) [] objects.now) }
{
    let mut found = Seq::new(alloc);
    for object in objects {
        add_fitted(alloc, role, &mut found, object)?;
    }
    Ok(found)
}

#[tactic(auto, unfolding(crate::specs::Delays::listed))]
fn listed(alloc: Global, role: Role, word: &Said<'_>) -> Result<Seq<Object>, SdcFault>
    ensures { Gives Fails (λ objects. objects) result (spec.listed role word.now) }
{
    let objects = objects_of(alloc, word)?;
    all_fitted(alloc, role, objects.as_slice())
}

impl DelayReading {
    #[tactic(auto, unfolding(crate::specs::Delays::begun))]
    fn begin(&mut self, option: DelayOption) -> Result<(), SdcFault>
        ensures { Gives Fails (λ _. self.new) result (spec.begun self.old option) }
    {
        match option {
            DelayOption::Clocks => {
                if self.clocks.is_some() {
                    return Err(unread());
                }
                self.awaits_clocks = true;
            }
            DelayOption::Alone => {}
        }
        Ok(())
    }

    #[tactic(auto, unfolding(crate::specs::Delays::with_plain))]
    fn take_plain(&mut self, alloc: Global, word: &Said<'_>) -> Result<(), SdcFault>
        ensures { Gives Fails (λ _. self.new) result (spec.with_plain self.old word.now) }
    {
        if !self.has_value {
            self.has_value = true;
            return Ok(());
        }
        if self.objects.is_some() {
            return Err(unread());
        }
        self.objects = Some(listed(alloc, Role::Ports, word)?);
        Ok(())
    }

    #[tactic(auto, unfolding(crate::specs::Delays::with_word))]
    fn take_word(&mut self, alloc: Global, word: &Said<'_>) -> Result<(), SdcFault>
        ensures { Gives Fails (λ _. self.new) result (spec.with_word self.old word.now) }
    {
        let Some(name) = option_of(word.value.get()) else {
            return self.take_plain(alloc, word);
        };
        match delay_option(name.as_bytes()) {
            Some(option) => self.begin(option),
            None => Err(unread()),
        }
    }

    #[tactic(auto, unfolding(crate::specs::Delays::adds_word))]
    fn add(&mut self, alloc: Global, word: &Said<'_>) -> Result<(), SdcFault>
        ensures { Gives Fails (λ _. self.new) result (spec.adds_word self.old word.now) }
    {
        if !self.awaits_clocks {
            return self.take_word(alloc, word);
        }
        self.clocks = Some(listed(alloc, Role::Clocks, word)?);
        self.awaits_clocks = false;
        Ok(())
    }

    fn takes_value(&self) -> bool
        ensures { result ≡ spec.takes_value self.now }
    {
        !self.awaits_clocks && !self.has_value
    }

    /// Takes a text, where this is what it says.
    #[tactic(auto, unfolding(crate::specs::Delays::with_text))]
    fn take_text(&mut self, alloc: Global, said: Result<Said<'_>, SdcFault>) -> Result<(), SdcFault>
        ensures { (expected : Result TheSaid TheFault) → Gives Fails (λ s. s) said.entry expected
            → Gives Fails (λ _. self.new) result (spec.with_text self.old expected) }
    {
        match said {
            Ok(word) => self.add(alloc, &word),
            Err(SdcFault::Memory) => Err(SdcFault::Memory),
            Err(fault) => self.pass_value(fault),
        }
    }

    #[tactic(auto, unfolding(crate::specs::Delays::with_text))]
    fn pass_value(&mut self, fault: SdcFault) -> Result<(), SdcFault>
        ensures { Gives Fails (λ _. self.new) result (spec.with_text self.old (Err fault)) }
    {
        if self.takes_value() {
            self.has_value = true;
            return Ok(());
        }
        Err(fault)
    }

    /// Takes the nested command whose `[` stands at this offset, and tells how many words it has with its `]`.
    #[tactic(auto, unfolding(crate::specs::Delays::bracket_step))]
    fn take_bracket(
        &mut self,
        alloc: Global,
        vars: &Variables,
        line: u64,
        offset: usize,
        words: &[Word],
    ) -> Result<usize, SdcFault>
        ensures value { Gives Fails (λ n. (self.new, drop n words.now)) result (spec.bracket_step vars.now line offset self.old words.now) }
        ensures within { IfOk result (λ n. n ≤ length words.now) }
    {
        if self.takes_value() {
            self.has_value = true;
            return Ok(bracket_len(words));
        }
        let (objects, count) = collection(alloc, vars, line, offset, words)?;
        let word = Said {
            offset,
            value: Loan::own(Value::Objects(objects)),
        };
        self.add(alloc, &word)?;
        Ok(count)
    }

    /// Takes the first word, and tells how many words that took.
    #[tactic(auto, unfolding(crate::specs::Delays::delay_step))]
    fn step(
        &mut self,
        alloc: Global,
        vars: &Variables,
        line: u64,
        words: &[Word],
    ) -> Result<usize, SdcFault>
        requires { 0 < length words.now }
        ensures value { Gives Fails (λ n. (self.new, drop n words.now)) result (spec.delay_step vars.now line self.old words.now) }
        ensures some { IfOk result (λ n. 0 < n) }
        ensures within { IfOk result (λ n. n ≤ length words.now) }
    {
        match &words[0] {
            Word::Text { offset, pieces } => {
                self.take_text(alloc, said_text(alloc, vars, line, *offset, pieces))?;
                Ok(1)
            }
            Word::Opens(offset) => Ok(
                self.take_bracket(alloc, vars, line, *offset, &words[1..])? + 1,
            ),
            Word::Closes => Ok(1),
        }
    }
}

/// Takes all these words.
fn take_words(
    alloc: Global,
    vars: &Variables,
    line: u64,
    words: &[Word],
) -> Result<DelayReading, SdcFault>
    ensures { Gives Fails (λ r. r) result (spec.delay_from (length words.now) vars.now line spec.bare words.now) }
{
    let mut reading = DelayReading {
        awaits_clocks: false,
        clocks: None,
        has_value: false,
        objects: None,
    };
    let mut place = 0;
    'words: while place < words.len() {
        let taken = reading.step(alloc, vars, line, words_after(words, place))?;
        place += taken;
    }
    Ok(reading)
}

#[tactic(auto, unfolding(crate::specs::Delays::concluded))]
fn concluded(output: bool, reading: DelayReading) -> Result<What, SdcFault>
    ensures { Gives Fails (λ what. what) result (spec.concluded output reading) }
{
    let DelayReading {
        awaits_clocks,
        clocks,
        objects,
        ..
    } = reading;
    if awaits_clocks {
        return Err(unread());
    }
    match objects {
        Some(objects) => Ok(What::Delay {
            output,
            clocks,
            objects,
        }),
        None => Err(unread()),
    }
}

/// What the words of a delay say, of outputs or of inputs, on this line after the command's name.
pub fn take_delay(
    alloc: Global,
    output: bool,
    vars: &Variables,
    line: u64,
    words: &[Word],
) -> Result<What, SdcFault>
    ensures { Gives Fails (λ what. what) result (spec.delay_of output vars.now line words.now) }
{
    let reading = take_words(alloc, vars, line, words)?;
    concluded(output, reading)
}
