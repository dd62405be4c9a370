//! Nested commands that give objects of a class, or all objects of a kind.
ghost use Rattle.std.specs.Prelude.{◌≡◌, ◌<◌, ◌≤◌, length, drop, OnOk, IfOk, ◌++◌, ◌∷◌, []};
ghost use Rattle.texts.specs.Rules.{Gives};
ghost use Rattle.sdc_values.specs.Told.{Fails};
ghost use Rattle.sdc_values.specs.Gets as spec;

use crate::command_words::words_after;
use crate::lists::list_at;
use crate::loans::Loan;
use crate::nested_kinds::{
    Nesting, is_hier, is_no_clocks, is_option, is_quiet, is_wide, lists_texts,
};
use crate::values::Value;
use crate::variables::Variables;
use crate::word_texts::value;
use script_types::{Class, Object, SdcFault};
use sdc_words::Word;
use sdcv_base::{Name, Seq};
use std::alloc::{AllocError, Global};
use std::borrow::Cow;
use std::mem;

/// Where a nested command is read.
#[derive(Clone, Copy)]
pub struct Scene<'a> {
    pub alloc: Global,
    pub nesting: Nesting,
    pub vars: &'a Variables,
    /// The line of the whole command, from 1.
    pub line: u64,
    /// Where its outermost bracket of these stands in the whole text, from 0.
    pub place: usize,
}

/// The list of patterns of a `get_` command, and where its word begins in the whole text, from 0.
#[derive(Drop)]
pub struct Pattern<'a> {
    pub offset: usize,
    pub text: Loan<'a, Name>,
}

/// Which words of a `get_` command come next.
#[derive(Clone, Copy, PartialEq, Eq)]
pub enum Level {
    /// Its own.
    Own,
    /// The name of a nested command.
    Begun,
    /// The words of a nested list.
    Listed,
}

/// What the words of a `get_` command ask for.
#[derive(Drop)]
pub struct Asking<'a> {
    pub pattern: Option<Pattern<'a>>,
    pub hier: bool,
    /// How far a list nested in the command is read.
    pub level: Level,
    /// The texts of that list, a blank after each.
    pub listed: Seq<u8>,
}

#[tactic(auto, unfolding(crate::specs::Gets::adds_text))]
fn add_text<'a>(
    scene: &Scene<'_>,
    offset: usize,
    asking: &mut Asking<'a>,
    text: Loan<'a, Name>,
) -> Result<(), SdcFault>
    ensures { Gives Fails (λ _. asking.new) result (spec.adds_text scene.now.line offset asking.old text.entry) }
{
    let word = text.get();
    if is_hier(word.as_bytes()) {
        asking.hier = true;
        return Ok(());
    }
    if is_quiet(word.as_bytes()) {
        return Ok(());
    }
    if is_option(word.as_bytes()) || asking.pattern.is_some() {
        return Err(SdcFault::BadOption(scene.line, word.copy(scene.alloc)?));
    }
    asking.pattern = Some(Pattern { offset, text });
    Ok(())
}

/// Takes the name of a nested command.
#[tactic(auto, unfolding(crate::specs::Gets::adds_name))]
fn add_name(
    scene: &Scene<'_>,
    own: &Name,
    asking: &mut Asking<'_>,
    name: &Name,
) -> Result<(), SdcFault>
    ensures { Gives Fails (λ _. asking.new) result (spec.adds_name scene.now.line own.now asking.old name.now) }
{
    if lists_texts(name.as_bytes()) {
        asking.level = Level::Listed;
        return Ok(());
    }
    Err(SdcFault::BadOption(scene.line, own.copy(scene.alloc)?))
}

/// These bytes, a text and a blank.
fn with_listed(alloc: Global, before: Seq<u8>, text: &Name) -> Result<Seq<u8>, AllocError>
    ensures { IfOk result (λ bytes. bytes ≡ before ++ text.now ++ 32 ∷ []) }
{
    let mut bytes = before.into_vec();
    bytes.extend_from_slice(text.as_bytes())?;
    bytes.push(b' ')?;
    Ok(Seq::from_vec(bytes))
}

/// Takes a text among the words of a `get_` command or of the list nested in it.
#[tactic(auto, unfolding(crate::specs::Gets::adds_by))]
fn add_by<'a>(
    scene: &Scene<'_>,
    own: &Name,
    offset: usize,
    asking: &mut Asking<'a>,
    text: Loan<'a, Name>,
) -> Result<(), SdcFault>
    ensures { Gives Fails (λ _. asking.new) result (spec.adds_by asking.old.level scene.now.line own.now offset asking.old text.entry) }
{
    match asking.level {
        Level::Own => add_text(scene, offset, asking, text),
        Level::Begun => add_name(scene, own, asking, text.get()),
        Level::Listed => {
            let before = mem::replace(&mut asking.listed, Seq::new(scene.alloc));
            asking.listed = with_listed(scene.alloc, before, text.get())?;
            Ok(())
        }
    }
}

#[tactic(auto, unfolding(crate::specs::Gets::adds_value))]
fn add_value<'a>(
    scene: &Scene<'_>,
    own: &Name,
    offset: usize,
    asking: &mut Asking<'a>,
    value: Loan<'a, Value>,
) -> Result<(), SdcFault>
    ensures { Gives Fails (λ _. asking.new) result (spec.adds_value scene.now.line own.now offset asking.old value.entry) }
{
    match value.into_held() {
        Cow::Borrowed(Value::Text(text)) => add_by(scene, own, offset, asking, Loan::lent(text)),
        Cow::Owned(Value::Text(text)) => add_by(scene, own, offset, asking, Loan::own(text)),
        Cow::Borrowed(Value::Objects(_)) | Cow::Owned(Value::Objects(_)) => {
            Err(SdcFault::BadOption(scene.line, own.copy(scene.alloc)?))
        }
    }
}

fn is_own(level: Level) -> bool
    ensures { result ≡ spec.is_own level }
{
    match level {
        Level::Own => true,
        Level::Begun | Level::Listed => false,
    }
}

/// Begins a list nested in a `get_` command of this name.
#[tactic(auto, unfolding(crate::specs::Gets::opens))]
fn open(scene: &Scene<'_>, own: &Name, asking: &mut Asking<'_>) -> Result<(), SdcFault>
    ensures { Gives Fails (λ _. asking.new) result (spec.opens scene.now.nesting scene.now.line own.now asking.old) }
{
    if is_wide(scene.nesting) && (is_own(asking.level) && !asking.pattern.is_some()) {
        asking.level = Level::Begun;
        return Ok(());
    }
    Err(SdcFault::BadOption(scene.line, own.copy(scene.alloc)?))
}

/// Ends the list nested in a `get_` command of this name, whose texts are the patterns.
#[tactic(auto, unfolding(crate::specs::Gets::ends_list))]
fn end_list(scene: &Scene<'_>, own: &Name, asking: &mut Asking<'_>) -> Result<(), SdcFault>
    ensures { Gives Fails (λ _. asking.new) result
        (spec.ends_list asking.old.level scene.now.line scene.now.place own.now asking.old) }
{
    match asking.level {
        Level::Own => Ok(()),
        Level::Begun => Err(SdcFault::BadOption(scene.line, own.copy(scene.alloc)?)),
        Level::Listed => {
            let listed = mem::replace(&mut asking.listed, Seq::new(scene.alloc));
            let text = Loan::own(Name::from_vec(listed.into_vec()));
            asking.pattern = Some(Pattern {
                offset: scene.place,
                text,
            });
            asking.level = Level::Own;
            Ok(())
        }
    }
}

/// Reads the next word of a `get_` command of this name.
#[tactic(auto, unfolding(crate::specs::Gets::asks))]
fn ask<'a>(
    scene: &Scene<'a>,
    own: &Name,
    asking: &mut Asking<'a>,
    words: &[Word],
) -> Result<(), SdcFault>
    ensures value { Gives Fails (λ _. asking.new) result
        (spec.asks scene.now.nesting scene.now.vars.now scene.now.line scene.now.place own.now asking.old words.now) }
    ensures some { OnOk result (0 < length words.now) }
{
    match words.first() {
        None => Err(SdcFault::Syntax(scene.place)),
        Some(Word::Closes) => end_list(scene, own, asking),
        Some(Word::Opens(_)) => open(scene, own, asking),
        Some(Word::Text { offset, pieces }) => {
            let value = value(
                scene.alloc,
                scene.vars,
                scene.line,
                *offset,
                pieces.as_slice(),
            )?;
            add_value(scene, own, *offset, asking, value)
        }
    }
}

/// What a `get_` command of this name gives after all its words.
#[tactic(auto, unfolding(crate::specs::Gets::asked))]
fn asked(
    scene: &Scene<'_>,
    own: &Name,
    class: Class,
    asking: &Asking<'_>,
) -> Result<Seq<Object>, SdcFault>
    ensures { Gives Fails (λ objects. objects) result (spec.asked scene.now.line own.now class asking.now) }
{
    match &asking.pattern {
        None => Err(SdcFault::BadOption(scene.line, own.copy(scene.alloc)?)),
        Some(pattern) => {
            list_at(
                scene.alloc,
                pattern.offset,
                class,
                asking.hier,
                pattern.text.get().as_bytes(),
            )
        }
    }
}

/// Whether the `]` comes next.
pub fn closes(words: &[Word]) -> bool
    ensures value { result ≡ spec.closes words.now }
{
    match words.first() {
        Some(Word::Closes) => true,
        _ => false,
    }
}

/// Whether the `]` of the command itself comes next.
fn ends(asking: &Asking<'_>, words: &[Word]) -> bool
    ensures value { result ≡ spec.ends asking.now words.now }
{
    closes(words) && is_own(asking.level)
}

/// The objects of a `get_` command of this name, whose words these are, and how many of them it has with its `]`.
pub fn get(
    scene: &Scene<'_>,
    own: &Name,
    class: Class,
    words: &[Word],
) -> Result<(Seq<Object>, usize), SdcFault>
    ensures value { Gives Fails (λ p. (p.0, drop p.1 words.now)) result
        (spec.get_at scene.now.nesting scene.now.vars.now scene.now.line scene.now.place own.now class words.now) }
    ensures within { IfOk result (λ p. p.1 ≤ length words.now) }
{
    let mut asking = Asking {
        pattern: None,
        hier: false,
        level: Level::Own,
        listed: Seq::new(scene.alloc),
    };
    for place in 0..words.len() {
        let rest = words_after(words, place);
        if ends(&asking, rest) {
            return Ok((asked(scene, own, class, &asking)?, place + 1));
        }
        ask(scene, own, &mut asking, rest)?;
    }
    Err(SdcFault::Syntax(scene.place))
}

/// A word too many in a command of this name.
fn surplus(scene: &Scene<'_>, own: &Name, value: &Value) -> Result<SdcFault, AllocError>
    ensures { IfOk result (λ e. e ≡ spec.surplus scene.now.line own.now value.now) }
{
    let word = match value {
        Value::Text(text) => text.copy(scene.alloc)?,
        Value::Objects(_) => own.copy(scene.alloc)?,
    };
    Ok(SdcFault::BadOption(scene.line, word))
}

/// The objects of an `all_` command of this name, whose words these are, and how many of them it has with its `]`.
#[tactic(auto, unfolding(crate::specs::Gets::all_at))]
pub fn all(
    scene: &Scene<'_>,
    own: &Name,
    object: Object,
    words: &[Word],
) -> Result<(Seq<Object>, usize), SdcFault>
    ensures value { Gives Fails (λ p. (p.0, drop p.1 words.now)) result
        (spec.all_at scene.now.vars.now scene.now.line scene.now.place own.now object words.now) }
    ensures within { IfOk result (λ p. p.1 ≤ length words.now) }
{
    match words.first() {
        None => Err(SdcFault::Syntax(scene.place)),
        Some(Word::Closes) => Ok((Seq::one(scene.alloc, object)?, 1)),
        Some(Word::Opens(_)) => Err(SdcFault::BadOption(scene.line, own.copy(scene.alloc)?)),
        Some(Word::Text { offset, pieces }) => {
            let value = value(
                scene.alloc,
                scene.vars,
                scene.line,
                *offset,
                pieces.as_slice(),
            )?;
            Err(surplus(scene, own, value.get())?)
        }
    }
}

fn says_no_clocks(value: &Value) -> bool
    ensures { result ≡ spec.says_no_clocks value.now }
{
    match value {
        Value::Text(text) => is_no_clocks(text.as_bytes()),
        Value::Objects(_) => false,
    }
}

/// How many words the option of `all_inputs` takes that leaves out the ports of clocks: one where it comes first, else none.
#[tactic(auto, unfolding(crate::specs::Gets::after_no_clocks))]
fn no_clocks(scene: &Scene<'_>, words: &[Word]) -> Result<usize, SdcFault>
    ensures value { Gives Fails (λ n. drop n words.now) result (spec.after_no_clocks scene.now.vars.now scene.now.line words.now) }
    ensures within { IfOk result (λ n. n ≤ length words.now) }
{
    let Some(Word::Text { offset, pieces }) = words.first() else {
        return Ok(0);
    };
    let value = value(
        scene.alloc,
        scene.vars,
        scene.line,
        *offset,
        pieces.as_slice(),
    )?;
    if says_no_clocks(value.get()) {
        return Ok(1);
    }
    Ok(0)
}

/// The objects of `all_inputs` of this name, whose words these are, and how many of them it has with its `]`.
#[tactic(auto, unfolding(crate::specs::Gets::inputs_at))]
pub fn inputs(
    scene: &Scene<'_>,
    own: &Name,
    words: &[Word],
) -> Result<(Seq<Object>, usize), SdcFault>
    ensures value { Gives Fails (λ p. (p.0, drop p.1 words.now)) result
        (spec.inputs_at scene.now.nesting scene.now.vars.now scene.now.line scene.now.place own.now words.now) }
    ensures within { IfOk result (λ p. p.1 ≤ length words.now) }
{
    if !is_wide(scene.nesting) {
        return all(scene, own, Object::AllInputs, words);
    }
    let passed = no_clocks(scene, words)?;
    let (objects, count) = all(scene, own, Object::AllInputs, words_after(words, passed))?;
    Ok((objects, passed + count))
}
