//! Nested commands, up to the `]` of the outermost.
ghost use Rattle.std.specs.Prelude.{◌≡◌, ◌+◌, ◌<◌, ◌≤◌, ◌^◌, length, drop, OnOk, IfOk};
ghost use Rattle.texts.specs.Rules.{Gives};
ghost use Rattle.sdc_values.specs.Told.{Fails};
ghost use Rattle.sdc_values.specs.Nested as spec;

use crate::command_words::words_after;
use crate::gets::{Scene, all, get, inputs};
use crate::lists::objects_of;
use crate::nested_kinds::{NestedKind, Nesting, nested_kind};
use crate::variables::Variables;
use crate::word_texts::{said_text, text_within, value};
use script_types::{Object, SdcFault};
use sdc_words::Word;
use sdcv_base::{Name, Seq};
use std::alloc::{AllocError, Global};
use std::mem;

/// The objects that nested lists join, and how many of the lists are open.
#[derive(Drop)]
pub struct Joined {
    pub opened: usize,
    pub objects: Seq<Object>,
}

/// Joins these objects too.
fn join(alloc: Global, joined: &mut Joined, objects: Seq<Object>) -> Result<(), AllocError>
    ensures { OnOk result (joined.new ≡ spec.with_objects joined.old objects) }
{
    let mut all = mem::replace(&mut joined.objects, Seq::new(alloc)).into_vec();
    let mut more = objects.into_vec();
    all.append(&mut more)?;
    joined.objects = Seq::from_vec(all);
    Ok(())
}

/// The name of a nested command.
#[tactic(auto, unfolding(crate::specs::Nested::name_at))]
fn name(scene: &Scene<'_>, words: &[Word]) -> Result<Name, SdcFault>
    ensures value { Gives Fails (λ name. name) result (spec.name_at scene.now.vars.now scene.now.line scene.now.place words.now) }
    ensures some { OnOk result (0 < length words.now) }
{
    match words.first() {
        Some(Word::Text { offset, pieces }) => {
            let value = value(
                scene.alloc,
                scene.vars,
                scene.line,
                *offset,
                pieces.as_slice(),
            )?;
            Ok(text_within(*offset, value.get())?.copy(scene.alloc)?)
        }
        Some(Word::Opens(offset)) => Err(SdcFault::Syntax(*offset)),
        Some(Word::Closes) | None => Err(SdcFault::Syntax(scene.place)),
    }
}

/// The objects of a nested command of this name, which is no `list`, and how many words it has.
#[tactic(auto, unfolding(crate::specs::Nested::objects_at))]
fn objects_at(
    scene: &Scene<'_>,
    own: &Name,
    kind: NestedKind,
    words: &[Word],
) -> Result<(Seq<Object>, usize), SdcFault>
    ensures value { Gives Fails (λ p. (p.0, drop p.1 words.now)) result
        (spec.objects_at scene.now.nesting scene.now.vars.now scene.now.line scene.now.place own.now kind words.now) }
    ensures within { IfOk result (λ p. p.1 ≤ length words.now) }
{
    match kind {
        NestedKind::List => Ok((Seq::new(scene.alloc), 0)),
        NestedKind::Get(class) => get(scene, own, class, words),
        NestedKind::AllInputs => inputs(scene, own, words),
        NestedKind::AllOutputs => all(scene, own, Object::AllOutputs, words),
        NestedKind::AllRegisters => all(scene, own, Object::AllRegisters, words),
        NestedKind::AllClocks => all(scene, own, Object::AllClocks, words),
    }
}

fn is_list(kind: NestedKind) -> bool
    ensures { result ≡ spec.is_list kind }
{
    match kind {
        NestedKind::List => true,
        _ => false,
    }
}

/// Begins a nested command of this name and kind, and tells how many of the words after the name that takes.
#[tactic(auto, unfolding(crate::specs::Nested::begins))]
fn begin(
    scene: &Scene<'_>,
    own: &Name,
    kind: NestedKind,
    joined: &mut Joined,
    words: &[Word],
) -> Result<usize, SdcFault>
    requires { joined.old.opened + 1 < 2 ^ 64 }
    ensures value { Gives Fails (λ n. (joined.new, drop n words.now)) result
        (spec.begins scene.now.nesting scene.now.vars.now scene.now.line scene.now.place own.now kind joined.old words.now) }
    ensures within { IfOk result (λ n. n ≤ length words.now) }
    ensures few { OnOk result (joined.new.opened ≤ joined.old.opened + 1) }
{
    if is_list(kind) {
        joined.opened += 1;
        return Ok(0);
    }
    let (objects, taken) = objects_at(scene, own, kind, words)?;
    join(scene.alloc, joined, objects)?;
    Ok(taken)
}

/// Begins the nested command after a `[`, and tells how many words that takes.
#[tactic(auto, unfolding(crate::specs::Nested::enters))]
fn enter(scene: &Scene<'_>, joined: &mut Joined, words: &[Word]) -> Result<usize, SdcFault>
    requires { joined.old.opened + length words.now < 2 ^ 64 }
    ensures value { Gives Fails (λ n. (joined.new, drop n words.now)) result
        (spec.enters scene.now.nesting scene.now.vars.now scene.now.line scene.now.place joined.old words.now) }
    ensures some { IfOk result (λ n. 0 < n) }
    ensures within { IfOk result (λ n. n ≤ length words.now) }
    ensures few { OnOk result (joined.new.opened ≤ joined.old.opened + 1) }
{
    let own = name(scene, words)?;
    match nested_kind(scene.nesting, own.as_bytes()) {
        Some(kind) => Ok(begin(scene, &own, kind, joined, words_after(words, 1))? + 1),
        None => Err(SdcFault::UnknownCommand(scene.line, own)),
    }
}

/// Reads a word in open lists, and tells how many words that takes.
#[tactic(auto, unfolding(crate::specs::Nested::list_step))]
fn step(scene: &Scene<'_>, joined: &mut Joined, words: &[Word]) -> Result<usize, SdcFault>
    requires some { 0 < joined.old.opened }
    requires few { joined.old.opened + length words.now < 2 ^ 64 }
    ensures value { Gives Fails (λ n. (joined.new, drop n words.now)) result
        (spec.list_step scene.now.nesting scene.now.vars.now scene.now.line scene.now.place joined.old words.now) }
    ensures some { IfOk result (λ n. 0 < n) }
    ensures within { IfOk result (λ n. n ≤ length words.now) }
    ensures few { OnOk result (joined.new.opened ≤ joined.old.opened + 1) }
{
    match words.first() {
        None => Err(SdcFault::Syntax(scene.place)),
        Some(Word::Closes) => {
            joined.opened -= 1;
            Ok(1)
        }
        Some(Word::Opens(_)) => Ok(enter(scene, joined, words_after(words, 1))? + 1),
        Some(Word::Text { offset, pieces }) => {
            let said = said_text(scene.alloc, scene.vars, scene.line, *offset, pieces)?;
            let objects = objects_of(scene.alloc, &said)?;
            join(scene.alloc, joined, objects)?;
            Ok(1)
        }
    }
}

/// The objects of the nested command whose `[` stands at this offset, of a command on this line, and how many words it has
/// with its `]`. `UnknownCommand` comes for one that may not stand in brackets; `BadOption` for an option or a word that it
/// does not take, and where it lacks its pattern; and what its words cause.
#[tactic(auto, unfolding(crate::specs::Nested::nested_at))]
pub fn nested(
    alloc: Global,
    nesting: Nesting,
    vars: &Variables,
    line: u64,
    offset: usize,
    words: &[Word],
) -> Result<(Seq<Object>, usize), SdcFault>
    ensures value { Gives Fails (λ p. (p.0, drop p.1 words.now)) result (spec.nested_at nesting vars.now line offset words.now) }
    ensures within { IfOk result (λ p. p.1 ≤ length words.now) }
{
    let scene = Scene {
        alloc,
        nesting,
        vars,
        line,
        place: offset,
    };
    let mut joined = Joined {
        opened: 0,
        objects: Seq::new(alloc),
    };
    let begun = enter(&scene, &mut joined, words)?;
    let taken = close_all(&scene, &mut joined, words_after(words, begun))?;
    Ok((joined.objects, begun + taken))
}

/// Reads the words of all open lists, and tells how many they are.
fn close_all(scene: &Scene<'_>, joined: &mut Joined, words: &[Word]) -> Result<usize, SdcFault>
    requires { joined.old.opened + length words.now < 2 ^ 64 }
    ensures value { Gives Fails (λ n. (joined.new.objects, drop n words.now)) result
        (spec.lists_at scene.now.nesting scene.now.vars.now scene.now.line scene.now.place joined.old words.now) }
    ensures within { IfOk result (λ n. n ≤ length words.now) }
{
    let mut place = 0;
    'words: while 0 < joined.opened {
        place += step(scene, joined, words_after(words, place))?;
    }
    Ok(place)
}
