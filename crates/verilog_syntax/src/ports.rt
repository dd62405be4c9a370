//! Ports: the port list of a module, and declarations of ports in its body.
ghost use Rattle.std.specs.Prelude.{◌≡◌, ◌<◌, ◌≤◌, length, map, OnOk, IfOk, IsSome};
ghost use Rattle.sdcv_base.specs.Cursors.{rest, text_of};
ghost use Rattle.texts.specs.Rules.{Reads};
ghost use Rattle.verilog_words.specs.Names.{identifier_len};
ghost use Rattle.verilog_words.specs.Reads.{Fails};
ghost use Rattle.verilog_syntax.specs.Ports as spec;

use crate::declarations::{Head, PortDecl, Range, Spelled};
use crate::lists::{Gather, take_list};
use crate::parts::range_or_none;
use netlist_types::Dir;
use sdcv_base::{Cursor, Name, Seq};
use std::alloc::{AllocError, Global};
use verilog_words::{
    SyntaxFault, Word, bump, next_word, opens_list, refused, skip_identifier, take_name, try_pass,
    try_word,
};

/// The direction and range of the ports that follow.
#[derive(Clone, Copy)]
struct Turn {
    dir: Dir,
    range: Option<Range>,
}

/// The ports of a list of declarations so far, and whether `inout` is a direction.
#[derive(Drop)]
struct Ports {
    wide: bool,
    list: Seq<PortDecl>,
}

/// Takes a name, with its place.
#[tactic(auto, unfolding(crate::specs::Ports::spelled_at))]
fn take_spelled(alloc: Global, c: &mut Cursor<'_>) -> Result<Spelled, SyntaxFault>
    ensures value { Reads c.old c.new Fails (λ n. n) result spec.spelled_at }
    ensures text { text_of c.new ≡ text_of c.old }
    ensures shorter { OnOk result (length (rest c.new) < length (rest c.old)) }
{
    let offset = c.place();
    let name = take_name(c)?;
    let name = Name::new(alloc, name)?;
    Ok(Spelled { offset, name })
}

/// A name of a list of names.
impl Gather for Seq<Spelled> {
    ghost adds = { spec.adds_spelled };

    fn add(&mut self, alloc: Global, c: &mut Cursor<'_>) -> Result<(), SyntaxFault> {
        let name = take_spelled(alloc, c)?;
        self.push(name)?;
        Ok(())
    }
}

/// The direction that comes next. `inout` is one where the netlist is read wide.
#[tactic(auto, unfolding(crate::specs::Ports::next_dir))]
fn next_dir(c: &Cursor<'_>, wide: bool) -> Option<Dir>
    ensures value { result ≡ spec.next_dir wide (rest c.now) }
    ensures some { IsSome result → 0 < identifier_len (rest c.now) }
{
    match next_word(c) {
        Some(Word::Input) => Some(Dir::Input),
        Some(Word::Output) => Some(Dir::Output),
        Some(Word::Inout) if wide => Some(Dir::Inout),
        _ => None,
    }
}

#[tactic(auto, unfolding(crate::specs::Ports::dir_at))]
fn take_dir(c: &mut Cursor<'_>, wide: bool) -> Result<Dir, SyntaxFault>
    ensures value { Reads c.old c.new Fails (λ d. d) result (spec.dir_at wide) }
    ensures text { text_of c.new ≡ text_of c.old }
    ensures shorter { OnOk result (length (rest c.new) < length (rest c.old)) }
{
    let Some(dir) = next_dir(c, wide) else {
        return Err(refused(c));
    };
    skip_identifier(c);
    Ok(dir)
}

/// Takes a direction, `wire` or not, and a range or none.
#[tactic(auto, unfolding(crate::specs::Ports::turn_at))]
fn take_turn(c: &mut Cursor<'_>, wide: bool) -> Result<Turn, SyntaxFault>
    ensures value { Reads c.old c.new Fails (λ t. t) result (spec.turn_at wide) }
    ensures text { text_of c.new ≡ text_of c.old }
    ensures shorter { OnOk result (length (rest c.new) < length (rest c.old)) }
{
    let dir = take_dir(c, wide)?;
    let _is_wire = try_word(c, "wire");
    let range = range_or_none(c)?;
    Ok(Turn { dir, range })
}

/// The direction and range of the next port: those that stand here, or else those of the port before it.
#[tactic(auto, unfolding(crate::specs::Ports::inherited_at))]
fn inherit(c: &mut Cursor<'_>, found: &Ports) -> Result<Turn, SyntaxFault>
    ensures value { Reads c.old c.new Fails (λ t. t) result (spec.inherited_at found.now) }
    ensures text { text_of c.new ≡ text_of c.old }
    ensures within { OnOk result (length (rest c.new) ≤ length (rest c.old)) }
{
    if next_dir(c, found.wide).is_some() {
        return take_turn(c, found.wide);
    }
    match found.list.as_slice().last() {
        Some(port) => Ok(Turn {
            dir: port.dir,
            range: port.range,
        }),
        None => Err(refused(c)),
    }
}

/// A port of a list of declarations.
impl Gather for Ports {
    ghost adds = { spec.adds_port };

    #[tactic(auto, unfolding(crate::specs::Ports::adds_port))]
    fn add(&mut self, alloc: Global, c: &mut Cursor<'_>) -> Result<(), SyntaxFault> {
        let Turn { dir, range } = inherit(c, self)?;
        let name = take_spelled(alloc, c)?;
        self.list.push(PortDecl { dir, range, name })?;
        Ok(())
    }
}

/// Takes what follows the `(` of a port list: nothing, declarations where a direction comes first, or names.
#[tactic(auto, unfolding(crate::specs::Ports::listed_at))]
fn take_listed(alloc: Global, c: &mut Cursor<'_>, wide: bool) -> Result<Head, SyntaxFault>
    ensures value { Reads c.old c.new Fails (λ h. h) result (spec.listed_at wide) }
    ensures text { text_of c.new ≡ text_of c.old }
    ensures shorter { OnOk result (length (rest c.new) < length (rest c.old)) }
{
    let mut names = Seq::new(alloc);
    if try_pass(c, b')') {
        return Ok(Head::Names(names));
    }
    if next_dir(c, wide).is_some() {
        let list = Seq::new(alloc);
        let mut ports = Ports { wide, list };
        take_list(alloc, c, b')', &mut ports)?;
        return Ok(Head::Ports(ports.list));
    }
    take_list(alloc, c, b')', &mut names)?;
    Ok(Head::Names(names))
}

/// Takes a port list where one stands.
#[tactic(auto, unfolding(crate::specs::Ports::head_at))]
pub fn take_head(alloc: Global, c: &mut Cursor<'_>, wide: bool) -> Result<Head, SyntaxFault>
    ensures value { Reads c.old c.new Fails (λ h. h) result (spec.head_at wide) }
    ensures text { text_of c.new ≡ text_of c.old }
    ensures within { OnOk result (length (rest c.new) ≤ length (rest c.old)) }
{
    if !opens_list(c) {
        return Ok(Head::Names(Seq::new(alloc)));
    }
    bump(c);
    take_listed(alloc, c, wide)
}

/// Ports of these names.
fn ports_of(alloc: Global, turn: Turn, names: Seq<Spelled>) -> Result<Seq<PortDecl>, AllocError>
    ensures { IfOk result (λ ports. ports ≡ map (spec.port_of turn) names) }
{
    let mut ports = Seq::new(alloc);
    for name in names.into_vec() {
        ports.push(PortDecl {
            dir: turn.dir,
            range: turn.range,
            name,
        })?;
    }
    Ok(ports)
}

/// Takes a declaration of ports in a body.
#[tactic(auto, unfolding(crate::specs::Ports::ports_at))]
pub fn take_ports(
    alloc: Global,
    c: &mut Cursor<'_>,
    wide: bool,
) -> Result<Seq<PortDecl>, SyntaxFault>
    ensures value { Reads c.old c.new Fails (λ l. l) result (spec.ports_at wide) }
    ensures text { text_of c.new ≡ text_of c.old }
    ensures shorter { OnOk result (length (rest c.new) < length (rest c.old)) }
{
    let turn = take_turn(c, wide)?;
    let mut names = Seq::new(alloc);
    take_list(alloc, c, b';', &mut names)?;
    Ok(ports_of(alloc, turn, names)?)
}
