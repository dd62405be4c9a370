//! Scripts as callers see them.

use crate::objects::Object;
use sdcv_base::{Edge, Kind, Name, Seq};

/// Which of the two checks of a path an exception names by its options: neither `-setup` nor `-hold` stands, `-setup` alone,
/// or both.
#[derive(Clone, Copy, PartialEq, Eq)]
pub enum Checks {
    Unsaid,
    Setup,
    Both,
}

/// A timing exception (SDC 2.1, `set_false_path` and `set_multicycle_path`), with a list of objects for each `-through` in
/// its order. `from` is the list after `-from`, `-rise_from` or `-fall_from`, and `edge` says which of the three it was; without
/// any of them it is `Any`.
pub struct Exception {
    pub kind: Kind,
    pub checks: Checks,
    pub edge: Edge,
    pub from: Option<Seq<Object>>,
    pub through: Seq<Seq<Object>>,
    pub to: Option<Seq<Object>>,
}

impl Drop for Exception {
    fn drop(self) {
        let Exception {
            kind: _kind,
            checks: _checks,
            edge: _edge,
            from: _from,
            through: _through,
            to: _to,
        } = self;
    }
}

/// An exception about the hold check alone: `-hold` stands, and `-setup` does not. `number` is the text of the number of a
/// `set_multicycle_path`, as it is written, and `None` of a `set_false_path`; the lists and the edge are those of `Exception`.
pub struct Held {
    pub number: Option<Name>,
    pub edge: Edge,
    pub from: Option<Seq<Object>>,
    pub through: Seq<Seq<Object>>,
    pub to: Option<Seq<Object>>,
}

impl Drop for Held {
    fn drop(self) {
        let Held {
            number: _number,
            edge: _edge,
            from: _from,
            through: _through,
            to: _to,
        } = self;
    }
}

/// What a command says. An `Unjudged`, a `Scope`, a `Generated` and a `Delay` come of a wide script alone, and whoever has no
/// use for one treats it as `Passed`.
pub enum What {
    Clock {
        name: Option<Name>,
        source: Seq<Object>,
    },
    Case {
        value: bool,
        objects: Seq<Object>,
    },
    Claiming(Exception),
    Hold(Held),
    /// The first option for which an exception is set aside.
    Aside(Name),
    /// A command that changes no exception.
    Passed,
    /// The command of this name, which a timing analyser obeys, and of whose effect no verdict speaks.
    Unjudged(Name),
    /// `current_design` with this name, which is not that of the top module.
    Scope(Name),
    /// A generated clock of this name on these objects (`create_generated_clock`).
    Generated {
        name: Name,
        objects: Seq<Object>,
    },
    /// The output delay, or else the input delay, of these clocks at these ports (`set_output_delay`, `set_input_delay`);
    /// without `-clock` it is a delay of no clock.
    Delay {
        output: bool,
        clocks: Option<Seq<Object>>,
        objects: Seq<Object>,
    },
}

impl Drop for What {
    fn drop(self) {
        match self {
            What::Clock {
                name: _name,
                source: _source,
            } => {}
            What::Case {
                value: _value,
                objects: _objects,
            } => {}
            What::Claiming(_exception) => {}
            What::Hold(_held) => {}
            What::Aside(_option) => {}
            What::Passed => {}
            What::Unjudged(_name) | What::Scope(_name) => {}
            What::Generated {
                name: _name,
                objects: _objects,
            } => {}
            What::Delay {
                output: _output,
                clocks: _clocks,
                objects: _objects,
            } => {}
        }
    }
}

/// A command, and the line of its first byte, from 1.
pub struct Command {
    pub line: u64,
    pub what: What,
}

impl Drop for Command {
    fn drop(self) {
        let Command {
            line: _line,
            what: _what,
        } = self;
    }
}

/// The commands of a text in their order.
pub struct Script {
    pub commands: Seq<Command>,
}

impl Drop for Script {
    fn drop(self) {
        let Script {
            commands: _commands,
        } = self;
    }
}
