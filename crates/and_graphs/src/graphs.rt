//! Graphs that grow line by line.
ghost use Rattle.std.specs.Prelude.{◌≡◌, ◌+◌, ◌*◌, ◌<◌, ◌&&◌, ◌||◌, not, false, [], List, Bool, IfOk, slice_index_or};
ghost use Rattle.net_model.specs.Form.{xor};
ghost use Rattle.and_graphs.specs.Graphs.{Means, Keeps};
ghost use Rattle.and_graphs.specs.declared.graphs.AndGraph.{AndGraph as Graph};

use sdcv_base::Seq;
use std::alloc::{AllocError, Global};

/// A line: the conjunction of two literals.
#[derive(Clone, Copy, Debug, PartialEq, Eq)]
pub struct AndLine {
    pub left: u64,
    pub right: u64,
}

/// Lines over so many variables in front of them.
///
/// Variable 0 is the constant 0; then come those in front, inputs and latches, and then a variable for each line. Literal 2v is
/// variable v, and literal 2v + 1 its complement.
#[derive(Drop)]
pub struct AndGraph {
    pub front: u64,
    pub lines: Seq<AndLine>,
}

/// The literal of a bit that never changes.
pub fn bit_literal(bit: bool) -> u64
    ensures { (g : Graph) → Means g result (λ _. bit) }
{
    if bit { 1 } else { 0 }
}

/// The complement of a literal.
pub fn complement(a: u64) -> u64
    ensures { (g : Graph) (f : List Bool → Bool) → Means g a f → Means g result (λ x. not (f x)) }
{
    a ^ 1
}

impl AndGraph {
    /// The graph without lines.
    pub fn new(alloc: Global, front: u64) -> AndGraph
        ensures front { result.front ≡ front }
        ensures lines { result.lines ≡ [] }
    {
        AndGraph {
            front,
            lines: Seq::new(alloc),
        }
    }

    /// The literal of a variable in front, of which the first has place 0.
    pub fn variable(&self, place: u64) -> Result<u64, AllocError>
        requires { place < self.now.front }
        ensures { IfOk result (λ l. Means self.now l (λ x. slice_index_or x place false)) }
    {
        literal_of(place)
    }

    /// The conjunction of two literals. A line is added where it is neither of them and no constant.
    pub fn both(&mut self, a: u64, b: u64) -> Result<u64, AllocError>
        ensures keeps { Keeps self.old self.new }
        ensures means { IfOk result (λ l. (f g : List Bool → Bool) → Means self.old a f → Means self.old b g → Means self.new l (λ x. f x && g x)) }
    {
        if a == 0 || b == 1 || a == b {
            return Ok(a);
        }
        if b == 0 || a == 1 {
            return Ok(b);
        }
        if a == complement(b) {
            return Ok(0);
        }
        self.add(a, b)
    }

    /// Adds the line of two literals. Where one of them is no literal of the graph yet, it means nothing, and 0 stands for the line:
    /// so a line is made of literals below its own, whatever is asked for.
    fn add(&mut self, a: u64, b: u64) -> Result<u64, AllocError>
        ensures keeps { Keeps self.old self.new }
        ensures means { IfOk result (λ l. (f g : List Bool → Bool) → Means self.old a f → Means self.old b g → Means self.new l (λ x. f x && g x)) }
    {
        let Some(place) = self.front.checked_add(self.lines.len() as u64) else {
            return Err(AllocError);
        };
        let literal = literal_of(place)?;
        if a >= literal || b >= literal {
            return Ok(0);
        }
        self.lines.push(AndLine { left: a, right: b })?;
        Ok(literal)
    }

    /// The disjunction of two literals.
    pub fn either(&mut self, a: u64, b: u64) -> Result<u64, AllocError>
        ensures keeps { Keeps self.old self.new }
        ensures means { IfOk result (λ l. (f g : List Bool → Bool) → Means self.old a f → Means self.old b g → Means self.new l (λ x. f x || g x)) }
    {
        let neither = self.both(complement(a), complement(b))?;
        Ok(complement(neither))
    }

    /// Whether two literals differ.
    pub fn differs(&mut self, a: u64, b: u64) -> Result<u64, AllocError>
        ensures keeps { Keeps self.old self.new }
        ensures means { IfOk result (λ l. (f g : List Bool → Bool) → Means self.old a f → Means self.old b g → Means self.new l (λ x. xor (f x) (g x))) }
    {
        let first = self.both(a, complement(b))?;
        let second = self.both(complement(a), b)?;
        self.either(first, second)
    }
}

/// The literal of the variable after so many others, the constant left out.
fn literal_of(place: u64) -> Result<u64, AllocError>
    ensures { IfOk result (λ l. l ≡ 2 * (place + 1)) }
{
    let Some(variable) = place.checked_add(1) else {
        return Err(AllocError);
    };
    variable.checked_mul(2).ok_or(AllocError)
}
