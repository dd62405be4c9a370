//! Boolean expressions over names.
ghost use Rattle.std.specs.Prelude.{◌≡◌, IfOk};
ghost use Rattle.lib_func.specs.Trees.{negated};
ghost use Rattle.lib_func.specs.Operators.{join};

use crate::operators::Level;
use sdcv_base::Name;
use std::alloc::{AllocError, Global};
use std::marker::Model;

/// A Boolean expression over names, as a tree.
///
/// Contracts see the tree itself, and not the boxes that hold its parts. A drop of it recurses as deep as the tree is
/// high, and a chain of n operators is a tree of height n: those that are read are at most 256 high.
#[cycle(expr)]
#[derive(Drop)]
pub struct Expr {
    pub root: Term,
}

/// The operator at the root of an expression, with its operands.
#[cycle(expr)]
#[derive(Drop)]
pub enum Term {
    Zero,
    One,
    Name(Name),
    Not(Box<Expr>),
    And(Box<Expr>, Box<Expr>),
    Or(Box<Expr>, Box<Expr>),
    Xor(Box<Expr>, Box<Expr>),
}

impl Model for Expr {
    ghost use Rattle.lib_func.specs.Trees.{Tree, node_count};
    ghost use Rattle.lib_func.specs.Code.{coded_tree};
    ghost use Rattle.std.proofs.Common.{arith};

    ghost Value = { Tree };

    ghost coded = { coded_tree };

    ghost use Rattle.lib_func.specs.Shapes.{tree_of};

    ghost view = { λ e. tree_of e.root };

    ghost size = { node_count };

    ghost size_decreases = { λ a h. Prim.grind arith };
}

impl Expr {
    /// The expression inverted so many times.
    pub(crate) fn inverted(self, alloc: Global, count: usize) -> Result<Expr, AllocError>
        ensures { IfOk result (λ e. e ≡ negated count self) }
    {
        let mut found = self;
        for _ in 0..count {
            let operand = Box::new(alloc, found)?;
            found = Expr {
                root: Term::Not(operand),
            };
        }
        Ok(found)
    }

    /// Two operands with the level's operator.
    pub(crate) fn joined(alloc: Global, level: Level, x: Expr, y: Expr) -> Result<Expr, AllocError>
        ensures { IfOk result (λ e. e ≡ join level x y) }
    {
        let x = Box::new(alloc, x)?;
        let y = Box::new(alloc, y)?;
        let root = match level {
            Level::Or => Term::Or(x, y),
            Level::And => Term::And(x, y),
            Level::Xor => Term::Xor(x, y),
        };
        Ok(Expr { root })
    }
}
