//! Expressions that are not too high.
ghost use Rattle.std.specs.Prelude.{◌≡◌, ◌≤◌, Some};
ghost use Rattle.texts.specs.Reads.{Gives};
ghost use Rattle.texts.specs.Rules.{most_nested};
ghost use Rattle.lib_func.specs.Fails.{FailsWhole};
ghost use Rattle.lib_func.specs.Trees.{height, negated};
ghost use Rattle.lib_func.specs.Shapes.{tree_of};
ghost use Rattle.lib_func.specs.Operators.{join};

use crate::exprs::{Expr, Term};
use crate::operators::Level;
use crate::stops::Stop;
use std::alloc::Global;
use texts::MOST_NESTED;

/// An expression and its height, which is at most 256.
#[derive(Drop)]
pub struct Low {
    pub expr: Expr,
    levels: usize,
    ghost measured: { levels ≡ height expr },
    ghost low: { levels ≤ most_nested },
}

impl Low {
    /// A constant or a name.
    #[tactic(auto, unfolding(texts::specs::Rules::most_nested))]
    pub fn leaf(root: Term) -> Low
        requires { height (tree_of root) ≡ 1 }
        ensures { result.expr ≡ tree_of root }
    {
        Low {
            expr: Expr { root },
            levels: 1,
        }
    }

    /// The expression inverted so many times.
    #[tactic(auto, unfolding(texts::specs::Rules::most_nested))]
    pub fn inverted(self, alloc: Global, count: usize) -> Result<Low, Stop>
        ensures { Gives FailsWhole (λ low. low.expr) result (Some (negated count self.expr)) }
    {
        if MOST_NESTED - self.levels < count {
            return Err(Stop::Deep);
        }
        let levels = self.levels + count;
        let expr = self.expr.inverted(alloc, count)?;
        Ok(Low { expr, levels })
    }

    /// Two operands with the level's operator.
    #[tactic(auto, unfolding(texts::specs::Rules::most_nested))]
    pub fn joined(alloc: Global, level: Level, x: Low, y: Low) -> Result<Low, Stop>
        ensures { Gives FailsWhole (λ low. low.expr) result (Some (join level x.expr y.expr)) }
    {
        let levels = x.levels.max(y.levels) + 1;
        if MOST_NESTED < levels {
            return Err(Stop::Deep);
        }
        let expr = Expr::joined(alloc, level, x.expr, y.expr)?;
        Ok(Low { expr, levels })
    }
}
