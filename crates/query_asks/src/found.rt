//! A model of a query's formula, and the run that it stands for.
ghost use Rattle.std.specs.Prelude.{◌≡◌, IfOk};
ghost use Rattle.net_model.specs.Netlist.{IsSound};
ghost use Rattle.net_model.specs.Queries.{Query, IsAnswer};
ghost use Rattle.query_asks.specs.Asks.{HasAnswerOf, IsFoundIn, IsFoundFor};

use crate::prepared_designs::Prepared;
use cnf_encode::{Problem, read_back, read_stimulus};
use net_model::{Cycle, Stimulus};
use proof_log::Model;
use sdcv_base::Seq;
use std::alloc::{AllocError, Global};

/// A model of a query's formula. The run or stretch that it stands for is read back where its cycles are wanted alone, as
/// that takes the time of a simulation of the design; its stimulus takes none.
#[derive(Drop)]
pub struct Found {
    pub problem: Problem,
    pub model: Model,
}

impl Found {
    /// The run or stretch that the model stands for. It answers the query.
    pub fn run(&self, alloc: Global, design: &Prepared) -> Result<Seq<Cycle>, AllocError>
        requires sound { IsSound design.now }
        requires found { IsFoundIn design.now self.now }
        ensures { IfOk result (λ run. (q : Query) → q.design ≡ design.now → IsFoundFor q self.now → IsAnswer q run) }
    {
        read_back(alloc, design.bare(), &self.problem, &self.model)
    }

    /// The stimulus of a run or stretch that the model stands for: the register bits of the first cycle, and the input bits of
    /// each.
    pub fn stimulus(&self, alloc: Global, design: &Prepared) -> Result<Stimulus, AllocError>
        requires sound { IsSound design.now }
        requires found { IsFoundIn design.now self.now }
        ensures { IfOk result (λ s. (q : Query) → q.design ≡ design.now → IsFoundFor q self.now → HasAnswerOf q s) }
    {
        let stimulus = read_stimulus(alloc, design.bare(), &self.problem, &self.model)?;
        Ok(stimulus)
    }
}
