//! Runs and stretches that answer a query, read back from models of its clauses.
ghost use Rattle.std.specs.Prelude.{◌≡◌, length, List, IfOk, ◌⊎◌};
ghost use Rattle.net_model.specs.Cycles.{IsLinked};
ghost use Rattle.net_model.specs.Netlist.{IsSound};
ghost use Rattle.net_model.specs.Stimuli.{StandsFor};
ghost use Rattle.net_model.specs.declared.cycles.Cycle.{Cycle as CycleRecord};
ghost use Rattle.net_sim.specs.Runs.{IsLinkable};
ghost use Rattle.proof_log.specs.Formulas.{IsModel, value_in};
ghost use Rattle.net_model.specs.Queries.{Query, IsAnswer};
ghost use Rattle.query_model.specs.declared.keys.Coding.{Coding};
ghost use Rattle.query_model.specs.Variables.{by_number};
ghost use Rattle.query_model.specs.Laws.{AgreesWith};
ghost use Rattle.cnf_encode.specs.Problems.{IsClaimQuery, IsClauseQuery, IsProblemFor, IsMadeFor, HasRailsFor};
ghost use Rattle.cnf_encode.specs.FreeBits.{IsStimulusOf};
ghost use Rattle.cnf_encode.specs.Runs.{HasZeros};

use crate::free_bits::{put_first_bits, put_inputs};
use crate::problems::Problem;
use net_model::{Cycle, Design, Stimulus};
use net_sim::linked_run;
use proof_log::Model;
use sdcv_base::Seq;
use std::alloc::{AllocError, Global};

/// The bits that a model gives, and those of inputs that are fixed or reset, cycle by cycle.
fn stimulus_of(
    alloc: Global,
    design: &Design,
    problem: &Problem,
    model: &Model,
) -> Result<Stimulus, AllocError>
    requires sound { IsSound design.now }
    requires count { length model.now.values ≡ length problem.now.frames }
    ensures { IfOk result (IsStimulusOf design.now problem.now.frames model.now.values problem.now.live problem.now.cycles) }
{
    let mut state = Seq::filled(alloc, false, design.regs.len())?;
    put_first_bits(design, &problem.frames, model, &mut state);
    let mut inputs = Seq::new(alloc);
    for t in 0..problem.cycles {
        let mut ins = Seq::filled(alloc, false, design.inputs.len())?;
        put_inputs(design, problem, model, t, &mut ins);
        inputs.push(ins)?;
    }
    Ok(Stimulus { state, inputs })
}

/// The stimulus of the answer that a model of a query's clauses stands for: its first register bits and its input bits. Its
/// cycles are those of linked cycles that the stimulus stands for; none is simulated here, so it takes no time of the gates.
pub fn read_stimulus(
    alloc: Global,
    design: &Design,
    problem: &Problem,
    model: &Model,
) -> Result<Stimulus, AllocError>
    requires sound { IsSound design.now }
    requires made { IsMadeFor design.now problem.now }
    requires model { IsModel problem.now.formula model.now }
    ensures linkable { IfOk result (IsLinkable design.now) }
    ensures answers { IfOk result (λ s. (run : List CycleRecord) → IsLinked design.now run → StandsFor s run → (coding : Coding) (q : Query)
        → IsClaimQuery design.now q ⊎ IsClauseQuery design.now q → IsProblemFor coding q problem.now → IsAnswer q run) }
{
    let stimulus = stimulus_of(alloc, design, problem, model)?;
    Ok(stimulus)
}

/// The cycles of the answer that a model of a query's clauses stands for.
///
/// What is free and has no key is 0, so a model stands for one answer alone. Where hazards count, the rails of a cycle's
/// layers are in the model as the start's being unknown has them (Eichelberger).
pub fn read_back(
    alloc: Global,
    design: &Design,
    problem: &Problem,
    model: &Model,
) -> Result<Seq<Cycle>, AllocError>
    requires sound { IsSound design.now }
    requires made { IsMadeFor design.now problem.now }
    requires model { IsModel problem.now.formula model.now }
    ensures answers { IfOk result (λ run. (coding : Coding) (q : Query) → IsClaimQuery design.now q ⊎ IsClauseQuery design.now q
        → IsProblemFor coding q problem.now → IsAnswer q run) }
    ensures agrees { IfOk result (AgreesWith design.now problem.now.frames (by_number problem.now.frames (value_in model.now.values))) }
    ensures rails { IfOk result (HasRailsFor design.now problem.now model.now) }
    ensures zeros { IfOk result (HasZeros design.now problem.now.frames) }
{
    let stimulus = stimulus_of(alloc, design, problem, model)?;
    let cycles = linked_run(alloc, design, &stimulus)?;
    Ok(cycles)
}
