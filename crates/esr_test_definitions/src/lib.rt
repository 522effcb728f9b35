//! The definitions of the theorems, evaluated on random inputs and compared with a reference program.
//!
//! Every theorem rests on definitions, and no theorem says whether they mean what they should. `checks/definitions` generates
//! small histories, with aborts, weights, strict queries, blocked events and refusals, together with the results of
//! `checks/reference.py`, which shares nothing with the definitions: each reply, each import and export, and the least cost
//! and least set of each committed query. The contract below states that the definitions yield the same results. Its proof is
//! a computation, so it refuses a definition with an error.
#![tactic(auto)]

ghost use Rattle.esr_test_definitions.specs.All.{AllDefinitionsMatchReference};
ghost use Rattle.esr_test_definitions.specs.LongHistories.{LongHistoriesRefuse};

/// States that the definitions yield the same outcome as the reference program for each generated input.
pub fn definitions_agree()
    ensures { AllDefinitionsMatchReference }
{}

/// States that the machine refuses a read and a begin that exceed the limits of a history.
pub fn long_histories_refuse()
    ensures { LongHistoriesRefuse }
{}
