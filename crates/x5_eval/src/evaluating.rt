//! An agent's part of a list or search, and the references for the rest (X.518, section 19).

ghost use Rattle.std.specs.Prelude.{◌≡◌, ◌<◌, ◌∷◌, [], length, map, true, IfOk};
ghost use Rattle.x5_model.specs.Answers.{Answered};
ghost use Rattle.x5_model.specs.Words.{distinct, same_octets};
ghost use Rattle.x5_model_run.specs.Placed.{is_query_below};
ghost use Rattle.x5_model_serve.specs.Answering.{local_part, rest_of_parts};
ghost use Rattle.x5_merge.specs.Merging.{are_alike};
ghost use Rattle.x5_ops.specs.AnswerViews.{answer_view};
ghost use Rattle.x5_ops.specs.ReferenceViews.{chained_view, reference_view};
ghost use Rattle.x5_ops.specs.RequestViews.{body_view};
ghost use Rattle.x5_holdings.specs.State.{holdings_view};
ghost use Rattle.x5_eval.specs.Rest.{AreKnown};

use crate::beginning::begins;
use crate::local::part_from;
use crate::subsets::subset_of;
use std::alloc::Global;
use x5_holdings::Holdings;
use x5_know::AgentNames;
use x5_memory::NoMemory;
use x5_ops::{Answer, Chained, ReferenceList};

/// The agent's own part of a list or search, without a limit, and the references for the rest, in the order in which they are asked.
/// They name agents of the world that `names` has.
pub fn evaluate(
    alloc: Global,
    names: &AgentNames,
    state: &Holdings,
    message: &Chained,
) -> Result<(Answer, ReferenceList), NoMemory>
    requires there { state.now.me < length names.now }
    requires apart { distinct same_octets names.now ≡ true }
    requires query { is_query_below (body_view message.now.request.body) ≡ true }
    requires known { AreKnown (length names.now) (rest_of_parts (holdings_view state.now) (chained_view names.now message.now)) }
    ensures part { IfOk result (λ both. local_part (holdings_view state.now) (chained_view names.now message.now) ≡ Answered (answer_view names.now both.0)) }
    ensures rest { IfOk result (λ both. rest_of_parts (holdings_view state.now) (chained_view names.now message.now) ≡ map (reference_view names.now) both.1) }
    ensures kind { IfOk result (λ both. are_alike (both.0 ∷ []) ≡ true) }
{
    let Some(subset) = subset_of(message) else {
        unreachable!()
    };
    let begins = begins(alloc, state, message, subset)?;
    part_from(alloc, names, state, message, subset, &begins)
}
