//! What a user makes of the reading of an alias.

ghost use Rattle.std.specs.Prelude.{◌≡◌, ℕ, List, IfOk};
ghost use Rattle.x5_alias.specs.Turns.{turn_view};
ghost use Rattle.x5_model_follow.specs.Alias as model;
ghost use Rattle.x5_model.specs.Answers.{Answered};
ghost use Rattle.x5_ops.specs.AnswerViews.{answer_view, error_view, reply_view};
ghost use Rattle.x5_ops.specs.RequestViews.{request_view};

use crate::putting::dereferenced;
use std::alloc::Global;
use x5_memory::NoMemory;
use x5_names::Name;
use x5_ops::attribute_problem::NO_SUCH_ATTRIBUTE_OR_VALUE;
use x5_ops::{Answer, DirError, Reply, Request};

/// What follows the reading of an alias: this request is asked; the answer that was had before is the last; or the reply to the
/// read itself is.
#[derive(Drop)]
pub enum Turn {
    Again(Request),
    First,
    Own,
}

/// Whether the error says that the entry is no alias: it has no aliasedEntryName. No memory.
fn is_no_alias(error: &DirError) -> bool
    ensures { (names : List (List ℕ)) → result ≡ model.is_no_alias (error_view names error.now) }
{
    match error {
        DirError::Attribute { problem, .. } => *problem == NO_SUCH_ATTRIBUTE_OR_VALUE,
        _ => false,
    }
}

/// What an answer to the read makes of the request.
#[tactic(auto, using(crate::proofs::NextTurns::turn_of, crate::proofs::NextTurns::turn_by))]
fn turn_by(
    alloc: Global,
    alias: &Name,
    request: &Request,
    answer: &Answer,
) -> Result<Turn, NoMemory>
    ensures { IfOk result (λ next. (names : List (List ℕ)) → turn_view (Answered (answer_view names answer.now)) next ≡ model.turn alias.now (request_view request.now) (Answered (answer_view names answer.now))) }
{
    match dereferenced(alloc, alias, answer, request)? {
        Some(asked) => Ok(Turn::Again(asked)),
        None => Ok(Turn::First),
    }
}

/// What the reply to the read of an alias makes of the request: it's asked again with the alias dereferenced; the answer before is
/// the last where the entry is no alias, or the new name has more than 16 RDNs; and any other error of the read, or a referral, is
/// the last itself.
pub fn next_turn(
    alloc: Global,
    alias: &Name,
    request: &Request,
    read: &Reply,
) -> Result<Turn, NoMemory>
    ensures { IfOk result (λ next. (names : List (List ℕ)) → turn_view (reply_view names read.now) next ≡ model.turn alias.now (request_view request.now) (reply_view names read.now)) }
{
    match read {
        Reply::Done(answer) => turn_by(alloc, alias, request, answer),
        Reply::Failed(error) => {
            if is_no_alias(error) {
                Ok(Turn::First)
            } else {
                Ok(Turn::Own)
            }
        }
        Reply::Refer(_) => Ok(Turn::Own),
    }
}
