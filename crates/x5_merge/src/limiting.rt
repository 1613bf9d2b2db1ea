//! The size limit of a list or search (X.511, section 7.5: common arguments).

ghost use Rattle.std.specs.Prelude.{◌≡◌, ◌||◌, ℕ, List, take, nat_lt, length, Some};
ghost use Rattle.x5_model_serve.specs.Answering as model;
ghost use Rattle.x5_ops.specs.AnswerViews.{answer_view};

use std::mem::replace;
use x5_ops::{Answer, Listed, Outcome};

/// The first `count` members.
fn front_of<T: Drop>(members: Listed<T>, count: usize) -> Listed<T>
    ensures { result ≡ take count members }
{
    let mut kept = members.into_vec();
    kept.truncate(count);
    Listed::from_vec(kept)
}

/// The outcome, marked where the limit cut something.
fn marked(outcome: Outcome, cut: bool) -> Outcome
    ensures { result ≡ record outcome { limited = outcome.limited || cut } }
{
    Outcome {
        limited: outcome.limited || cut,
        unexplored: outcome.unexplored,
    }
}

/// The answer with so many of its entries or names at most.
fn limited(answer: Answer, count: usize) -> Answer
    ensures { (names : List (List ℕ)) → answer_view names result ≡ model.limited_answer (Some count) (answer_view names answer) }
{
    match answer {
        Answer::Listed {
            subs,
            sources,
            outcome,
        } => {
            let cut = subs.len() > count;
            Answer::Listed {
                subs: front_of(subs, count),
                sources,
                outcome: marked(outcome, cut),
            }
        }
        Answer::Found {
            entries,
            sources,
            outcome,
        } => {
            let cut = entries.len() > count;
            Answer::Found {
                entries: front_of(entries, count),
                sources,
                outcome: marked(outcome, cut),
            }
        }
        other => other,
    }
}

/// Keeps the first `count` entries of a search or names of a list, and marks the answer where there were more; any other answer
/// stays as it is. No memory.
pub fn limit(answer: &mut Answer, count: u32)
    ensures { (names : List (List ℕ)) → answer_view names answer.new ≡ model.limited_answer (Some count) (answer_view names answer.old) }
{
    let whole = replace(answer, Answer::Changed);
    drop(replace(answer, limited(whole, count as usize)));
}
