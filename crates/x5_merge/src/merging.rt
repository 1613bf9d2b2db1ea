//! The parts of a list or search, joined.

ghost use Rattle.std.specs.Prelude.{◌≡◌, ◌<◌, ◌||◌, ◌∷◌, [], ◌++◌, ℕ, List, IfOk, IsTrue, length};
ghost use Rattle.x5_model_serve.specs.Answering as model;
ghost use Rattle.x5_ops.specs.AnswerViews.{answer_view};
ghost use Rattle.x5_merge.specs.Merging.{are_alike, is_list, is_find, IsMergeOf};

use crate::join::joined;
use std::alloc::Global;
use x5_memory::NoMemory;
use x5_ops::{Answer, Listed, Outcome};

/// The answers of the parts of a list or search, in their order.
pub type PartList = Listed<Answer>;

/// The members of both lists, one list behind the other.
fn appended<T: Drop>(first: Listed<T>, second: Listed<T>) -> Result<Listed<T>, NoMemory>
    ensures { IfOk result (λ all. all ≡ first ++ second) }
{
    let mut all = first.into_vec();
    let mut others = second.into_vec();
    all.append(&mut others)?;
    Ok(Listed::from_vec(all))
}

/// Both outcomes: a mark of either stays.
fn both_outcomes(first: Outcome, second: Outcome) -> Result<Outcome, NoMemory>
    ensures { IfOk result (λ o. o ≡ record { limited = first.limited || second.limited; unexplored = first.unexplored ++ second.unexplored }) }
{
    Ok(Outcome {
        limited: first.limited || second.limited,
        unexplored: appended(first.unexplored, second.unexplored)?,
    })
}

/// Two answers of one kind, joined.
fn both(earlier: Answer, later: Answer) -> Result<Answer, NoMemory>
    requires { IsTrue (are_alike (earlier ∷ later ∷ [])) }
    ensures merged { IfOk result (λ a. (names : List (List ℕ)) → answer_view names a ≡ model.merged (answer_view names earlier) (answer_view names later)) }
    ensures kind { IfOk result (λ a. (is_list a ≡ is_list earlier) × (is_find a ≡ is_find earlier)) }
{
    match (earlier, later) {
        (
            Answer::Listed {
                subs,
                sources,
                outcome,
            },
            Answer::Listed {
                subs: more,
                sources: others,
                outcome: other,
            },
        ) => Ok(Answer::Listed {
            subs: Listed::from_vec(joined(subs.into_vec(), more.into_vec())?),
            sources: appended(sources, others)?,
            outcome: both_outcomes(outcome, other)?,
        }),
        (
            Answer::Found {
                entries,
                sources,
                outcome,
            },
            Answer::Found {
                entries: more,
                sources: others,
                outcome: other,
            },
        ) => Ok(Answer::Found {
            entries: Listed::from_vec(joined(entries.into_vec(), more.into_vec())?),
            sources: appended(sources, others)?,
            outcome: both_outcomes(outcome, other)?,
        }),
        _ => unreachable!(),
    }
}

/// One or more answers of one kind, joined by halves.
fn by_halves(parts: Vec<Answer>) -> Result<Answer, NoMemory>
    requires filled { 0 < length parts.items }
    requires alike { IsTrue (are_alike parts.items) }
    ensures { IfOk result (λ a. IsMergeOf parts.items a) }
{
    let mut earlier = parts;
    let middle = earlier.len() / 2;
    if middle == 0 {
        let Some(only) = earlier.pop() else {
            unreachable!()
        };
        return Ok(only);
    }
    let later = earlier.split_off(middle)?;
    let front = by_halves(earlier)?;
    match by_halves(later) {
        Ok(back) => both(front, back),
        Err(fault) => {
            drop(front);
            Err(fault)
        }
    }
}

/// The answers of the parts of a list or search, of one agent each, joined: entries and names by their keys, of two with one key
/// the earlier part's; sources and what nobody looked into, part by part; marked as cut where a part is (X.518, section 21).
pub fn merge(_alloc: Global, parts: PartList) -> Result<Answer, NoMemory>
    requires filled { 0 < length parts }
    requires alike { IsTrue (are_alike parts) }
    ensures { IfOk result (λ a. IsMergeOf parts a) }
{
    by_halves(parts.into_vec())
}
