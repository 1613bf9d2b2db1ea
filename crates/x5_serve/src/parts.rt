//! The parts of a list or search, and what replies leave unexplored (X.518, sections 19.3 to 21).

ghost use Rattle.std.specs.Prelude.{◌≡◌, ℕ, ◌<◌, true, false, not, List, [], ◌∷◌, ◌++◌, length, map, IfOk, OnOk, Some};
ghost use Rattle.std.specs.List.{filter};
ghost use Rattle.x5_model.specs.Answers as model;
ghost use Rattle.x5_model_heard.specs.Told.{HasReference};
ghost use Rattle.x5_model_serve.specs.Answering as answering;
ghost use Rattle.x5_model_serve.specs.Serving.{hand, is_final, gathered_reply, at_limit};
ghost use Rattle.x5_ops.specs.ReferenceViews.{chained_view, reference_view};
ghost use Rattle.x5_ops.specs.AnswerViews.{answer_view, reply_view};
ghost use Rattle.x5_merge.specs.Merging.{are_alike, is_list, is_find};
ghost use Rattle.x5_serve.specs.Steps.{whole_view, gathered_view, IsPart, IsOfKind};
ghost use Rattle.x5_ops.specs.declared.answers.Reply.TheVariants.{Failed};
ghost use Rattle.x5_ops.specs.declared.answers.DirError.TheVariants.{Service};

use std::alloc::Global;
use x5_memory::NoMemory;
use x5_merge::{limit, merge};
use x5_ops::service_problem::UNAVAILABLE;
use x5_ops::{
    Answer, Chained, DirError, Listed, Outcome, Reference, ReferenceList, Reply, TraceItem,
};

/// The answers of all parts, as one, or the error that ends them.
#[derive(Drop)]
pub enum Gathered {
    Whole(Answer),
    Broken(DirError),
}

/// What the reply to a part is to the whole.
#[derive(Drop)]
pub enum Part {
    Joins(Answer),
    Leaves(Reference),
    Breaks(DirError),
}

/// What the reply to a part is to the whole; a referral, which whoever hears one has followed, would stay unexplored. No memory.
pub fn part_of(reply: Reply) -> Part
    ensures { (names : List (List ℕ)) → is_final (reply_view names reply) ≡ true → HasReference (reply_view names reply) → IsPart names reply result }
{
    match reply {
        Reply::Done(answer) => Part::Joins(answer),
        Reply::Refer(reference) => Part::Leaves(reference),
        Reply::Failed(error) => part_of_error(error),
    }
}

/// What the error is to the whole. No memory.
fn part_of_error(error: DirError) -> Part
    ensures { (names : List (List ℕ)) → HasReference (reply_view names (Failed error)) → IsPart names (Failed error) result }
{
    match error {
        DirError::Service {
            problem,
            reference,
            item,
        } => part_of_problem(problem, reference, item),
        other => Part::Breaks(other),
    }
}

/// What an error of the service is to the whole. No memory.
fn part_of_problem(problem: u8, reference: Option<Reference>, item: Option<TraceItem>) -> Part
    ensures { (names : List (List ℕ)) → HasReference (reply_view names (Failed (Service problem reference item))) → IsPart names (Failed (Service problem reference item)) result }
{
    if problem != UNAVAILABLE {
        return Part::Breaks(DirError::Service {
            problem,
            reference,
            item,
        });
    }
    match reference {
        Some(left) => Part::Leaves(left),
        None => Part::Breaks(DirError::Service {
            problem,
            reference: None,
            item,
        }),
    }
}

/// Adds references to those that stay unexplored.
fn with_references(answer: Answer, references: ReferenceList) -> Result<Answer, NoMemory>
    ensures view { IfOk result (λ wider. (names : List (List ℕ)) → answer_view names wider ≡ answering.with_unexplored (map (reference_view names) references) (answer_view names answer)) }
    ensures kind { IfOk result (λ wider. (is_list wider ≡ is_list answer) × (is_find wider ≡ is_find answer)) }
{
    match answer {
        Answer::Listed {
            subs,
            sources,
            outcome,
        } => Ok(Answer::Listed {
            subs,
            sources,
            outcome: extended(outcome, references)?,
        }),
        Answer::Found {
            entries,
            sources,
            outcome,
        } => Ok(Answer::Found {
            entries,
            sources,
            outcome: extended(outcome, references)?,
        }),
        other => Ok(other),
    }
}

/// The outcome with these references behind its own.
fn extended(outcome: Outcome, references: ReferenceList) -> Result<Outcome, NoMemory>
    ensures { IfOk result (λ o. o ≡ record { limited = outcome.limited; unexplored = outcome.unexplored ++ references }) }
{
    let mut all = outcome.unexplored.into_vec();
    let mut more = references.into_vec();
    all.append(&mut more)?;
    Ok(Outcome {
        limited: outcome.limited,
        unexplored: Listed::from_vec(all),
    })
}

/// Leaves the reference unexplored in the last part, since its agents were asked in vain.
pub fn leave_out(
    alloc: Global,
    parts: &mut Vec<Answer>,
    reference: Reference,
) -> Result<(), NoMemory>
    requires filled { 0 < length parts.old.items }
    requires alike { are_alike parts.old.items ≡ true }
    ensures filled { OnOk result (0 < length parts.new.items) }
    ensures alike { OnOk result (are_alike parts.new.items ≡ true) }
    ensures view { OnOk result ((names : List (List ℕ)) → whole_view names parts.new.items ≡ answering.with_unexplored (answering.in_vain (reference_view names reference) ∷ []) (whole_view names parts.old.items)) }
{
    let mut left = Listed::new(alloc);
    left.push(Reference {
        tried: true,
        ..reference
    })?;
    let Some(last) = parts.pop() else {
        unreachable!()
    };
    parts.push(with_references(last, left)?)?;
    Ok(())
}

/// Whether it's a list's. No memory.
fn is_listed(answer: &Answer) -> bool
    ensures { result ≡ is_list answer.now }
{
    matches!(answer, Answer::Listed { .. })
}

/// Whether it's a search's. No memory.
fn is_found(answer: &Answer) -> bool
    ensures { result ≡ is_find answer.now }
{
    matches!(answer, Answer::Found { .. })
}

/// Whether the answer is of the parts' kind. No memory.
fn is_of_kind(parts: &[Answer], answer: &Answer) -> bool
    requires filled { 0 < length parts.now }
    requires alike { are_alike parts.now ≡ true }
    ensures { IsOfKind parts.now answer.now result }
{
    let first = &parts[0];
    if is_listed(first) {
        return is_listed(answer);
    }
    is_found(answer)
}

/// Adds a part; one of another kind adds nothing.
pub fn take_up(parts: &mut Vec<Answer>, answer: Answer) -> Result<(), NoMemory>
    requires filled { 0 < length parts.old.items }
    requires alike { are_alike parts.old.items ≡ true }
    ensures filled { OnOk result (0 < length parts.new.items) }
    ensures alike { OnOk result (are_alike parts.new.items ≡ true) }
    ensures view { OnOk result ((names : List (List ℕ)) → whole_view names parts.new.items ≡ answering.merged (whole_view names parts.old.items) (answer_view names answer)) }
{
    if is_of_kind(parts, &answer) {
        parts.push(answer)?;
    }
    Ok(())
}

/// The parts, joined.
pub fn whole(alloc: Global, parts: Vec<Answer>) -> Result<Answer, NoMemory>
    requires filled { 0 < length parts.items }
    requires alike { are_alike parts.items ≡ true }
    ensures { IfOk result (λ answer. (names : List (List ℕ)) → answer_view names answer ≡ whole_view names parts.items) }
{
    merge(alloc, Listed::from_vec(parts))
}

/// The reply of an agent that joined the parts: the size limit comes last. No memory.
pub fn finished(message: &Chained, gathered: Gathered) -> Reply
    ensures { (names : List (List ℕ)) → (me : ℕ) → reply_view names result ≡ gathered_reply (hand me (chained_view names message.now)) (gathered_view names gathered) }
{
    match gathered {
        Gathered::Broken(error) => Reply::Failed(error),
        Gathered::Whole(answer) => Reply::Done(cut(message.request.controls.size, answer)),
    }
}

/// The answer within the size limit. No memory.
fn cut(size: Option<u32>, answer: Answer) -> Answer
    ensures { (names : List (List ℕ)) → answer_view names result ≡ answering.limited_answer size (answer_view names answer) }
{
    let mut answer = answer;
    if let Some(count) = size {
        limit(&mut answer, count);
    }
    answer
}

/// The reply of an agent that may not chain: its own part, with the references for the rest.
pub fn with_rest(
    message: &Chained,
    answer: Answer,
    references: ReferenceList,
) -> Result<Reply, NoMemory>
    ensures { IfOk result (λ reply. (names : List (List ℕ)) → (me : ℕ) → reply_view names reply ≡ model.Answered (at_limit (hand me (chained_view names message.now)) (answering.with_unexplored (map (reference_view names) references) (answer_view names answer)))) }
{
    let wider = with_references(answer, references)?;
    Ok(Reply::Done(cut(message.request.controls.size, wider)))
}

/// The references that nobody tried.
fn untried(alloc: Global, references: &[Reference]) -> Result<ReferenceList, NoMemory>
    ensures { IfOk result (λ kept. kept ≡ filter (λ r. not r.tried) references.now) }
{
    let mut kept = Listed::new(alloc);
    for reference in references {
        if !reference.tried {
            kept.push(reference.clone()?)?;
        }
    }
    Ok(kept)
}

/// The references that somebody tried.
fn tried(alloc: Global, references: &[Reference]) -> Result<ReferenceList, NoMemory>
    ensures { IfOk result (λ kept. kept ≡ filter (λ r. r.tried) references.now) }
{
    let mut kept = Listed::new(alloc);
    for reference in references {
        if reference.tried {
            kept.push(reference.clone()?)?;
        }
    }
    Ok(kept)
}

/// What is left of an answer for its receiver to follow (X.518, section 20).
pub fn left_to_follow(alloc: Global, answer: &Answer) -> Result<ReferenceList, NoMemory>
    ensures view { IfOk result (λ left. (names : List (List ℕ)) → map (reference_view names) left ≡ answering.to_follow (answer_view names answer.now)) }
    ensures kind { IfOk result (λ left. 0 < length left → are_alike (answer.now ∷ []) ≡ true) }
{
    match answer {
        Answer::Listed { outcome, .. } => untried(alloc, outcome.unexplored.as_slice()),
        Answer::Found { outcome, .. } => untried(alloc, outcome.unexplored.as_slice()),
        Answer::Entry { .. } | Answer::Match { .. } | Answer::Changed => Ok(Listed::new(alloc)),
    }
}

/// The answer without what is left to follow.
pub fn with_tried(alloc: Global, answer: Answer) -> Result<Answer, NoMemory>
    ensures view { IfOk result (λ rest. (names : List (List ℕ)) → answer_view names rest ≡ answering.only_unexplored (answering.passed_by (answer_view names answer)) (answer_view names answer)) }
    ensures kind { IfOk result (λ rest. are_alike (answer ∷ []) ≡ true → are_alike (rest ∷ []) ≡ true) }
{
    match answer {
        Answer::Listed {
            subs,
            sources,
            outcome,
        } => Ok(Answer::Listed {
            subs,
            sources,
            outcome: with_tried_alone(alloc, outcome)?,
        }),
        Answer::Found {
            entries,
            sources,
            outcome,
        } => Ok(Answer::Found {
            entries,
            sources,
            outcome: with_tried_alone(alloc, outcome)?,
        }),
        other => Ok(other),
    }
}

/// The outcome with the references alone that somebody tried.
fn with_tried_alone(alloc: Global, outcome: Outcome) -> Result<Outcome, NoMemory>
    ensures { IfOk result (λ o. o ≡ record { limited = outcome.limited; unexplored = filter (λ r. r.tried) outcome.unexplored }) }
{
    Ok(Outcome {
        limited: outcome.limited,
        unexplored: tried(alloc, outcome.unexplored.as_slice())?,
    })
}
