//! A message that arrives at an agent (X.518, sections 17 to 19).

ghost use Rattle.std.specs.Prelude.{◌≡◌, ℕ, ◌<◌, List, length, IfOk};
ghost use Rattle.x5_model_run.specs.Journal.{Journal};
ghost use Rattle.x5_model_run.specs.Chain.{Scene};
ghost use Rattle.x5_model_heard.specs.Kept.{IsOfUser};
ghost use Rattle.x5_model_serve.specs.Finding as finding;
ghost use Rattle.x5_model_serve.specs.Serving.{Hand, hand, Arrives, is_idle, found_at};
ghost use Rattle.x5_ops.specs.ReferenceViews.{chained_view, reference_view};
ghost use Rattle.x5_serve.specs.Networks.{IsOwnPart};
ghost use Rattle.x5_serve.specs.Steps.{IsEarly, IsStep};

use crate::network::{Found, Network};
use crate::parts::with_rest;
use crate::passing::fits;
use crate::replies::{limit_exceeded, own_item, stuck, unfit};
use std::alloc::Global;
use x5_memory::NoMemory;
use x5_ops::service_problem::LOOP_DETECTED;
use x5_ops::{AgentId, Answer, Chained, DirError, Reference, ReferenceList, Reply, fault_of};
use x5_trace::{MOST_ITEMS, repeats};

/// What comes of a message that arrives: the reply to it at once; the reference by which it's passed on; the references for the
/// parts of a list or search, and the answer that they are joined to; or an update.
#[derive(Drop)]
pub enum Step {
    Replies(Reply),
    Goes(Reference),
    Joins(Answer, ReferenceList),
    Updates,
}

/// The reply to a message that isn't looked at: it has come round, passed too many agents, was done before, is refused by the
/// request alone, or doesn't fit it.
fn early<N: Network>(
    alloc: Global,
    net: &N,
    me: AgentId,
    message: &Chained,
) -> Result<Option<Reply>, NoMemory>
    requires { me < length (N.names net.now) }
    ensures { IfOk result (λ reply. IsEarly (N.scene net.now) (N.most net.now) (N.names net.now) (N.journal net.now) (hand me (chained_view (N.names net.now) message.now)) reply) }
{
    let item = own_item(net.names(), me, message)?;
    if repeats(&message.trace, &item) {
        return Ok(Some(Reply::Failed(DirError::Service {
            problem: LOOP_DETECTED,
            reference: None,
            item: Some(item),
        })));
    }
    drop(item);
    if message.trace.len() >= MOST_ITEMS {
        return Ok(Some(limit_exceeded()));
    }
    if net.is_done(me, message) {
        return Ok(Some(Reply::Done(Answer::Changed)));
    }
    if let Some(fault) = fault_of(alloc, &message.request)? {
        return Ok(Some(Reply::Failed(fault)));
    }
    if !fits(alloc, message)? {
        return Ok(Some(unfit(alloc, net.names(), me, message)?));
    }
    Ok(None)
}

/// Whether the agent may not chain: the request says so, or the agent refuses (X.511, section 7.5). No memory.
#[tactic(auto, using(crate::proofs::Arriving::idle_is))]
fn may_not_chain<N: Network>(net: &N, me: AgentId, message: &Chained) -> bool
    requires { me < length (N.names net.now) }
    ensures { result ≡ is_idle (N.scene net.now) (hand me (chained_view (N.names net.now) message.now)) }
{
    message.request.controls.nochain || !net.willing(me)
}

/// What an agent does first with a message that it received: it looks at it, resolves its name and answers what it can.
pub fn first_step<N: Network>(
    alloc: Global,
    net: &N,
    me: AgentId,
    message: &Chained,
) -> Result<Step, NoMemory>
    requires there { me < length (N.names net.now) }
    requires of_user { IsOfUser (N.scene net.now) (chained_view (N.names net.now) message.now) }
    ensures { IfOk result (λ step. IsStep (N.scene net.now) (N.most net.now) (N.names net.now) (N.journal net.now) (hand me (chained_view (N.names net.now) message.now)) step) }
{
    if let Some(reply) = early(alloc, net, me, message)? {
        return Ok(Step::Replies(reply));
    }
    let idle = may_not_chain(net, me, message);
    match net.find(alloc, me, message)? {
        Found::Told(reply) => Ok(Step::Replies(reply)),
        Found::Part(answer, references) => parted(message, idle, answer, references),
        Found::Due => Ok(Step::Updates),
        Found::Onward(reference) => Ok(onward(idle, reference)),
        Found::Nowhere(matched) => Ok(Step::Replies(Reply::Failed(DirError::Name { matched }))),
        Found::Stuck => Ok(Step::Replies(stuck(alloc, net.names(), me, message)?)),
    }
}

/// The agent's own part of a list or search: one that may not chain replies with it.
fn parted(
    message: &Chained,
    idle: bool,
    answer: Answer,
    references: ReferenceList,
) -> Result<Step, NoMemory>
    ensures { IfOk result (λ step. (s : Scene) (most : ℕ) (names : List (List ℕ)) (j : Journal) (me : ℕ) → is_idle s (hand me (chained_view names message.now)) ≡ idle → Arrives s (hand me (chained_view names message.now)) j → IsOwnPart s names j (hand me (chained_view names message.now)) answer references → IsStep s most names j (hand me (chained_view names message.now)) step) }
{
    if idle {
        return Ok(Step::Replies(with_rest(message, answer, references)?));
    }
    Ok(Step::Joins(answer, references))
}

/// The name goes on elsewhere: an agent that may not chain refers to it. No memory.
fn onward(idle: bool, reference: Reference) -> Step
    ensures { (s : Scene) (most : ℕ) (names : List (List ℕ)) (j : Journal) (k : Hand) → is_idle s k ≡ idle → Arrives s k j → found_at s j k ≡ finding.Onward (reference_view names reference) → IsStep s most names j k result }
{
    if idle {
        Step::Replies(Reply::Refer(reference))
    } else {
        Step::Goes(reference)
    }
}
