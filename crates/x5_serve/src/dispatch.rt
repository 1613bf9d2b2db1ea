//! The cycle of sending and serving: a message is sent, its receiver serves it, and what its reply leaves is followed.

ghost use Rattle.std.specs.Prelude.{◌≡◌, ℕ, ◌<◌, ◌≤◌, true, false, List, [], ◌∷◌, length, map, IfOk, Some};
ghost use Rattle.x5_model.specs.References as model;
ghost use Rattle.x5_model_heard.specs.Told.{are_agents, name_agents, IsTold, IsToldHeard};
ghost use Rattle.x5_model_heard.specs.Kept.{IsOfUser};
ghost use Rattle.x5_model_serve.specs.Serving.{Hand, hand, carried_for, is_final, Serves, Follows, Sends, Takes, Casts, Gathers, Updates};
ghost use Rattle.x5_model_fitting.specs.Names.{Each};
ghost use Rattle.x5_model_limits.specs.Messages.{BoundedReference, BoundedReply};
ghost use Rattle.x5_ops.specs.AgentNames.{agent_of};
ghost use Rattle.x5_ops.specs.ReferenceViews.{chained_view, reference_view, access_view};
ghost use Rattle.x5_ops.specs.AnswerViews.{answer_view, reply_view};
ghost use Rattle.x5_merge.specs.Merging.{are_alike};
ghost use Rattle.x5_serve.specs.Networks.{left_of, Stays, IsDue, DoesAt};
ghost use Rattle.x5_serve.specs.Sendable.{MayBeSent, MayBePassedOn};
ghost use Rattle.x5_serve.specs.Steps.{heard_view, gathered_view, Goes, IsProbed};

use crate::arrival::{Step, first_step};
use crate::network::{Carried, Network, Verdict};
use crate::parts::{
    Gathered, Part, finished, leave_out, left_to_follow, part_of, take_up, whole, with_tried,
};
use crate::passing::passed_on;
use crate::replies::{
    Heard, Told, is_heard, is_unable, limit_exceeded, nobody_has, told_by, unavailable,
    unavailable_of,
};
use std::alloc::Global;
use x5_memory::NoMemory;
use x5_ops::{
    AccessList, AccessPoint, AgentId, Answer, Chained, DirError, Listed, Reference, ReferenceList,
    Reply,
};

/// What the agents that a probe went to tell: these weren't heard, and all others have no such entry; or the update ends so.
#[derive(Drop)]
pub enum Probed {
    Through(AccessList),
    Ends(DirError),
}

/// The agent that an access point names. No memory.
fn agent_at<N: Network>(net: &N, access: &AccessPoint) -> AgentId
    requires { access_view (N.names net.now) access.now < length (N.names net.now) }
    ensures { result ≡ access_view (N.names net.now) access.now }
{
    let Some(id) = net.named(&access.agent) else {
        unreachable!()
    };
    id
}

/// Sends a message from agent to agent, lets its receiver serve it, and follows what the reply leaves (X.518, section 20). It hears
/// nothing exactly where the message or the reply is lost. It needs agents of the network, a message that may be sent, and an update
/// to be the user's. After want of memory the network isn't used again.
#[cycle(dispatch)]
pub fn ask<N: Network>(
    alloc: Global,
    net: &mut N,
    from: AgentId,
    to: AgentId,
    message: &Chained,
) -> Result<Heard, NoMemory>
    requires from { from < length (N.names net.old) }
    requires to { to < length (N.names net.old) }
    requires of_user { IsOfUser (N.scene net.old) (chained_view (N.names net.old) message.now) }
    requires sent { MayBeSent (N.names net.old) message.now }
    ensures stays { Stays N.scene N.most N.names net.old net.new }
    ensures left { left_of (N.most net.new) (N.journal net.new) ≤ left_of (N.most net.old) (N.journal net.old) }
    ensures does { IfOk result (λ heard. (o : Hand) (r : model.Reference) → chained_view (N.names net.old) message.now ≡ carried_for (Some from) o r → DoesAt N.scene N.most N.journal net.old net.new (Sends (Some from) o r to (heard_view (N.names net.old) heard))) }
    ensures told { IfOk result (λ heard. IsToldHeard (length (N.names net.old)) (heard_view (N.names net.old) heard)) }
{
    match net.carry(alloc, from, to, message)? {
        Carried::Spent => Ok(Heard::Hears(limit_exceeded())),
        Carried::Undelivered => Ok(Heard::Unheard),
        Carried::Unheard(taken) => {
            let _ = serve(alloc, net, to, &taken)?;
            Ok(Heard::Unheard)
        }
        Carried::Taken(taken) => {
            let reply = serve(alloc, net, to, &taken)?;
            let back = net.carry_back(alloc, taken.request.body.operation(), &reply)?;
            Ok(Heard::Hears(follow(alloc, net, from, to, &taken, back)?))
        }
    }
}

/// The reply of an agent to a message that it received (X.518, sections 17 to 21). It needs an agent of the network, a message that
/// may be sent, and an update to be the user's. After want of memory the network isn't used again.
#[cycle(dispatch)]
pub fn serve<N: Network>(
    alloc: Global,
    net: &mut N,
    me: AgentId,
    message: &Chained,
) -> Result<Reply, NoMemory>
    requires there { me < length (N.names net.old) }
    requires of_user { IsOfUser (N.scene net.old) (chained_view (N.names net.old) message.now) }
    requires sent { MayBeSent (N.names net.old) message.now }
    ensures stays { Stays N.scene N.most N.names net.old net.new }
    ensures left { left_of (N.most net.new) (N.journal net.new) ≤ left_of (N.most net.old) (N.journal net.old) }
    ensures does { IfOk result (λ reply. DoesAt N.scene N.most N.journal net.old net.new (Serves (hand me (chained_view (N.names net.old) message.now)) (reply_view (N.names net.old) reply))) }
{
    match first_step(alloc, net, me, message)? {
        Step::Replies(reply) => Ok(reply),
        Step::Goes(reference) => go(alloc, net, me, me, message, reference),
        Step::Joins(answer, references) => {
            let gathered = gather(alloc, net, me, me, message, answer, &references)?;
            Ok(finished(message, gathered))
        }
        Step::Updates => update(alloc, net, me, message),
    }
}

/// What a sender makes of a reply to its message: a referral is followed, and so are unexplored references that nobody tried
/// (X.518, section 20). A reply that leaves anything to follow came from an agent that might pass the message on.
#[cycle(dispatch)]
fn follow<N: Network>(
    alloc: Global,
    net: &mut N,
    from: AgentId,
    owner: AgentId,
    message: &Chained,
    reply: Reply,
) -> Result<Reply, NoMemory>
    requires from { from < length (N.names net.old) }
    requires owner { owner < length (N.names net.old) }
    requires of_user { IsOfUser (N.scene net.old) (chained_view (N.names net.old) message.now) }
    requires told { IsTold (length (N.names net.old)) (reply_view (N.names net.old) reply) }
    requires sent { MayBeSent (N.names net.old) message.now }
    requires passable { is_final (reply_view (N.names net.old) reply) ≡ false → MayBePassedOn (hand owner (chained_view (N.names net.old) message.now)) }
    requires bounded { BoundedReply (reply_view (N.names net.old) reply) }
    ensures stays { Stays N.scene N.most N.names net.old net.new }
    ensures left { left_of (N.most net.new) (N.journal net.new) ≤ left_of (N.most net.old) (N.journal net.old) }
    ensures does { IfOk result (λ last. DoesAt N.scene N.most N.journal net.old net.new (Follows (Some from) (hand owner (chained_view (N.names net.old) message.now)) (reply_view (N.names net.old) reply) (reply_view (N.names net.old) last))) }
{
    match reply {
        Reply::Failed(error) => Ok(Reply::Failed(error)),
        Reply::Refer(reference) => go(alloc, net, from, owner, message, reference),
        Reply::Done(answer) => {
            let references = left_to_follow(alloc, &answer)?;
            if references.len() == 0 {
                drop(references);
                return Ok(Reply::Done(answer));
            }
            let rest = with_tried(alloc, answer)?;
            let gathered = gather(alloc, net, from, owner, message, rest, &references)?;
            drop(references);
            Ok(finished(message, gathered))
        }
    }
}

/// Goes by a reference, of whichever kind it is: what is heard, or that nobody was.
#[cycle(dispatch)]
fn go<N: Network>(
    alloc: Global,
    net: &mut N,
    from: AgentId,
    owner: AgentId,
    message: &Chained,
    reference: Reference,
) -> Result<Reply, NoMemory>
    requires from { from < length (N.names net.old) }
    requires owner { owner < length (N.names net.old) }
    requires of_user { IsOfUser (N.scene net.old) (chained_view (N.names net.old) message.now) }
    requires agents { are_agents (length (N.names net.old)) (map (access_view (N.names net.old)) reference.agents) ≡ true }
    requires sent { MayBeSent (N.names net.old) message.now }
    requires passable { MayBePassedOn (hand owner (chained_view (N.names net.old) message.now)) }
    requires bounded { BoundedReference (reference_view (N.names net.old) reference) }
    ensures stays { Stays N.scene N.most N.names net.old net.new }
    ensures left { left_of (N.most net.new) (N.journal net.new) ≤ left_of (N.most net.old) (N.journal net.old) }
    ensures does { IfOk result (λ reply. Goes (N.scene net.old) (N.most net.old) (Some from) (hand owner (chained_view (N.names net.old) message.now)) (reference_view (N.names net.old) reference) (reply_view (N.names net.old) reply) (N.journal net.old) (N.journal net.new)) }
{
    if reference.kind.is_wide() {
        return cast(alloc, net, from, owner, message, &reference);
    }
    match take(alloc, net, from, owner, message, &reference)? {
        Heard::Hears(reply) => Ok(reply),
        Heard::Unheard => Ok(unavailable(reference)),
    }
}

/// Asks by a reference (X.518, section 20).
#[cycle(dispatch)]
fn take<N: Network>(
    alloc: Global,
    net: &mut N,
    from: AgentId,
    owner: AgentId,
    message: &Chained,
    reference: &Reference,
) -> Result<Heard, NoMemory>
    requires from { from < length (N.names net.old) }
    requires owner { owner < length (N.names net.old) }
    requires of_user { IsOfUser (N.scene net.old) (chained_view (N.names net.old) message.now) }
    requires agents { are_agents (length (N.names net.old)) (map (access_view (N.names net.old)) reference.now.agents) ≡ true }
    requires sent { MayBeSent (N.names net.old) message.now }
    requires passable { MayBePassedOn (hand owner (chained_view (N.names net.old) message.now)) }
    requires bounded { BoundedReference (reference_view (N.names net.old) reference.now) }
    ensures stays { Stays N.scene N.most N.names net.old net.new }
    ensures left { left_of (N.most net.new) (N.journal net.new) ≤ left_of (N.most net.old) (N.journal net.old) }
    ensures does { IfOk result (λ heard. DoesAt N.scene N.most N.journal net.old net.new (Takes (Some from) (hand owner (chained_view (N.names net.old) message.now)) (reference_view (N.names net.old) reference.now) (heard_view (N.names net.old) heard))) }
    ensures told { IfOk result (λ heard. IsToldHeard (length (N.names net.old)) (heard_view (N.names net.old) heard)) }
{
    let onward = passed_on(alloc, net.names(), owner, message, reference)?;
    let heard = take_in_turn(alloc, net, from, reference.agents.as_slice(), &onward);
    drop(onward);
    heard
}

/// Asks agents in their order, until one is heard (X.518, section 20).
#[cycle(dispatch)]
fn take_in_turn<N: Network>(
    alloc: Global,
    net: &mut N,
    from: AgentId,
    agents: &[AccessPoint],
    onward: &Chained,
) -> Result<Heard, NoMemory>
    requires from { from < length (N.names net.old) }
    requires of_user { IsOfUser (N.scene net.old) (chained_view (N.names net.old) onward.now) }
    requires agents { are_agents (length (N.names net.old)) (map (access_view (N.names net.old)) agents.now) ≡ true }
    requires sent { MayBeSent (N.names net.old) onward.now }
    ensures stays { Stays N.scene N.most N.names net.old net.new }
    ensures left { left_of (N.most net.new) (N.journal net.new) ≤ left_of (N.most net.old) (N.journal net.old) }
    ensures does { IfOk result (λ heard. (o : Hand) (r : model.Reference) → map (access_view (N.names net.old)) agents.now ≡ r.agents → chained_view (N.names net.old) onward.now ≡ carried_for (Some from) o r → DoesAt N.scene N.most N.journal net.old net.new (Takes (Some from) o r (heard_view (N.names net.old) heard))) }
    ensures told { IfOk result (λ heard. IsToldHeard (length (N.names net.old)) (heard_view (N.names net.old) heard)) }
{
    for access in agents {
        let to = agent_at(net, access);
        let heard = ask(alloc, net, from, to, onward)?;
        if is_heard(&heard) {
            return Ok(heard);
        }
        drop(heard);
    }
    Ok(Heard::Unheard)
}

/// Asks the agents of an NSSR in their order, until one can go on (X.518, section 20: multi-chaining).
#[cycle(dispatch)]
fn cast<N: Network>(
    alloc: Global,
    net: &mut N,
    from: AgentId,
    owner: AgentId,
    message: &Chained,
    reference: &Reference,
) -> Result<Reply, NoMemory>
    requires from { from < length (N.names net.old) }
    requires owner { owner < length (N.names net.old) }
    requires of_user { IsOfUser (N.scene net.old) (chained_view (N.names net.old) message.now) }
    requires agents { are_agents (length (N.names net.old)) (map (access_view (N.names net.old)) reference.now.agents) ≡ true }
    requires sent { MayBeSent (N.names net.old) message.now }
    requires passable { MayBePassedOn (hand owner (chained_view (N.names net.old) message.now)) }
    requires bounded { BoundedReference (reference_view (N.names net.old) reference.now) }
    ensures stays { Stays N.scene N.most N.names net.old net.new }
    ensures left { left_of (N.most net.new) (N.journal net.new) ≤ left_of (N.most net.old) (N.journal net.old) }
    ensures does { IfOk result (λ reply. DoesAt N.scene N.most N.journal net.old net.new (Casts (Some from) (hand owner (chained_view (N.names net.old) message.now)) (reference_view (N.names net.old) reference.now) (reply_view (N.names net.old) reply))) }
{
    let onward = passed_on(alloc, net.names(), owner, message, reference)?;
    let agents = reference.agents.as_slice();
    let mut noted: AccessList = Listed::new(alloc);
    for access in agents {
        let to = agent_at(net, access);
        match ask(alloc, net, from, to, &onward)? {
            Heard::Unheard => noted.push(access.clone()?)?,
            Heard::Hears(reply) => {
                if !is_unable(&reply) {
                    return Ok(reply);
                }
            }
        }
    }
    if noted.len() == 0 {
        return nobody_has(alloc, reference);
    }
    unavailable_of(reference, noted)
}

/// Asks for the parts of a list or search, one after the other, and joins them to an answer (X.518, sections 19.3 and 21).
#[cycle(dispatch)]
fn gather<N: Network>(
    alloc: Global,
    net: &mut N,
    from: AgentId,
    owner: AgentId,
    message: &Chained,
    first: Answer,
    references: &ReferenceList,
) -> Result<Gathered, NoMemory>
    requires from { from < length (N.names net.old) }
    requires owner { owner < length (N.names net.old) }
    requires of_user { IsOfUser (N.scene net.old) (chained_view (N.names net.old) message.now) }
    requires agents { name_agents (length (N.names net.old)) (map (reference_view (N.names net.old)) references.now) ≡ true }
    requires alike { are_alike (first ∷ []) ≡ true }
    requires sent { MayBeSent (N.names net.old) message.now }
    requires passable { MayBePassedOn (hand owner (chained_view (N.names net.old) message.now)) }
    requires bounded { Each BoundedReference (map (reference_view (N.names net.old)) references.now) }
    ensures stays { Stays N.scene N.most N.names net.old net.new }
    ensures left { left_of (N.most net.new) (N.journal net.new) ≤ left_of (N.most net.old) (N.journal net.old) }
    ensures does { IfOk result (λ gathered. DoesAt N.scene N.most N.journal net.old net.new (Gathers (Some from) (hand owner (chained_view (N.names net.old) message.now)) (map (reference_view (N.names net.old)) references.now) (answer_view (N.names net.old) first) (gathered_view (N.names net.old) gathered))) }
{
    let asked = references.as_slice();
    let mut parts: Vec<Answer> = Vec::new(alloc);
    parts.push(first)?;
    for reference in asked {
        match take(alloc, net, from, owner, message, reference)? {
            Heard::Unheard => leave_out(alloc, &mut parts, reference.clone()?)?,
            Heard::Hears(reply) => match part_of(reply) {
                Part::Joins(answer) => take_up(&mut parts, answer)?,
                Part::Leaves(left) => leave_out(alloc, &mut parts, left)?,
                Part::Breaks(error) => {
                    drop(parts);
                    return Ok(Gathered::Broken(error));
                }
            },
        }
    }
    Ok(Gathered::Whole(whole(alloc, parts)?))
}

/// Carries out an update at the agent that has its target (X.511, section 11; X.518, section 19.1).
#[cycle(dispatch)]
fn update<N: Network>(
    alloc: Global,
    net: &mut N,
    me: AgentId,
    message: &Chained,
) -> Result<Reply, NoMemory>
    requires there { me < length (N.names net.old) }
    requires due { IsDue (N.scene net.old) (N.journal net.old) (hand me (chained_view (N.names net.old) message.now)) }
    requires sent { MayBeSent (N.names net.old) message.now }
    ensures stays { Stays N.scene N.most N.names net.old net.new }
    ensures left { left_of (N.most net.new) (N.journal net.new) ≤ left_of (N.most net.old) (N.journal net.old) }
    ensures does { IfOk result (λ reply. DoesAt N.scene N.most N.journal net.old net.new (Updates (hand me (chained_view (N.names net.old) message.now)) (reply_view (N.names net.old) reply))) }
{
    match net.prepare(alloc, me, message)? {
        Verdict::Refused(error) => Ok(Reply::Failed(error)),
        Verdict::Passed(None) => {
            net.commit(alloc, me, message)?;
            Ok(Reply::Done(Answer::Changed))
        }
        Verdict::Passed(Some(reference)) => {
            match probe(alloc, net, me, message, &reference)? {
                Probed::Ends(error) => {
                    drop(reference);
                    Ok(Reply::Failed(error))
                }
                Probed::Through(noted) => {
                    if noted.len() > 0 {
                        return unavailable_of(&reference, noted);
                    }
                    drop(noted);
                    drop(reference);
                    net.commit(alloc, me, message)?;
                    Ok(Reply::Done(Answer::Changed))
                }
            }
        }
    }
}

/// Probes the agents of an NSSR for an update's new name, in their order (X.518, section 19.1).
#[cycle(dispatch)]
fn probe<N: Network>(
    alloc: Global,
    net: &mut N,
    me: AgentId,
    message: &Chained,
    reference: &Reference,
) -> Result<Probed, NoMemory>
    requires there { me < length (N.names net.old) }
    requires of_user { IsOfUser (N.scene net.old) (chained_view (N.names net.old) message.now) }
    requires agents { are_agents (length (N.names net.old)) (map (access_view (N.names net.old)) reference.now.agents) ≡ true }
    requires sent { MayBeSent (N.names net.old) message.now }
    requires passable { MayBePassedOn (hand me (chained_view (N.names net.old) message.now)) }
    requires bounded { BoundedReference (reference_view (N.names net.old) reference.now) }
    ensures stays { Stays N.scene N.most N.names net.old net.new }
    ensures left { left_of (N.most net.new) (N.journal net.new) ≤ left_of (N.most net.old) (N.journal net.old) }
    ensures does { IfOk result (λ probed. IsProbed (N.scene net.old) (N.most net.old) (N.names net.old) (hand me (chained_view (N.names net.old) message.now)) (reference_view (N.names net.old) reference.now) (N.journal net.old) (N.journal net.new) probed) }
{
    let onward = passed_on(alloc, net.names(), me, message, reference)?;
    let agents = reference.agents.as_slice();
    let mut noted: AccessList = Listed::new(alloc);
    for access in agents {
        let to = agent_at(net, access);
        match ask(alloc, net, me, to, &onward)? {
            Heard::Unheard => noted.push(access.clone()?)?,
            Heard::Hears(reply) => match told_by(reply) {
                Told::Unable => {}
                Told::Unsure => noted.push(access.clone()?)?,
                Told::Ends(error) => return Ok(Probed::Ends(error)),
            },
        }
    }
    Ok(Probed::Through(noted))
}
