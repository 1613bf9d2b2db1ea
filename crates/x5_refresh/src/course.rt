//! Whether a refresh goes on, and what became of it.

ghost use Rattle.std.specs.Prelude.{◌≡◌, ℕ, Bool, true};
ghost use Rattle.std.specs.Option.{option_map};
ghost use Rattle.x5_model_run.specs.Network.{is_sent};
ghost use Rattle.x5_model_run.specs.Refresh.{Problem, same_moment};
ghost use Rattle.x5_ops.specs.JournalViews.{fate_view};
ghost use Rattle.x5_refresh.specs.Course.{finished, missing, stopped, taken, unsent};
ghost use Rattle.x5_refresh.specs.Joined.{is_of_supplier};
ghost use Rattle.x5_ops.specs.RefreshViews.{refreshed_view};
ghost use Rattle.x5_refresh.specs.Outcomes.{start_view};

use x5_ops::{Fate, Moment, Refreshed};

/// missedPrevious (X.525, section 12): the consumer has the context as of another moment than it acknowledged.
const MISSED_PREVIOUS: u8 = 5;

/// Whether a refresh ended, and how, or goes on.
#[derive(Clone, Copy, Drop)]
pub enum Start {
    Ended(Refreshed),
    GoesOn,
}

/// Whether they are the same moment, or both none. No memory.
fn is_same(first: &Option<Moment>, second: &Option<Moment>) -> bool
    ensures { result ≡ same_moment first.now second.now }
{
    match (first, second) {
        (None, None) => true,
        (Some(first), Some(second)) => first.0 == second.0,
        _ => false,
    }
}

/// The supplier's problem ends it. No memory.
fn refused(problem: Option<u8>) -> Start
    requires { is_of_supplier problem ≡ true }
    ensures { (heard : Bool) (number : ℕ) → start_view heard number result ≡ option_map Problem problem }
{
    match problem {
        Some(problem) => Start::Ended(Refreshed::Failed {
            problem,
            held: None,
            given: None,
        }),
        None => Start::GoesOn,
    }
}

/// An incremental refresh ends where the consumer has it as of another moment than it acknowledged. No memory.
fn missed(total: bool, own: Option<Moment>, acked: Option<Moment>) -> Start
    ensures { (heard : Bool) (number : ℕ) → start_view heard number result ≡ missing total own acked }
{
    if total || is_same(&acked, &own) {
        return Start::GoesOn;
    }
    Start::Ended(Refreshed::Failed {
        problem: MISSED_PREVIOUS,
        held: own,
        given: acked,
    })
}

/// Whether a refresh goes on before any message, given the supplier's problem: a push doesn't where there is one (X.525, section
/// 11.1), a pull always does. No memory.
pub fn opens(push: bool, problem: Option<u8>) -> Start
    requires { is_of_supplier problem ≡ true }
    ensures { (heard : Bool) (number : ℕ) → start_view heard number result ≡ unsent push problem }
{
    if push {
        return refused(problem);
    }
    Start::GoesOn
}

/// Whether a refresh goes on behind its first message, by what became of that: not where it isn't heard. Else a pull doesn't where
/// the supplier has a problem; an incremental push doesn't where the consumer's moment (`own`) isn't the one that it acknowledged
/// last (X.525, sections 11.1 and 11.2). No memory.
pub fn begins(
    push: bool,
    total: bool,
    problem: Option<u8>,
    own: Option<Moment>,
    acked: Option<Moment>,
    first: Fate,
) -> Start
    requires { is_of_supplier problem ≡ true }
    ensures { (heard : Bool) (number : ℕ) → start_view heard number result ≡ stopped push total problem own acked (fate_view first) }
{
    if first.is_unheard() {
        return Start::Ended(Refreshed::Lost);
    }
    if push {
        missed(total, own, acked)
    } else {
        refused(problem)
    }
}

/// A refresh that the consumer took. No memory.
fn done(total: bool, stamp: Moment, count: u64) -> Refreshed
    ensures { (heard : Bool) (number : ℕ) → refreshed_view heard number result ≡ taken total number stamp count heard }
{
    if total {
        return Refreshed::Total(stamp, count);
    }
    if count == 0 {
        return Refreshed::Nothing(stamp);
    }
    Refreshed::Incremental(stamp, count)
}

/// What became of a refresh of so many entries or steps, by what became of its last message: where that is lost, nothing was
/// taken; the supplier knows that it was taken where the reply came too (X.525, section 11.3). No memory.
pub fn ended(total: bool, stamp: Moment, count: u64, last: Fate) -> Refreshed
    ensures { (number : ℕ) → refreshed_view (is_sent (fate_view last)) number result ≡ finished total number stamp count (fate_view last) }
{
    match last {
        Fate::Lost => Refreshed::Lost,
        Fate::NoReply | Fate::Sent => done(total, stamp, count),
    }
}
