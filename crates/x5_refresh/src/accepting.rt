//! What the consumer takes.

ghost use Rattle.std.specs.Prelude.{◌≡◌, true, length, IfOk, OnErr, OnOk};
ghost use Rattle.std.specs.Option.{is_some};
ghost use Rattle.x5_model.specs.Values.{key_of};
ghost use Rattle.x5_model_run.specs.Holdings.{copy_at};
ghost use Rattle.x5_holdings.specs.State.{holdings_view};
ghost use Rattle.x5_model_refreshed.specs.Doable.{AreWhole};
ghost use Rattle.x5_consume.specs.Taken.{CanTake, IsAdvanced, IsReplaced, IsTaken};
ghost use Rattle.x5_refresh.specs.Sent.{CanAccept, IsRefreshed, count_in};

use crate::brought::Brought;
use std::alloc::Global;
use x5_consume::{accept_steps, accept_total};
use x5_holdings::Holdings;
use x5_memory::NoMemory;
use x5_names::Name;
use x5_ops::{Content, Moment, StepList};

/// Takes a total refresh, and tells how many entries it has.
fn take_total(
    alloc: Global,
    consumer: &mut Holdings,
    context: &Name,
    stamp: Moment,
    content: Content,
) -> Result<u64, NoMemory>
    requires copied { is_some (copy_at (holdings_view consumer.old) (key_of context.now)) ≡ true }
    requires whole { AreWhole (key_of context.now) content.entries }
    ensures ok { OnOk result (IsTaken consumer.old (key_of context.now) (IsReplaced content stamp) consumer.new) }
    ensures counted { IfOk result (λ count. count ≡ length content.entries) }
    ensures err { OnErr result (consumer.new ≡ consumer.old) }
{
    let count = content.entries.len() as u64;
    accept_total(alloc, consumer, context, content, stamp)?;
    Ok(count)
}

/// Takes an incremental refresh, and tells how many steps it has.
fn take_steps(
    alloc: Global,
    consumer: &mut Holdings,
    context: &Name,
    stamp: Moment,
    steps: StepList,
) -> Result<u64, NoMemory>
    requires { CanTake (holdings_view consumer.old) (key_of context.now) steps }
    ensures ok { OnOk result (IsTaken consumer.old (key_of context.now) (IsAdvanced steps stamp) consumer.new) }
    ensures counted { IfOk result (λ count. count ≡ length steps) }
    ensures err { OnErr result (holdings_view consumer.new ≡ holdings_view consumer.old) }
{
    let count = steps.len() as u64;
    accept_steps(alloc, consumer, context, steps, stamp)?;
    Ok(count)
}

/// Takes a refresh at its stamp (X.525, section 11.3): the consumer's copy of the context is replaced by what was sent, or the
/// steps are done on it; tells how many entries or steps these are. The consumer has a copy of the context, and what was sent can
/// be taken there. After want of memory it holds what it held.
pub fn accept(
    alloc: Global,
    consumer: &mut Holdings,
    context: &Name,
    stamp: Moment,
    brought: Brought,
) -> Result<u64, NoMemory>
    requires { CanAccept (holdings_view consumer.old) (key_of context.now) brought }
    ensures ok { OnOk result (IsTaken consumer.old (key_of context.now) (IsRefreshed brought stamp) consumer.new) }
    ensures counted { IfOk result (λ count. count ≡ count_in brought) }
    ensures err { OnErr result (holdings_view consumer.new ≡ holdings_view consumer.old) }
{
    match brought {
        Brought::Total(content) => take_total(alloc, consumer, context, stamp, content),
        Brought::Steps(steps) => take_steps(alloc, consumer, context, stamp, steps),
    }
}
