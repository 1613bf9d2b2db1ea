//! Items of a trace, by agent, target, progress and kind of message.

ghost use Rattle.std.specs.Prelude.{◌≡◌, ℕ, List, true, false, ◌<◌, ◌++◌, [], ◌∷◌, length, map, OnOk, OnErr};
ghost use Rattle.std.specs.List.{list_any};
ghost use Rattle.x5_model.specs.Words.{has, distinct};
ghost use Rattle.x5_model_run.specs.Journal.{same_item};
ghost use Rattle.x5_ops.specs.ReferenceViews.{item_view};
ghost use Rattle.x5_trace.specs.Items.{same_named, IsNamed};

use x5_memory::NoMemory;
use x5_ops::{Trace, TraceItem};

/// Items of a trace at most.
pub const MOST_ITEMS: usize = 128;

/// Whether the two items are of one agent, and it was asked the same.
fn is_same(a: &TraceItem, b: &TraceItem) -> bool
    ensures { result ≡ same_named a.now b.now }
{
    a.agent.is_same(&b.agent)
        && a.target.is_same(&b.target)
        && a.progress.is_same(b.progress)
        && a.wide == b.wide
}

/// Whether one of the items is the same.
fn is_among(trace: &Trace, item: &TraceItem) -> bool
    ensures any { result ≡ list_any (λ passed. same_named passed item.now) trace.now }
{
    trace.as_slice().iter().any(|passed| is_same(passed, item))
}

/// Whether the agent's item stands in the trace, so that the message has come round (X.518: loop detection): the agent had it
/// before, with the same target and progress, and asked in the same way. No memory.
pub fn repeats(trace: &Trace, item: &TraceItem) -> bool
    ensures named { result ≡ has same_named trace.now item.now }
    ensures placed { (names : List (List ℕ)) → IsNamed names item.now.agent → result ≡ has same_item (map (item_view names) trace.now) (item_view names item.now) }
{
    is_among(trace, item)
}

/// Adds the item of an agent that passes the message on, as the newest. The items stay distinct. After want of memory the trace
/// is as it was.
#[tactic(auto, using(crate::proofs::Items::distinct_push))]
pub fn push(trace: &mut Trace, item: TraceItem) -> Result<(), NoMemory>
    requires fresh { has same_named trace.old item ≡ false }
    requires room { length trace.old < 128 }
    ensures ok { OnOk result (trace.new ≡ trace.old ++ item ∷ []) }
    ensures err { OnErr result (trace.new ≡ trace.old) }
    ensures apart { OnOk result (distinct same_named trace.old ≡ true → distinct same_named trace.new ≡ true) }
{
    trace.push(item)
}
