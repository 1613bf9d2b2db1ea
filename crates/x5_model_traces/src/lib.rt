//! How many messages a request takes, and what their traces say, over any knowledge (X.518, section 10: trace information). Each
//! function here does nothing; its clauses are the theorems.
#![tactic(auto)]

ghost use Rattle.x5_model_traces.specs.Passing.{DoesShort, DoesOnce};
ghost use Rattle.x5_model_traces.specs.Traces.{RequestsAreBounded};

/// Whatever is done for a message, each trace has 128 items at most, and no item twice, where that of the message has.
#[tactic(auto, using(crate::proofs::Passed::does_short, crate::proofs::Passed::does_once))]
pub fn passing()
    ensures short { DoesShort }
    ensures once { DoesOnce }
{}

/// So it is of each request. It takes no more messages than it may, and each is sent for one that arrived, whose trace it has, with
/// the item of that one's owner behind it.
#[tactic(auto, using(crate::proofs::Bounded::requests_are_bounded))]
pub fn growing()
    ensures { RequestsAreBounded }
{}
