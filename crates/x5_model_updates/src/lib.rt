//! What consistent knowledge gives updates. Each function here does nothing; its clauses are the theorems, which
//! `proofs/` shows over the definitions.
#![tactic(auto)]

ghost use Rattle.x5_model_updates.specs.Afterwards.{EntriesAfter, KeysAfter, PartsAfter};
ghost use Rattle.x5_model_run.specs.Right.{SendsRight};
ghost use Rattle.x5_model_updates.specs.Keeping.{UpdatesKeep, OrderStays, LinesStand, RunsStand};
ghost use Rattle.x5_model_updates.specs.Standing.{TreeIsUnion, StandsAsTree, StandsConsistent, StandsGood};
ghost use Rattle.x5_model_updates.specs.Judging.{HolderIsMaster, RefusesAlike, AcceptsAlone, ProbesNewName, AcceptsProbed, UnableMastersNone, RefusesProbed, AcceptsAbsent, RefusesPresent, JudgedAfter, HoldsItsContexts, OwnGroundHeld, OrderRefuses, OrderAccepts};

/// What the master of a context concludes of an update from its own entries, the pins that it knows, its NSSRs and its
/// probes, holds of the whole tree (X.511, section 11; X.518, section 19.1).
pub fn judging()
    ensures holder { HolderIsMaster }
    ensures refuses { RefusesAlike }
    ensures accepts_alone { AcceptsAlone }
    ensures probes { ProbesNewName }
    ensures accepts_probed { AcceptsProbed }
    ensures unable { UnableMastersNone }
    ensures refuses_probed { RefusesProbed }
    ensures absent { AcceptsAbsent }
    ensures present { RefusesPresent }
    ensures after { JudgedAfter }
{}

/// An agent holds each context that it masters, with its part of the tree. What it judges by is made of these, and in
/// which order their entries stand is nothing to it.
pub fn own_grounds()
    ensures holds { HoldsItsContexts }
    ensures ground { OwnGroundHeld }
    ensures refuses { OrderRefuses }
    ensures accepts { OrderAccepts }
{}

/// What the one tree has after an accepted update: entry by entry, key by key, and context by context (X.511, section 11).
pub fn afterwards()
    ensures entries { EntriesAfter }
    ensures keys { KeysAfter }
    ensures parts { PartsAfter }
{}

/// Accepted updates keep knowledge coherent and entries in order. So at each line of a run the world with the entries of
/// the moment meets the ten conditions, and the one tree is a tree and the union of the masters' parts (X.501, section 22).
pub fn keeping()
    ensures updates { UpdatesKeep }
    ensures order { OrderStays }
    ensures lines { LinesStand }
    ensures runs { RunsStand SendsRight }
    ensures union { TreeIsUnion }
    ensures tree { StandsAsTree }
    ensures conditions { StandsConsistent }
    ensures good { StandsGood }
{}
