//! How the parts of a list or search are joined to the whole. Each function here does nothing; its clauses are the theorems.
#![tactic(auto)]

ghost use Rattle.x5_model_joins.specs.Joins.{ToldInOrder, JoinsEntries, JoinsLimited, LimitsBefore, SoFarStays, PartIsGathered, LossIsGathered, UnavailableIsGathered, FollowTells, IdleTells, LocalTells, PartReplaces, LossReplaces, LimitLast};
ghost use Rattle.x5_model_joins.specs.Loop.{QueriesKeep, NoPart, PartUnheard, PartUnavailable, PartAnswered, PartBreaks};

/// What the sources of two answers tell together is the merge of what each tells, each entry marked by its source, with a
/// size limit or without (X.518, section 19.3).
pub fn joining()
    ensures ordered { ToldInOrder }
    ensures entries { JoinsEntries }
    ensures limited { JoinsLimited }
{}

/// The size limit comes last, and is nothing to the whole where it was applied before (X.511, section 7.5).
pub fn limiting()
    ensures last { LimitLast }
    ensures before { LimitsBefore }
{}

/// What an agent evaluates on the spot tells the whole, with all references that it needs still to be asked; the right answer
/// of a part takes the place of its reference, and so does the loss of it. Who follows what a right reply left unexplored
/// begins with as much (X.518, section 19.3).
pub fn gathering()
    ensures begins { LocalTells }
    ensures follows { FollowTells }
    ensures idle { IdleTells }
    ensures replaced { PartReplaces }
    ensures left_out { LossReplaces }
    ensures stays { SoFarStays }
    ensures part { PartIsGathered }
    ensures lost { LossIsGathered }
    ensures unavailable { UnavailableIsGathered }
{}

/// The loop over references, case by case: what is claimed of it follows from what is claimed of each reference (X.518,
/// section 19.3).
pub fn looping()
    ensures keeps { QueriesKeep }
    ensures none { NoPart }
    ensures unheard { PartUnheard }
    ensures unavailable { PartUnavailable }
    ensures answered { PartAnswered }
    ensures breaks { PartBreaks }
{}
