//! Whom agents know and name, over any knowledge: where what the agents of a world hold names agents of that world alone, what
//! they find, ask and reply does so too, whatever is accepted meanwhile (X.518, sections 18 to 20). Each function here does
//! nothing; its clauses are the theorems.
#![tactic(auto)]

ghost use Rattle.x5_model_known.specs.Holding.{KnowledgeNamesAgents, KnowledgeStays, DescribedNameAgents, DescribedAreThemselves, DescribedNamesApart};
ghost use Rattle.x5_model_known.specs.Counted.{DescribedCounted, CountedStays};
ghost use Rattle.x5_model_known.specs.AtLines.{LinesNameAgents, LinesCounted, LinesAreThemselves};
ghost use Rattle.x5_model_known.specs.Replying.{RepliesNameAgents, ServedNameAgents};
ghost use Rattle.x5_model_known.specs.Resolving.{ResolvesAlike, UnresolvedIsStuck};

/// Where what agents hold names agents of the world alone, so do the references that they find, need for a list or search, and
/// probe by, even after an update: that changes entries, and neither whose the holdings are nor whom they name.
#[tactic(auto, using(crate::proofs::Finding::knowledge_names_agents, crate::proofs::Finding::knowledge_stays))]
pub fn knowing()
    ensures agents { KnowledgeNamesAgents }
    ensures stays { KnowledgeStays }
{}

/// What a world's file describes of an agent names agents of that world alone, and says whose it is; and no two agents have one
/// name.
pub fn described()
    ensures knowledge { DescribedNameAgents }
    ensures whose { DescribedAreThemselves }
    ensures names { DescribedNamesApart }
{}

/// An octet counts the RDNs of each name that an agent knows of a world that a file describes, and one more; an update changes none
/// of these names.
#[tactic(auto, using(crate::proofs::Counted::described_counted, crate::proofs::Counted::counted_stays))]
pub fn counting()
    ensures described { DescribedCounted }
    ensures stays { CountedStays }
{}

/// At every line that moved no context, copies refreshed or not, what an agent holds is its own, names agents of the world alone,
/// and knows no name whose RDNs an octet doesn't count (X.525, section 9).
#[tactic(auto, using(crate::proofs::AtLines::lines_name_agents, crate::proofs::AtLines::lines_counted, crate::proofs::AtLines::lines_are_themselves))]
pub fn lines()
    ensures agents { LinesNameAgents }
    ensures counted { LinesCounted }
    ensures whose { LinesAreThemselves }
{}

/// So does the reply to every request, and to every message that comes to an agent of the world: in its references, in the sources of
/// its answer, and in the item of a loop.
#[tactic(auto, using(crate::proofs::Replying::replies_name_agents, crate::proofs::Replying::served_name_agents))]
pub fn replies()
    ensures requests { RepliesNameAgents }
    ensures served { ServedNameAgents }
{}

/// An agent resolves as many names after an update as before, and of an update's name that it doesn't resolve it finds nothing.
pub fn resolution()
    ensures alike { ResolvesAlike }
    ensures stuck { UnresolvedIsStuck }
{}
