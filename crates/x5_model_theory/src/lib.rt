//! What consistent knowledge gives: the theory under the dispatch. Each function here does nothing; its clauses are
//! the theorems, which `proofs/` shows over the definitions.
#![tactic(auto)]

ghost use Rattle.x5_model_theory.specs.Coherent.{ConsistentIsCoherent};
ghost use Rattle.x5_model_theory.specs.Scopes.{AllAreTaken, NoMoreAreTaken, SpotsApart, WideSpotsApart, SpecificApart, MixedApart, NonSpecificApart};
ghost use Rattle.x5_model_theory.specs.Looking.{BaseMayLook, RootMayLook, PinsMayLook, EntriesAreTouched, SpecificLeads, NonSpecificLeads, SameEntries, SameWideEntries, SpecificCovers, NonSpecificCovers};
ghost use Rattle.x5_model_theory.specs.Changing.{AddingKeeps, RemovingKeeps, RenamingKeeps, ReorderingKeeps};
ghost use Rattle.x5_model_theory.specs.Leading.{NeverLower, LowerChain, NoLoop, ResolutionLeads, PartsLead, CopiesLead, FollowedIsPlaced, ProbesArePlaced, TracesRise, NoItemTwice, TracesGoOn, NoLongTrace, JournalsArePlaced, OpeningIsPlaced, NamesStayWithin, NoJournalIsLong};

/// Consistent knowledge gives the facts by keys on which the rest stands: of contexts, references, superiors and agreements.
pub fn coherence()
    ensures { ConsistentIsCoherent }
{}

/// How the contexts that a list or search looks into fall apart into those that an agent evaluates on the spot and
/// the scopes of the references that it needs (X.518, section 19).
pub fn scopes()
    ensures all { AllAreTaken }
    ensures no_more { NoMoreAreTaken }
    ensures spots { SpotsApart }
    ensures wide_spots { WideSpotsApart }
    ensures specific { SpecificApart }
    ensures mixed { MixedApart }
    ensures nonspecific { NonSpecificApart }
{}

/// Where an agent looks from for a list or search: from a base, from the root or from an NSSR's pins. What it asks
/// others for is the scope of its references, and covers exactly these contexts (X.518, section 19).
pub fn looks()
    ensures from_base { BaseMayLook }
    ensures from_root { RootMayLook }
    ensures from_pins { PinsMayLook }
    ensures entries { EntriesAreTouched }
    ensures specific_leads { SpecificLeads }
    ensures nonspecific_leads { NonSpecificLeads }
    ensures same_entries { SameEntries }
    ensures same_wide_entries { SameWideEntries }
    ensures specific_covers { SpecificCovers }
    ensures nonspecific_covers { NonSpecificCovers }
{}

/// Each reference that an agent needs leads on: its agents can go on from there, the message that follows it is nearer
/// than all before, and so no message comes twice to one agent with one target and progress, and a trace has 96 items
/// at most (X.518, section 19).
pub fn leading()
    ensures never_lower { NeverLower }
    ensures lower_chain { LowerChain }
    ensures no_loop { NoLoop }
    ensures resolution { ResolutionLeads }
    ensures parts { PartsLead }
    ensures copies { CopiesLead }
    ensures followed { FollowedIsPlaced }
    ensures probes { ProbesArePlaced }
    ensures traces { TracesRise }
    ensures no_item_twice { NoItemTwice }
    ensures going { TracesGoOn }
    ensures no_long_trace { NoLongTrace }
{}

/// So each message of a request over consistent knowledge is placed where it comes, and passes by 96 agents at most
/// (X.518, section 17: request validation).
pub fn journeys()
    ensures placed { JournalsArePlaced }
    ensures opening { OpeningIsPlaced }
    ensures within { NamesStayWithin }
    ensures short { NoJournalIsLong }
{}

/// An entry more below an entry, an entry less that is no pin, above no pin and above no entry, another last RDN of an
/// entry that is no pin and above none, and another order of entries, keep knowledge coherent (X.511, section 11).
pub fn changing()
    ensures adding { AddingKeeps }
    ensures removing { RemovingKeeps }
    ensures renaming { RenamingKeeps }
    ensures reordering { ReorderingKeeps }
{}
