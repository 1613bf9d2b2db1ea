//! How lists and searches fall into parts, over the definitions: what an agent evaluates on the spot, and what the
//! references that it needs stand for. Each function here does nothing; its clauses are the theorems.
#![tactic(auto)]

ghost use Rattle.x5_model_parts.specs.Standing.{StandsAtFirst};
ghost use Rattle.x5_model_parts.specs.Parts.{SpotsAreRight, SpotsAreOnce, SpotsAreTouched, SpotsAreApart, AllAreParts, PartsAreApart, ScopeIsCovered, PartsBegin, PartsGoOn, NeedsAreNested, SameAreAsked, SameIsPassedOn};

/// While no update was accepted and no context moved, each line of a run over consistent knowledge stands on what the
/// knowledge says by keys.
pub fn standing()
    ensures { StandsAtFirst }
{}

/// Where an agent begins a list or search: the contexts that are looked into are those that
/// it evaluates on the spot and those that its needed references cover, each once; what is asked by a reference looks
/// into what it covers; and what that needs covers no more (X.518, section 19).
pub fn parts()
    ensures right { SpotsAreRight }
    ensures once { SpotsAreOnce }
    ensures touched { SpotsAreTouched }
    ensures spots_apart { SpotsAreApart }
    ensures all { AllAreParts }
    ensures apart { PartsAreApart }
    ensures scopes { ScopeIsCovered }
    ensures begin { PartsBegin }
    ensures go_on { PartsGoOn }
    ensures nested { NeedsAreNested }
    ensures same_asked { SameAreAsked }
{}

/// Where a name is resolved elsewhere, the question stays the same (X.518, section 18).
pub fn passing()
    ensures { SameIsPassedOn }
{}
