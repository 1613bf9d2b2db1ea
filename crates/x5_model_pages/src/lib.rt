//! Definitions: answers in pages (X.511, section 7.9), which the user's side keeps. Contracts of other crates cite them. Each function here does
//! nothing; its clauses are laws, which `proofs/` shows over the definitions.
#![tactic(auto)]

ghost use Rattle.x5_model_pages.specs.Laws.{PagesAreAPrefix, PagesAreAll, MoreIsMore, PlainIsRun};

/// Joined, the pages of one start are a first part of its answer, whatever lines come between; all of it where the last one said so; and a
/// page with more behind it is full.
pub fn pages_are_cut()
    ensures prefix { PagesAreAPrefix }
    ensures whole { PagesAreAll }
    ensures more { MoreIsMore }
{}

/// Where no line speaks of pages, what is printed is what a run prints.
#[tactic(auto, using(crate::proofs::Plain::plain_is_run))]
pub fn plain_lines()
    ensures { PlainIsRun }
{}
