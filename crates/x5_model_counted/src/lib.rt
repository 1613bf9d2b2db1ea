//! The summary of a run is told by the texts of its script and its output. Definitions (`specs/`), and laws of them: the functions
//! here do nothing; their clauses are the theorems.
#![tactic(auto)]

ghost use Rattle.x5_model_counted.specs.Laws.{DescribedAreOneLine, RequestsAreLines, OutputIsCounted, SummaryIsOfTexts, Whatever};

/// Agents' names and moments of a described world stand on one line, as all else does that is printed.
#[tactic(auto, using(crate::proofs::Described::described_are_one_line))]
pub fn names_are_one_line()
    ensures { DescribedAreOneLine }
{}

/// The requests of a script are its lines that begin with `at`.
#[tactic(auto, using(crate::proofs::Scripts::requests_are_lines))]
pub fn requests_are_lines()
    ensures { RequestsAreLines }
{}

/// What is counted of a run's blocks is how many lines of its output begin with each word; so the summary of the blocks is the
/// one that the texts of the script and the output tell.
pub fn summaries_are_of_texts()
    ensures counted { OutputIsCounted Whatever }
    ensures texts { SummaryIsOfTexts Whatever }
{}
