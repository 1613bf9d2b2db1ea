//! What agents do with a request always comes to an end, with one journal and one reply. Each function here does nothing; its
//! clauses are the theorems.
#![tactic(auto)]

ghost use Rattle.x5_model_done.specs.Done.{SettingsAreKept, MessagesAreServed, RequestsAreDone, RequestsHaveOutcomes, LinesHaveOutcomes};

/// What agents hold over consistent knowledge is in order (X.501, section 22).
pub fn holding()
    ensures { SettingsAreKept }
{}

/// Each message is served, and each request is carried through, whatever is lost (X.518, sections 17 to 21).
pub fn serving()
    ensures messages { MessagesAreServed }
    ensures requests { RequestsAreDone }
{}

/// So a request has one journal and one reply, and there are no others; and so has any message at every line, whatever agents
/// hold and know.
pub fn one_of_each()
    ensures outcomes { RequestsHaveOutcomes }
    ensures lines { LinesHaveOutcomes }
{}
