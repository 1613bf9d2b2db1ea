//! The messages of every refresh can be written: at each line of a run over consistent knowledge what agents hold and keep of
//! changes can be sent, and each message of shadowing is within the limits of messages. Each function here does nothing; its
//! clauses are the theorems, which `proofs/` shows over the definitions.
#![tactic(auto)]

ghost use Rattle.x5_model_settled.specs.Held.{BySteps};
ghost use Rattle.x5_model_shadowing.specs.Files.{FilesHaveUtf8};
ghost use Rattle.x5_model_shadowing.specs.Lines.{RunsAreBounded, TreesSendable, HeldSendable, CopiesSendable};
ghost use Rattle.x5_model_shadowing.specs.Lines.{LogsSendable, LineIsCounted, RefreshesWithin};
ghost use Rattle.x5_model_shadowing.specs.Messages.{WorldIsAround, KnownIsWithin, OtherIsWithin, TotalIsWithin, StepsAreWithin};

/// The agents of a world that a file describes go by their names in messages of shadowing, and each moment that four octets count
/// has a date and time there (X.525, section 9; X.680, section 46). The names at which its references stand are UTF-8.
pub fn worlds_are_around()
    ensures around { WorldIsAround }
    ensures files { FilesHaveUtf8 }
{}

/// What can be sent of what agents hold is within the limits of messages of shadowing: references, whole contexts, and changes
/// (X.525, section 11).
pub fn what_is_sent()
    ensures known { KnownIsWithin }
    ensures others { OtherIsWithin }
    ensures total { TotalIsWithin }
    ensures steps { StepsAreWithin }
{}

/// At every line of a run over consistent knowledge, whose requests are within the limits of messages, the entries of the one tree
/// can be sent, and so can what agents hold, as masters or as copies, and the changes that they keep; and four octets count the
/// moments (X.525, sections 7 and 9).
pub fn lines_can_be_sent()
    ensures runs { RunsAreBounded BySteps }
    ensures trees { TreesSendable }
    ensures held { HeldSendable }
    ensures copies { CopiesSendable }
    ensures logs { LogsSendable }
    ensures counted { LineIsCounted }
{}

/// So each message of a refresh at such a line is within the limits, and can be written (X.525, sections 9 to 12).
pub fn refreshes_within()
    ensures { RefreshesWithin }
{}
