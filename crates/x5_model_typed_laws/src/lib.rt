//! Laws of typed octets: reading by type decides what an element is; and in every table of types whose tags are apart and
//! whose contents read back, as that of the messages is, what is written of a value that fits its type spells it and reads back. Each function here
//! does nothing; its clauses are the theorems.
#![tactic(auto)]

ghost use Rattle.x5_model_typed_laws.specs.Complete.{IsJudged, JudgedDecides};
ghost use Rattle.x5_model_typed_laws.specs.Said.{SpelledFits, MessagesAreClosed, MessagesSpelledFit};
ghost use Rattle.x5_model_typed_laws.specs.Written.{FitsIsWritten, WrittenIsSpelled, WrittenReadsBack, OneIsWritten, MessagesAreTable};

/// Reading by type comes to a value exactly where the element is one, and else to a breach.
#[tactic(auto, using(crate::proofs::Deciding::is_judged))]
pub fn reading_decides()
    ensures is_judged { IsJudged }
    ensures decides { JudgedDecides }
{}

/// A value that fits its type has canonical octets; they spell it, are read back as it, and are those of no other value (X.690,
/// section 10).
pub fn written_reads_back()
    ensures written { FitsIsWritten }
    ensures spelled { WrittenIsSpelled }
    ensures back { WrittenReadsBack }
    ensures one { OneIsWritten }
{}

/// The tags of the table of messages are apart (X.680), and each of its contents reads back: numbers, object identifiers, strings and
/// bits (X.690, section 8).
pub fn messages_are_a_table()
    ensures { MessagesAreTable }
{}

/// In a table whose rules keep what they make of what was read, whatever octets spell fits its type. The table of messages is
/// such a table, so whatever octets spell of a message fits, and is written and read back the same.
pub fn what_is_read_fits()
    ensures every { SpelledFits }
    ensures closed { MessagesAreClosed }
    ensures messages { MessagesSpelledFit }
{}
