//! What a world file describes is a described world, so that what is proved of described worlds holds of whatever is read from a file.
//! Each function here does nothing; its clauses are the theorems.
#![tactic(auto)]

ghost use Rattle.x5_model_loaded.specs.Loaded.{FilesAreDescribed, NamesAreShort, PlacesAreTheFiles, FirstFormatIsQuiet, OneReading, SomeReading, NotBoth};

/// The world of a file keeps every rule and limit of described worlds, and its agents stand at their places in the file.
#[tactic(auto, using(crate::proofs::Worlds::file_described, crate::proofs::Worlds::names_short, crate::proofs::Worlds::places_are, crate::proofs::Worlds::first_is_quiet))]
pub fn files_are_described()
    ensures described { FilesAreDescribed }
    ensures short { NamesAreShort }
    ensures places { PlacesAreTheFiles }
    ensures quiet { FirstFormatIsQuiet }
{}

/// A file is no JSON, or describes a world, or has a first breach: one of these, and one alone.
#[tactic(auto, using(crate::proofs::Readings::one_reading, crate::proofs::Readings::some_reading, crate::proofs::Readings::not_both))]
pub fn files_have_one_reading()
    ensures one { OneReading }
    ensures some { SomeReading }
    ensures apart { NotBoth }
{}
