//! What is sent, in the words of runs over consistent knowledge. The function here does nothing; its clauses are the theorems.

ghost use Rattle.x5_supply.specs.Copying.{CopySends, MasterSends, StepsAreChanges};

/// What a master sends along with a context are the references that the definitions send, what a consumer sends is its copy, and
/// the steps since a moment are as many as the changes (X.525, sections 7 and 9).
pub fn supplying()
    ensures master { MasterSends }
    ensures copy { CopySends }
    ensures steps { StepsAreChanges }
{}
