//! The course of a refresh in the words of runs. The function here does nothing; its clauses are the theorems.

ghost use Rattle.x5_refresh.specs.Course.{BlocksAreCourses};
ghost use Rattle.x5_refresh.specs.Joined.{SuppliesAreFacts};

/// Over consistent knowledge the block of a refresh is the course of what it looks at, and a supplier that holds what the run says
/// sends what these facts have, or tells their problem (X.525, sections 9 to 12).
pub fn coursing()
    ensures blocks { BlocksAreCourses }
    ensures supplies { SuppliesAreFacts }
{}
