//! Words of the output, each for a number or a variant; a number that stands for nothing has no word.

ghost use Rattle.std.specs.Prelude.{◌≡◌, codes, not};
ghost use Rattle.x5_model_output.specs.Output as print;
ghost use Rattle.x5_ops.specs.JournalViews.{fate_view, code_view};
ghost use Rattle.x5_ops.specs.ReferenceViews.{kind_view};
ghost use Rattle.x5_ops.specs.RefreshViews.{operation_view};

use x5_ops::{Fate, Operation, RefType, ShadowOperation};

/// The operation's word in a script.
pub(crate) fn operation_word(operation: Operation) -> &'static str
    ensures { result.now ≡ print.operation_word (code_view operation) }
{
    match operation {
        Operation::Read => "read",
        Operation::Compare => "compare",
        Operation::List => "list",
        Operation::Search => "search",
        Operation::AddEntry => "add",
        Operation::RemoveEntry => "remove",
        Operation::ModifyEntry => "modify",
        Operation::ModifyDn => "move",
    }
}

/// The operation of a refresh.
pub(crate) fn shadow_operation(operation: ShadowOperation) -> &'static str
    ensures { result.now ≡ print.shadow_operation (operation_view operation) }
{
    match operation {
        ShadowOperation::RequestShadowUpdate => "requestShadowUpdate",
        ShadowOperation::UpdateShadow => "updateShadow",
        ShadowOperation::CoordinateShadowUpdate => "coordinateShadowUpdate",
    }
}

/// What became of a message.
pub(crate) fn fate_word(fate: Fate) -> &'static str
    ensures { result.now ≡ print.fate_word (fate_view fate) }
{
    match fate {
        Fate::Lost => "lost",
        Fate::NoReply => "noreply",
        Fate::Sent => "sent",
    }
}

/// The kind of a reference.
pub(crate) fn kind_word(kind: RefType) -> &'static str
    ensures { result.now ≡ print.kind_word (kind_view kind) }
{
    match kind {
        RefType::Superior => "superior",
        RefType::Subordinate => "subordinate",
        RefType::Cross => "cross",
        RefType::NonSpecific => "nonSpecific",
        RefType::Supplier => "supplier",
        RefType::Own => "self",
    }
}

/// The problem of an attribute error.
pub(crate) fn attribute_problem(problem: u8) -> &'static str
    ensures { result.now ≡ print.attribute_problem problem }
{
    match problem {
        1 => "noSuchAttributeOrValue",
        2 => "invalidAttributeSyntax",
        3 => "undefinedAttributeType",
        4 => "inappropriateMatching",
        5 => "constraintViolation",
        6 => "attributeOrValueAlreadyExists",
        _ => "",
    }
}

/// The problem of an update error.
pub(crate) fn update_problem(problem: u8) -> &'static str
    ensures { result.now ≡ print.update_problem problem }
{
    match problem {
        1 => "namingViolation",
        2 => "objectClassViolation",
        3 => "notAllowedOnNonLeaf",
        4 => "notAllowedOnRDN",
        5 => "entryAlreadyExists",
        6 => "affectsMultipleDSAs",
        7 => "objectClassModificationProhibited",
        _ => "",
    }
}

/// The problem of a service error.
pub(crate) fn service_problem(problem: u8) -> &'static str
    ensures { result.now ≡ print.service_problem problem }
{
    match problem {
        1 => "busy",
        2 => "unavailable",
        3 => "unwillingToPerform",
        4 => "chainingRequired",
        5 => "unableToProceed",
        6 => "invalidReference",
        7 => "timeLimitExceeded",
        8 => "administrativeLimitExceeded",
        9 => "loopDetected",
        10 => "unavailableCriticalExtension",
        11 => "outOfScope",
        12 => "ditError",
        _ => "",
    }
}

/// The problem of a shadow error.
pub(crate) fn shadow_problem(problem: u8) -> &'static str
    ensures { result.now ≡ print.shadow_problem problem }
{
    match problem {
        1 => "invalidAgreementID",
        2 => "inactiveAgreement",
        3 => "invalidInformationReceived",
        4 => "unsupportedStrategy",
        5 => "missedPrevious",
        6 => "fullUpdateRequired",
        7 => "unwillingToPerform",
        8 => "unsuitableTiming",
        9 => "updateAlreadyReceived",
        10 => "invalidSequencing",
        11 => "insufficientResources",
        _ => "",
    }
}

/// Whether two values are equal.
pub(crate) fn truth_word(equal: bool) -> &'static str
    ensures { result.now ≡ print.truth_word equal }
{
    if equal { "true" } else { "false" }
}

/// What a line of a copy ends with.
pub(crate) fn copy_mark(copy: bool) -> &'static str
    ensures { result.now ≡ print.mark copy (codes "copy") }
{
    if copy { " copy" } else { "" }
}

/// What a reference ends with whose agents were asked in vain.
pub(crate) fn tried_mark(tried: bool) -> &'static str
    ensures { result.now ≡ print.mark tried (codes "tried") }
{
    if tried { " tried" } else { "" }
}

/// What the item of a message of the type nonSpecific ends with.
pub(crate) fn wide_mark(wide: bool) -> &'static str
    ensures { result.now ≡ print.mark wide (codes "nonSpecific") }
{
    if wide { " nonSpecific" } else { "" }
}

/// What the line of a refresh ends with, where the supplier doesn't know that it was taken.
pub(crate) fn unheard_mark(heard: bool) -> &'static str
    ensures { result.now ≡ print.mark (not heard) (codes "unacknowledged") }
{
    if heard { "" } else { " unacknowledged" }
}

/// The line that says that a size limit cut an answer.
pub(crate) fn limit_line(limited: bool) -> &'static str
    ensures { result.now ≡ print.limit_line limited }
{
    if limited {
        "limit sizeLimitExceeded\n"
    } else {
        ""
    }
}
