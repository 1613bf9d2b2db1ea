//! Operation and error codes (X.511, X.518, X.525), with numbers of this project's own where the standards' aren't used.
ghost use Rattle.std.specs.Prelude.{◌≡◌, MatchOption, None, Some};
ghost use Rattle.x5_model_typed.specs.Layouts as layouts;
ghost use Rattle.x5_model_typed.specs.Named as named;
ghost use Rattle.x5_types.specs.FormView.{codes_view, named_view, operation_view};

use crate::form::{Codes, Named, Operation};

impl Codes {
    /// The type that a number names; None of a number that is no code.
    pub fn named(self, number: i64) -> Option<Named>
        ensures { MatchOption result
            (codes_view self number ≡ None)
            (λ form. codes_view self number ≡ Some (named_view form)) }
    {
        match self {
            Codes::Arguments => match operation(number) {
                Some(operation) => Some(Named::Argument(operation)),
                None => None,
            },
            Codes::ChainedArguments => match operation(number) {
                Some(operation) => Some(Named::Chained(operation)),
                None => None,
            },
            Codes::Outcomes => match operation(number) {
                Some(operation) => Some(Named::Outcome(operation)),
                None => None,
            },
            Codes::DapErrors => match number {
                1 => Some(Named::AttributeError),
                2 => Some(Named::NameError),
                3 => Some(Named::ServiceError),
                4 => Some(Named::Reference),
                8 => Some(Named::UpdateError),
                _ => None,
            },
            Codes::DspErrors => match number {
                1 => Some(Named::AttributeError),
                2 => Some(Named::NameError),
                3 => Some(Named::ServiceError),
                8 => Some(Named::UpdateError),
                9 => Some(Named::Reference),
                _ => None,
            },
            Codes::ShadowOperations => match number {
                1 | 3 => Some(Named::ShadowArgument),
                2 => Some(Named::UpdateArgument),
                _ => None,
            },
            Codes::ShadowResults => match number {
                1 | 2 | 3 => Some(Named::Null),
                _ => None,
            },
            Codes::ShadowErrors => match number {
                1 => Some(Named::ShadowError),
                _ => None,
            },
        }
    }
}

fn operation(number: i64) -> Option<Operation>
    ensures argument { MatchOption result
        (layouts.named_by (layouts.operation_codes named.Argument) number ≡ None)
        (λ op. layouts.named_by (layouts.operation_codes named.Argument) number ≡ Some (named.Argument (operation_view op))) }
    ensures chained { MatchOption result
        (layouts.named_by (layouts.operation_codes named.Chained) number ≡ None)
        (λ op. layouts.named_by (layouts.operation_codes named.Chained) number ≡ Some (named.Chained (operation_view op))) }
    ensures outcome { MatchOption result
        (layouts.named_by (layouts.operation_codes named.Outcome) number ≡ None)
        (λ op. layouts.named_by (layouts.operation_codes named.Outcome) number ≡ Some (named.Outcome (operation_view op))) }
{
    match number {
        1 => Some(Operation::Read),
        2 => Some(Operation::Compare),
        4 => Some(Operation::ListBelow),
        5 => Some(Operation::Search),
        6 => Some(Operation::AddEntry),
        7 => Some(Operation::RemoveEntry),
        8 => Some(Operation::ModifyEntry),
        9 => Some(Operation::ModifyDn),
        _ => None,
    }
}
