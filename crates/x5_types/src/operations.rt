//! Arguments and results of operations (X.511, X.518).
ghost use Rattle.std.specs.Prelude.{◌≡◌};
ghost use Rattle.x5_model_typed.specs.Layouts as layouts;
ghost use Rattle.x5_model_typed.specs.Named as named;
ghost use Rattle.x5_types.specs.FormView.{operation_view, types_view};

use crate::form::{Alternative, Component, Content, Given, Leaf, Named, Operation, Presence, Rule};
use crate::macros::{component, universal};

macro_rules! chained {
    ($operation:expr) => {
        &[universal!(
            16,
            Content::Sequence(&[
                component!(None, Named::Chaining, Presence::Required),
                component!(None, Named::Argument($operation), Presence::Required)
            ]),
            Rule::Any
        )]
    };
}

const READ_ARGUMENT: &[Alternative] = &[universal!(
    17,
    Content::Set(&[
        component!(Some(0), Named::Name, Presence::Required),
        component!(
            Some(1),
            Named::Selection,
            Presence::Default(Given::AllAttributes)
        ),
        component!(
            Some(30),
            Named::Controls,
            Presence::Default(Given::NoControls)
        )
    ]),
    Rule::Any
)];

const COMPARE_ARGUMENT: &[Alternative] = &[universal!(
    17,
    Content::Set(&[
        component!(Some(0), Named::Name, Presence::Required),
        component!(Some(1), Named::Assertion, Presence::Required),
        component!(
            Some(30),
            Named::Controls,
            Presence::Default(Given::NoControls)
        )
    ]),
    Rule::Any
)];

const LIST_BELOW_ARGUMENT: &[Alternative] = &[universal!(
    17,
    Content::Set(&[
        component!(Some(0), Named::Name, Presence::Required),
        component!(
            Some(30),
            Named::Controls,
            Presence::Default(Given::NoControls)
        )
    ]),
    Rule::Any
)];

const SEARCH_ARGUMENT: &[Alternative] = &[universal!(
    17,
    Content::Set(&[
        component!(Some(0), Named::Name, Presence::Required),
        component!(
            Some(1),
            Named::NumberBelow(0, 2),
            Presence::Default(Given::Zero)
        ),
        component!(
            Some(2),
            Named::Filter(16),
            Presence::Default(Given::Everything)
        ),
        component!(
            Some(4),
            Named::Selection,
            Presence::Default(Given::AllAttributes)
        ),
        component!(
            Some(30),
            Named::Controls,
            Presence::Default(Given::NoControls)
        )
    ]),
    Rule::Any
)];

const ADD_ENTRY_ARGUMENT: &[Alternative] = &[universal!(
    17,
    Content::Set(&[
        component!(Some(0), Named::Name, Presence::Required),
        component!(Some(1), Named::Attributes, Presence::Required),
        component!(
            Some(30),
            Named::Controls,
            Presence::Default(Given::NoControls)
        )
    ]),
    Rule::Any
)];

const REMOVE_ENTRY_ARGUMENT: &[Alternative] = &[universal!(
    17,
    Content::Set(&[
        component!(Some(0), Named::Name, Presence::Required),
        component!(
            Some(30),
            Named::Controls,
            Presence::Default(Given::NoControls)
        )
    ]),
    Rule::Any
)];

const MODIFY_ENTRY_ARGUMENT: &[Alternative] = &[universal!(
    17,
    Content::Set(&[
        component!(Some(0), Named::Name, Presence::Required),
        component!(Some(1), Named::Changes, Presence::Required),
        component!(
            Some(30),
            Named::Controls,
            Presence::Default(Given::NoControls)
        )
    ]),
    Rule::Any
)];

const MODIFY_DN_ARGUMENT: &[Alternative] = &[universal!(
    17,
    Content::Set(&[
        component!(Some(0), Named::Name, Presence::Required),
        component!(Some(1), Named::Rdn, Presence::Required),
        component!(
            Some(2),
            Named::Boolean,
            Presence::Default(Given::Flag(false))
        ),
        component!(
            Some(30),
            Named::Controls,
            Presence::Default(Given::NoControls)
        )
    ]),
    Rule::Any
)];

const CHAINED_READ: &[Alternative] = chained!(Operation::Read);

const CHAINED_COMPARE: &[Alternative] = chained!(Operation::Compare);

const CHAINED_LIST_BELOW: &[Alternative] = chained!(Operation::ListBelow);

const CHAINED_SEARCH: &[Alternative] = chained!(Operation::Search);

const CHAINED_ADD_ENTRY: &[Alternative] = chained!(Operation::AddEntry);

const CHAINED_REMOVE_ENTRY: &[Alternative] = chained!(Operation::RemoveEntry);

const CHAINED_MODIFY_ENTRY: &[Alternative] = chained!(Operation::ModifyEntry);

const CHAINED_MODIFY_DN: &[Alternative] = chained!(Operation::ModifyDn);

const READ_OUTCOME: &[Alternative] = &[universal!(
    17,
    Content::Set(&[
        component!(Some(0), Named::EntryInfo, Presence::Required),
        component!(Some(1), Named::Source, Presence::Required)
    ]),
    Rule::Any
)];

const COMPARE_OUTCOME: &[Alternative] = &[universal!(
    17,
    Content::Set(&[
        component!(Some(0), Named::Boolean, Presence::Required),
        component!(
            Some(1),
            Named::Boolean,
            Presence::Default(Given::Flag(true))
        ),
        component!(Some(2), Named::Source, Presence::Required)
    ]),
    Rule::Any
)];

const LIST_BELOW_OUTCOME: &[Alternative] = &[universal!(
    17,
    Content::Set(&[
        component!(Some(0), Named::Subs, Presence::Required),
        component!(Some(1), Named::Sources, Presence::Required),
        component!(
            Some(2),
            Named::Qualifier,
            Presence::Default(Given::NoQualifier)
        )
    ]),
    Rule::Any
)];

const SEARCH_OUTCOME: &[Alternative] = &[universal!(
    17,
    Content::Set(&[
        component!(Some(0), Named::EntryInfos, Presence::Required),
        component!(Some(1), Named::Sources, Presence::Required),
        component!(
            Some(2),
            Named::Qualifier,
            Presence::Default(Given::NoQualifier)
        )
    ]),
    Rule::Any
)];

const NO_OUTCOME: &[Alternative] = &[universal!(5, Content::Primitive(Leaf::Null), Rule::Any)];

pub(crate) fn argument(operation: Operation) -> &'static [Alternative]
    ensures { (w : layouts.Surroundings) → types_view w result.now ≡ layouts.is (layouts.set (layouts.argument (operation_view operation))) }
{
    match operation {
        Operation::Read => READ_ARGUMENT,
        Operation::Compare => COMPARE_ARGUMENT,
        Operation::ListBelow => LIST_BELOW_ARGUMENT,
        Operation::Search => SEARCH_ARGUMENT,
        Operation::AddEntry => ADD_ENTRY_ARGUMENT,
        Operation::RemoveEntry => REMOVE_ENTRY_ARGUMENT,
        Operation::ModifyEntry => MODIFY_ENTRY_ARGUMENT,
        Operation::ModifyDn => MODIFY_DN_ARGUMENT,
    }
}

pub(crate) fn chained(operation: Operation) -> &'static [Alternative]
    ensures { (w : layouts.Surroundings) → types_view w result.now ≡ layouts.layout w (named.Chained (operation_view operation)) }
{
    match operation {
        Operation::Read => CHAINED_READ,
        Operation::Compare => CHAINED_COMPARE,
        Operation::ListBelow => CHAINED_LIST_BELOW,
        Operation::Search => CHAINED_SEARCH,
        Operation::AddEntry => CHAINED_ADD_ENTRY,
        Operation::RemoveEntry => CHAINED_REMOVE_ENTRY,
        Operation::ModifyEntry => CHAINED_MODIFY_ENTRY,
        Operation::ModifyDn => CHAINED_MODIFY_DN,
    }
}

pub(crate) fn outcome(operation: Operation) -> &'static [Alternative]
    ensures { (w : layouts.Surroundings) → types_view w result.now ≡ layouts.is (layouts.outcome (operation_view operation)) }
{
    match operation {
        Operation::Read => READ_OUTCOME,
        Operation::Compare => COMPARE_OUTCOME,
        Operation::ListBelow => LIST_BELOW_OUTCOME,
        Operation::Search => SEARCH_OUTCOME,
        Operation::AddEntry
        | Operation::RemoveEntry
        | Operation::ModifyEntry
        | Operation::ModifyDn => NO_OUTCOME,
    }
}
