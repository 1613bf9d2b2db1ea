//! The types of messages of shadowing (X.525, X.519), with numbers of this project's own where the standards' aren't used.

use crate::form::{
    Alternative, Codes, Component, Content, Given, Leaf, Letters, Named, Numbers, Presence, Rule,
};
use crate::macros::{choice, component, universal};

pub(crate) const DISP_MESSAGE: &[Alternative] = &[
    choice!(
        1,
        Content::Sequence(&[
            component!(
                None,
                Named::NumberBelow(0, 4_294_967_295),
                Presence::Required
            ),
            component!(
                None,
                Named::AnyNumber,
                Presence::Code(Codes::ShadowOperations)
            )
        ])
    ),
    choice!(
        2,
        Content::Sequence(&[
            component!(
                None,
                Named::NumberBelow(0, 4_294_967_295),
                Presence::Required
            ),
            component!(None, Named::DispResult, Presence::Required)
        ])
    ),
    choice!(
        3,
        Content::Sequence(&[
            component!(
                None,
                Named::NumberBelow(0, 4_294_967_295),
                Presence::Required
            ),
            component!(None, Named::AnyNumber, Presence::Code(Codes::ShadowErrors))
        ])
    ),
];

pub(crate) const DISP_RESULT: &[Alternative] = &[universal!(
    16,
    Content::Sequence(&[component!(None, Named::AnyNumber, Presence::Code(Codes::ShadowResults))]),
    Rule::Any
)];

pub(crate) const SHADOW_ERROR: &[Alternative] = &[universal!(
    16,
    Content::Sequence(&[
        component!(None, Named::NumberBelow(1, 11), Presence::Required),
        component!(Some(0), Named::Time, Presence::Default(Given::Vacant)),
        component!(Some(1), Named::Time, Presence::Default(Given::Vacant))
    ]),
    Rule::Any
)];

pub(crate) const AGREEMENT: &[Alternative] = &[universal!(
    2,
    Content::Primitive(Leaf::Number(Numbers::FromTo(0, 4_294_967_295))),
    Rule::Any
)];

pub(crate) const SHADOW_ARGUMENT: &[Alternative] = &[universal!(
    16,
    Content::Sequence(&[
        component!(None, Named::Agreement, Presence::Required),
        component!(Some(0), Named::Time, Presence::Default(Given::Vacant)),
        component!(None, Named::Enumeration(1, 2), Presence::Required)
    ]),
    Rule::Any
)];

pub(crate) const UPDATE_ARGUMENT: &[Alternative] = &[universal!(
    16,
    Content::Sequence(&[
        component!(None, Named::Agreement, Presence::Required),
        component!(None, Named::Time, Presence::Required),
        component!(None, Named::Refresh, Presence::Required)
    ]),
    Rule::Any
)];

pub(crate) const REFRESH: &[Alternative] = &[
    universal!(5, Content::Primitive(Leaf::Null), Rule::Any),
    choice!(0, Content::Explicit(Named::Total)),
    choice!(1, Content::Explicit(Named::Steps)),
];

pub(crate) const TOTAL: &[Alternative] = &[universal!(
    16,
    Content::Sequence(&[
        component!(None, Named::Entries, Presence::Required),
        component!(None, Named::Knowns, Presence::Required),
        component!(None, Named::NonSpecifics, Presence::Required)
    ]),
    Rule::Any
)];

pub(crate) const ENTRIES: &[Alternative] = &[universal!(
    16,
    Content::Members(Named::Entry),
    Rule::Any
)];

pub(crate) const ENTRY: &[Alternative] = &[universal!(
    16,
    Content::Sequence(&[
        component!(None, Named::Name, Presence::Required),
        component!(None, Named::Boolean, Presence::Default(Given::Flag(true))),
        component!(None, Named::Attributes, Presence::Required)
    ]),
    Rule::Entry
)];

pub(crate) const KNOWNS: &[Alternative] = &[universal!(
    16,
    Content::Members(Named::Known),
    Rule::Any
)];

pub(crate) const KNOWN: &[Alternative] = &[universal!(
    16,
    Content::Sequence(&[
        component!(None, Named::Name, Presence::Required),
        component!(None, Named::WorldAgents, Presence::Required)
    ]),
    Rule::Known
)];

pub(crate) const NON_SPECIFICS: &[Alternative] = &[universal!(
    16,
    Content::Members(Named::NonSpecific),
    Rule::Any
)];

pub(crate) const NON_SPECIFIC: &[Alternative] = &[universal!(
    16,
    Content::Sequence(&[
        component!(None, Named::Name, Presence::Required),
        component!(None, Named::WorldAgents, Presence::Required)
    ]),
    Rule::Masters
)];

pub(crate) const WORLD_AGENTS: &[Alternative] = &[universal!(
    16,
    Content::Members(Named::WorldAgent),
    Rule::Any
)];

pub(crate) const WORLD_AGENT: &[Alternative] = &[universal!(
    16,
    Content::Sequence(&[
        component!(None, Named::WorldAgentName, Presence::Required),
        component!(None, Named::Boolean, Presence::Default(Given::Flag(false)))
    ]),
    Rule::Any
)];

pub(crate) const STEPS: &[Alternative] = &[universal!(
    16,
    Content::Members(Named::Step),
    Rule::Any
)];

pub(crate) const STEP: &[Alternative] = &[
    choice!(0, Content::Explicit(Named::Entry)),
    choice!(1, Content::Explicit(Named::Name)),
    choice!(2, Content::Explicit(Named::Entry)),
    choice!(3, Content::Explicit(Named::Renamed)),
];

pub(crate) const RENAMED: &[Alternative] = &[universal!(
    16,
    Content::Sequence(&[
        component!(None, Named::Name, Presence::Required),
        component!(None, Named::Entry, Presence::Required)
    ]),
    Rule::Any
)];

pub(crate) const TIME: &[Alternative] = &[universal!(24, Content::Joined(Leaf::Time), Rule::Any)];

pub(crate) const WORLD_AGENT_NAME: &[Alternative] = &[universal!(
    19,
    Content::Joined(Leaf::Text(Letters::WorldAgent)),
    Rule::Any
)];
