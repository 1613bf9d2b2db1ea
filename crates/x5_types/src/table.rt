//! The types of messages (X.511, X.518, X.525, with numbers of this project's own where the standards' aren't used, and
//! RFC 4511), as `docs/FORMATS.md` shows those of X.500 in the notation of X.680.
ghost use Rattle.std.specs.Prelude.{◌≡◌};
ghost use Rattle.x5_model_typed.specs.Forms as forms;
ghost use Rattle.x5_model_typed.specs.Leaves as leaves;
ghost use Rattle.x5_model_typed.specs.Layouts as layouts;
ghost use Rattle.x5_types.specs.FormView.{choices_view, content_view, named_view};

use crate::form::{
    Alternative, BitLeaf, Choices, Codes, Component, Content, Given, Leaf, Letters, Named, Numbers,
    Presence, Rule,
};
use crate::macros::{choice, component, universal};
use crate::operations::{argument, chained, outcome};
use crate::{ldap, shadow};

const DAP_REQUEST: &[Alternative] = &[choice!(
    1,
    Content::Sequence(&[
        component!(
            None,
            Named::NumberBelow(0, 4_294_967_295),
            Presence::Required
        ),
        component!(None, Named::AnyNumber, Presence::Code(Codes::Arguments))
    ])
)];

const DAP_ANSWER: &[Alternative] = &[
    choice!(
        2,
        Content::Sequence(&[
            component!(
                None,
                Named::NumberBelow(0, 4_294_967_295),
                Presence::Required
            ),
            component!(None, Named::DapResult, Presence::Required)
        ])
    ),
    choice!(
        3,
        Content::Sequence(&[
            component!(
                None,
                Named::NumberBelow(0, 4_294_967_295),
                Presence::Required
            ),
            component!(None, Named::AnyNumber, Presence::Code(Codes::DapErrors))
        ])
    ),
];

const DSP_REQUEST: &[Alternative] = &[choice!(
    1,
    Content::Sequence(&[
        component!(
            None,
            Named::NumberBelow(0, 4_294_967_295),
            Presence::Required
        ),
        component!(
            None,
            Named::AnyNumber,
            Presence::Code(Codes::ChainedArguments)
        )
    ])
)];

const DSP_ANSWER: &[Alternative] = &[
    choice!(
        2,
        Content::Sequence(&[
            component!(
                None,
                Named::NumberBelow(0, 4_294_967_295),
                Presence::Required
            ),
            component!(None, Named::DspResult, Presence::Required)
        ])
    ),
    choice!(
        3,
        Content::Sequence(&[
            component!(
                None,
                Named::NumberBelow(0, 4_294_967_295),
                Presence::Required
            ),
            component!(None, Named::AnyNumber, Presence::Code(Codes::DspErrors))
        ])
    ),
];

const DAP_RESULT: &[Alternative] = &[universal!(
    16,
    Content::Sequence(&[component!(None, Named::AnyNumber, Presence::Code(Codes::Outcomes))]),
    Rule::Any
)];

const ANY_NUMBER: &[Alternative] = &[universal!(
    2,
    Content::Primitive(Leaf::Number(Numbers::Any)),
    Rule::Any
)];

const BOOLEAN: &[Alternative] = &[universal!(1, Content::Primitive(Leaf::Boolean), Rule::Any)];

const NULL: &[Alternative] = &[universal!(5, Content::Primitive(Leaf::Null), Rule::Any)];

const ANY_OID: &[Alternative] = &[universal!(6, Content::Primitive(Leaf::Oid), Rule::Any)];

const VALUE: &[Alternative] = &[
    universal!(6, Content::Primitive(Leaf::ShortOid), Rule::Any),
    universal!(4, Content::Joined(Leaf::Octets), Rule::Any),
    universal!(16, Content::Members(Named::Rdn), Rule::Name),
    universal!(
        19,
        Content::Joined(Leaf::Text(Letters::Printable)),
        Rule::Any
    ),
    universal!(28, Content::Joined(Leaf::Universal), Rule::Any),
    universal!(18, Content::Joined(Leaf::Text(Letters::Numeric)), Rule::Any),
    universal!(
        22,
        Content::Joined(Leaf::Text(Letters::SevenBit)),
        Rule::Any
    ),
];

const PART: &[Alternative] = &[
    universal!(
        19,
        Content::Joined(Leaf::Text(Letters::Printable)),
        Rule::Any
    ),
    universal!(28, Content::Joined(Leaf::Universal), Rule::Any),
    universal!(18, Content::Joined(Leaf::Text(Letters::Numeric)), Rule::Any),
    universal!(
        22,
        Content::Joined(Leaf::Text(Letters::SevenBit)),
        Rule::Any
    ),
    universal!(6, Content::Primitive(Leaf::ShortOid), Rule::Text),
    universal!(4, Content::Joined(Leaf::Octets), Rule::Text),
    universal!(16, Content::Members(Named::Rdn), Rule::Text),
];

const AGENT_NAME: &[Alternative] = &[universal!(
    19,
    Content::Joined(Leaf::Text(Letters::Agent)),
    Rule::Any
)];

const OPTIONS: &[Alternative] = &[universal!(3, Content::JoinedBits(BitLeaf::Options), Rule::Any)];

const REF_TYPE: &[Alternative] = &[universal!(
    2,
    Content::Primitive(Leaf::Number(Numbers::RefType)),
    Rule::Any
)];

const NAME: &[Alternative] = &[universal!(16, Content::Members(Named::Rdn), Rule::Name)];

const RDN: &[Alternative] = &[universal!(17, Content::Members(Named::Pair), Rule::Rdn)];

const RDNS: &[Alternative] = &[universal!(16, Content::Members(Named::Rdn), Rule::Any)];

const PAIR: &[Alternative] = &[universal!(
    16,
    Content::Sequence(&[
        component!(None, Named::AnyOid, Presence::Required),
        component!(None, Named::Value, Presence::Required)
    ]),
    Rule::Pair
)];

const ATTRIBUTE: &[Alternative] = &[universal!(
    16,
    Content::Sequence(&[
        component!(None, Named::AnyOid, Presence::Required),
        component!(None, Named::Values, Presence::Required)
    ]),
    Rule::Any
)];

const ATTRIBUTES: &[Alternative] = &[universal!(17, Content::Members(Named::Attribute), Rule::Any)];

const VALUES: &[Alternative] = &[universal!(17, Content::Members(Named::Value), Rule::Some)];

const TYPE_LIST: &[Alternative] = &[universal!(17, Content::Members(Named::AnyOid), Rule::Any)];

const SELECTION: &[Alternative] = &[universal!(
    17,
    Content::Set(&[component!(Some(1), Named::TypeList, Presence::Default(Given::Vacant))]),
    Rule::Any
)];

const CONTROLS: &[Alternative] = &[universal!(
    17,
    Content::Set(&[
        component!(Some(0), Named::Options, Presence::Default(Given::NoOptions)),
        component!(Some(1), Named::AnyNumber, Presence::Default(Given::Vacant)),
        component!(Some(2), Named::AnyNumber, Presence::Default(Given::Vacant)),
        component!(
            Some(3),
            Named::NumberBelow(0, 4_294_967_295),
            Presence::Default(Given::Vacant)
        )
    ]),
    Rule::Controls
)];

const ASSERTION: &[Alternative] = &[universal!(
    16,
    Content::Sequence(&[
        component!(None, Named::AnyOid, Presence::Required),
        component!(None, Named::Value, Presence::Required)
    ]),
    Rule::Any
)];

const CHANGES: &[Alternative] = &[universal!(16, Content::Members(Named::Change), Rule::Any)];

const CHANGE: &[Alternative] = &[
    choice!(0, Content::Explicit(Named::Attribute)),
    choice!(1, Content::Explicit(Named::AnyOid)),
    choice!(2, Content::Explicit(Named::Attribute)),
    choice!(3, Content::Explicit(Named::Attribute)),
];

const ITEM: &[Alternative] = &[
    choice!(0, Content::Explicit(Named::Assertion)),
    choice!(1, Content::Explicit(Named::Substrings)),
    choice!(2, Content::Explicit(Named::Assertion)),
    choice!(3, Content::Explicit(Named::Assertion)),
    choice!(4, Content::Explicit(Named::AnyOid)),
    choice!(5, Content::Explicit(Named::Assertion)),
];

const SUBSTRINGS: &[Alternative] = &[universal!(
    16,
    Content::Sequence(&[
        component!(None, Named::AnyOid, Presence::Required),
        component!(None, Named::Parts, Presence::Required)
    ]),
    Rule::Any
)];

const PARTS: &[Alternative] = &[universal!(16, Content::Members(Named::PlacedPart), Rule::Parts)];

const PLACED_PART: &[Alternative] = &[
    choice!(0, Content::Explicit(Named::Part)),
    choice!(1, Content::Explicit(Named::Part)),
    choice!(2, Content::Explicit(Named::Part)),
];

const CHAINING: &[Alternative] = &[universal!(
    17,
    Content::Set(&[
        component!(Some(0), Named::Name, Presence::Required),
        component!(Some(1), Named::Progress, Presence::Required),
        component!(Some(2), Named::Trace, Presence::Required),
        component!(Some(3), Named::RefType, Presence::Required),
        component!(Some(4), Named::Rdns, Presence::Default(Given::Nothing))
    ]),
    Rule::Any
)];

const TRACE: &[Alternative] = &[universal!(16, Content::Members(Named::TraceItem), Rule::Trace)];

const PROGRESS: &[Alternative] = &[universal!(
    16,
    Content::Sequence(&[
        component!(None, Named::Enumeration(1, 3), Presence::Required),
        component!(
            None,
            Named::NumberBelow(1, 16),
            Presence::Default(Given::Vacant)
        )
    ]),
    Rule::Progress
)];

const TRACE_ITEM: &[Alternative] = &[universal!(
    16,
    Content::Sequence(&[
        component!(None, Named::AgentName, Presence::Required),
        component!(None, Named::Name, Presence::Required),
        component!(None, Named::Progress, Presence::Required),
        component!(None, Named::Boolean, Presence::Default(Given::Flag(false)))
    ]),
    Rule::Any
)];

const AGENTS: &[Alternative] = &[universal!(16, Content::Members(Named::Agent), Rule::Any)];

const AGENT: &[Alternative] = &[universal!(
    16,
    Content::Sequence(&[
        component!(None, Named::AgentName, Presence::Required),
        component!(None, Named::Boolean, Presence::Default(Given::Flag(false)))
    ]),
    Rule::Any
)];

const REFERENCE: &[Alternative] = &[universal!(
    17,
    Content::Set(&[
        component!(Some(0), Named::Name, Presence::Required),
        component!(Some(1), Named::Progress, Presence::Required),
        component!(Some(2), Named::RefType, Presence::Required),
        component!(Some(3), Named::Agents, Presence::Required),
        component!(Some(4), Named::Rdns, Presence::Default(Given::Nothing)),
        component!(
            Some(5),
            Named::Boolean,
            Presence::Default(Given::Flag(false))
        )
    ]),
    Rule::Any
)];

const REFERENCES: &[Alternative] = &[universal!(16, Content::Members(Named::Reference), Rule::Any)];

const SOURCE: &[Alternative] = &[universal!(
    16,
    Content::Sequence(&[
        component!(None, Named::Name, Presence::Required),
        component!(None, Named::AgentName, Presence::Required),
        component!(
            None,
            Named::NumberBelow(0, 4_294_967_295),
            Presence::Default(Given::Vacant)
        )
    ]),
    Rule::Any
)];

const SOURCES: &[Alternative] = &[universal!(16, Content::Members(Named::Source), Rule::Any)];

const ENTRY_INFO: &[Alternative] = &[universal!(
    16,
    Content::Sequence(&[
        component!(None, Named::Name, Presence::Required),
        component!(None, Named::Boolean, Presence::Default(Given::Flag(true))),
        component!(None, Named::Attributes, Presence::Required)
    ]),
    Rule::Any
)];

const ENTRY_INFOS: &[Alternative] = &[universal!(
    16,
    Content::Members(Named::EntryInfo),
    Rule::Any
)];

const SUB: &[Alternative] = &[universal!(
    16,
    Content::Sequence(&[
        component!(None, Named::Rdn, Presence::Required),
        component!(None, Named::Boolean, Presence::Default(Given::Flag(true)))
    ]),
    Rule::Any
)];

const SUBS: &[Alternative] = &[universal!(16, Content::Members(Named::Sub), Rule::Any)];

const QUALIFIER: &[Alternative] = &[universal!(
    17,
    Content::Set(&[
        component!(
            Some(0),
            Named::NumberBelow(1, 1),
            Presence::Default(Given::Vacant)
        ),
        component!(
            Some(1),
            Named::References,
            Presence::Default(Given::Nothing)
        )
    ]),
    Rule::Any
)];

const ATTRIBUTE_ERROR: &[Alternative] = &[universal!(
    16,
    Content::Sequence(&[
        component!(None, Named::NumberBelow(1, 6), Presence::Required),
        component!(None, Named::AnyOid, Presence::Required)
    ]),
    Rule::Any
)];

const NAME_ERROR: &[Alternative] = &[universal!(
    16,
    Content::Sequence(&[
        component!(None, Named::NumberBelow(1, 1), Presence::Required),
        component!(None, Named::Name, Presence::Required)
    ]),
    Rule::Any
)];

const SERVICE_ERROR: &[Alternative] = &[universal!(
    16,
    Content::Sequence(&[
        component!(None, Named::NumberBelow(1, 12), Presence::Required),
        component!(Some(0), Named::Reference, Presence::Default(Given::Vacant)),
        component!(Some(1), Named::TraceItem, Presence::Default(Given::Vacant))
    ]),
    Rule::Any
)];

const UPDATE_ERROR: &[Alternative] = &[universal!(
    16,
    Content::Sequence(&[component!(None, Named::NumberBelow(1, 7), Presence::Required)]),
    Rule::Any
)];

/// What a string's segments are (X.690, 8.7.3.2).
pub const SEGMENT: &[Alternative] = &[universal!(4, Content::Joined(Leaf::Segment), Rule::Any)];
/// What a bit string's segments are (X.690, 8.6.4.2).
pub const BIT_SEGMENT: &[Alternative] = &[universal!(
    3,
    Content::JoinedBits(BitLeaf::Segment),
    Rule::Any
)];

fn numbers(low: u32, high: u32) -> Content
    ensures { (w : layouts.Surroundings) → content_view w result ≡ forms.Primitive (leaves.number (leaves.from_to low high)) }
{
    Content::Primitive(Leaf::Number(Numbers::FromTo(low, high)))
}

/// What the type is, in whatever surroundings: the elements that are values of it.
pub fn layout(form: Named) -> Choices
    ensures { (w : layouts.Surroundings) → choices_view w result ≡ layouts.layout w (named_view form) }
{
    match form {
        Named::Filter(levels) => Choices::Filter(levels),
        Named::Filters(levels) => Choices::One(universal!(
            17,
            Content::Members(Named::Filter(levels)),
            Rule::Any
        )),
        Named::NumberBelow(low, high) => Choices::One(universal!(2, numbers(low, high), Rule::Any)),
        Named::Enumeration(low, high) => Choices::One(universal!(
            10,
            numbers(low, high),
            Rule::Any
        )),
        Named::Argument(operation) => Choices::Listed(argument(operation)),
        Named::Chained(operation) => Choices::Listed(chained(operation)),
        Named::Outcome(operation) => Choices::Listed(outcome(operation)),
        Named::DapRequest => Choices::Listed(DAP_REQUEST),
        Named::DapAnswer => Choices::Listed(DAP_ANSWER),
        Named::DspRequest => Choices::Listed(DSP_REQUEST),
        Named::DspAnswer => Choices::Listed(DSP_ANSWER),
        Named::DapResult | Named::DspResult => Choices::Listed(DAP_RESULT),
        Named::AnyNumber => Choices::Listed(ANY_NUMBER),
        Named::Boolean => Choices::Listed(BOOLEAN),
        Named::Null => Choices::Listed(NULL),
        Named::AnyOid => Choices::Listed(ANY_OID),
        Named::Value => Choices::Listed(VALUE),
        Named::Part => Choices::Listed(PART),
        Named::AgentName => Choices::Listed(AGENT_NAME),
        Named::Options => Choices::Listed(OPTIONS),
        Named::RefType => Choices::Listed(REF_TYPE),
        Named::Name => Choices::Listed(NAME),
        Named::Rdn => Choices::Listed(RDN),
        Named::Rdns => Choices::Listed(RDNS),
        Named::Pair => Choices::Listed(PAIR),
        Named::Attribute => Choices::Listed(ATTRIBUTE),
        Named::Attributes => Choices::Listed(ATTRIBUTES),
        Named::Values => Choices::Listed(VALUES),
        Named::TypeList => Choices::Listed(TYPE_LIST),
        Named::Selection => Choices::Listed(SELECTION),
        Named::Controls => Choices::Listed(CONTROLS),
        Named::Assertion => Choices::Listed(ASSERTION),
        Named::Changes => Choices::Listed(CHANGES),
        Named::Change => Choices::Listed(CHANGE),
        Named::Item => Choices::Listed(ITEM),
        Named::Substrings => Choices::Listed(SUBSTRINGS),
        Named::Parts => Choices::Listed(PARTS),
        Named::PlacedPart => Choices::Listed(PLACED_PART),
        Named::Chaining => Choices::Listed(CHAINING),
        Named::Progress => Choices::Listed(PROGRESS),
        Named::Trace => Choices::Listed(TRACE),
        Named::TraceItem => Choices::Listed(TRACE_ITEM),
        Named::Agents => Choices::Listed(AGENTS),
        Named::Agent => Choices::Listed(AGENT),
        Named::Reference => Choices::Listed(REFERENCE),
        Named::References => Choices::Listed(REFERENCES),
        Named::Source => Choices::Listed(SOURCE),
        Named::Sources => Choices::Listed(SOURCES),
        Named::EntryInfo => Choices::Listed(ENTRY_INFO),
        Named::EntryInfos => Choices::Listed(ENTRY_INFOS),
        Named::Sub => Choices::Listed(SUB),
        Named::Subs => Choices::Listed(SUBS),
        Named::Qualifier => Choices::Listed(QUALIFIER),
        Named::AttributeError => Choices::Listed(ATTRIBUTE_ERROR),
        Named::NameError => Choices::Listed(NAME_ERROR),
        Named::ServiceError => Choices::Listed(SERVICE_ERROR),
        Named::UpdateError => Choices::Listed(UPDATE_ERROR),
        Named::DispMessage => Choices::Listed(shadow::DISP_MESSAGE),
        Named::DispResult => Choices::Listed(shadow::DISP_RESULT),
        Named::Time => Choices::Listed(shadow::TIME),
        Named::ShadowError => Choices::Listed(shadow::SHADOW_ERROR),
        Named::Agreement => Choices::Listed(shadow::AGREEMENT),
        Named::ShadowArgument => Choices::Listed(shadow::SHADOW_ARGUMENT),
        Named::UpdateArgument => Choices::Listed(shadow::UPDATE_ARGUMENT),
        Named::Refresh => Choices::Listed(shadow::REFRESH),
        Named::Total => Choices::Listed(shadow::TOTAL),
        Named::Entries => Choices::Listed(shadow::ENTRIES),
        Named::Entry => Choices::Listed(shadow::ENTRY),
        Named::Knowns => Choices::Listed(shadow::KNOWNS),
        Named::Known => Choices::Listed(shadow::KNOWN),
        Named::NonSpecifics => Choices::Listed(shadow::NON_SPECIFICS),
        Named::NonSpecific => Choices::Listed(shadow::NON_SPECIFIC),
        Named::WorldAgents => Choices::Listed(shadow::WORLD_AGENTS),
        Named::WorldAgent => Choices::Listed(shadow::WORLD_AGENT),
        Named::WorldAgentName => Choices::Listed(shadow::WORLD_AGENT_NAME),
        Named::Steps => Choices::Listed(shadow::STEPS),
        Named::Step => Choices::Listed(shadow::STEP),
        Named::Renamed => Choices::Listed(shadow::RENAMED),
        Named::LdapMessage => Choices::Listed(ldap::MESSAGE),
        Named::LdapResponse => Choices::Listed(ldap::RESPONSE),
        Named::LdapOperation => Choices::Listed(ldap::OPERATION),
        Named::LdapAnswer => Choices::Listed(ldap::ANSWER),
        Named::LdapString => Choices::Listed(ldap::STRING),
        Named::LdapStrings => Choices::Listed(ldap::STRINGS),
        Named::LdapValues => Choices::Listed(ldap::VALUES),
        Named::LdapSomeValues => Choices::Listed(ldap::SOME_VALUES),
        Named::LdapAttribute => Choices::Listed(ldap::ATTRIBUTE),
        Named::LdapShown => Choices::Listed(ldap::SHOWN),
        Named::LdapNewAttribute => Choices::Listed(ldap::NEW_ATTRIBUTE),
        Named::LdapNewAttributes => Choices::Listed(ldap::NEW_ATTRIBUTES),
        Named::LdapChange => Choices::Listed(ldap::CHANGE),
        Named::LdapChanges => Choices::Listed(ldap::CHANGES),
        Named::LdapAssertion => Choices::Listed(ldap::ASSERTION),
        Named::LdapFilter => Choices::Listed(ldap::FILTER),
        Named::LdapPiece => Choices::Listed(ldap::PIECE),
        Named::LdapPieces => Choices::Listed(ldap::PIECES),
        Named::LdapAuthentication => Choices::Listed(ldap::AUTHENTICATION),
        Named::LdapSuperior => Choices::Listed(ldap::SUPERIOR),
        Named::LdapExtension => Choices::Listed(ldap::EXTENSION),
        Named::LdapExtensionValue => Choices::Listed(ldap::EXTENSION_VALUE),
        Named::LdapMatchingRule => Choices::Listed(ldap::MATCHING_RULE),
        Named::LdapMatchedType => Choices::Listed(ldap::MATCHED_TYPE),
        Named::LdapMatchedValue => Choices::Listed(ldap::MATCHED_VALUE),
        Named::LdapMatchesNames => Choices::Listed(ldap::MATCHES_NAMES),
        Named::LdapControl => Choices::Listed(ldap::CONTROL),
        Named::LdapControls => Choices::Listed(ldap::CONTROLS),
    }
}
