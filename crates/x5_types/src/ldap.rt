//! The types of messages of LDAP (RFC 4511, section 4 and appendix B).

use crate::form::{Alternative, Component, Content, Given, Leaf, Named, Numbers, Presence, Rule};
use crate::macros::{application, choice, component, context, ruled_choice, universal};

pub(crate) const MESSAGE: &[Alternative] = &[universal!(
    16,
    Content::Sequence(&[
        component!(
            None,
            Named::NumberBelow(0, 2_147_483_647),
            Presence::Required
        ),
        component!(None, Named::LdapOperation, Presence::Required),
        component!(None, Named::LdapControls, Presence::Default(Given::Nothing))
    ]),
    Rule::Any
)];

pub(crate) const RESPONSE: &[Alternative] = &[universal!(
    16,
    Content::Sequence(&[
        component!(
            None,
            Named::NumberBelow(0, 2_147_483_647),
            Presence::Required
        ),
        component!(None, Named::LdapAnswer, Presence::Required)
    ]),
    Rule::Any
)];

pub(crate) const OPERATION: &[Alternative] = &[
    application!(
        true,
        0,
        Content::Sequence(&[
            component!(None, Named::NumberBelow(1, 127), Presence::Required),
            component!(None, Named::LdapString, Presence::Required),
            component!(None, Named::LdapAuthentication, Presence::Required)
        ])
    ),
    application!(false, 2, Content::Primitive(Leaf::Null)),
    application!(
        true,
        3,
        Content::Sequence(&[
            component!(None, Named::LdapString, Presence::Required),
            component!(None, Named::Enumeration(0, 2), Presence::Required),
            component!(None, Named::Enumeration(0, 3), Presence::Required),
            component!(
                None,
                Named::NumberBelow(0, 2_147_483_647),
                Presence::Required
            ),
            component!(
                None,
                Named::NumberBelow(0, 2_147_483_647),
                Presence::Required
            ),
            component!(None, Named::Boolean, Presence::Required),
            component!(None, Named::LdapFilter, Presence::Required),
            component!(None, Named::LdapStrings, Presence::Required)
        ])
    ),
    application!(
        true,
        6,
        Content::Sequence(&[
            component!(None, Named::LdapString, Presence::Required),
            component!(None, Named::LdapChanges, Presence::Required)
        ])
    ),
    application!(
        true,
        8,
        Content::Sequence(&[
            component!(None, Named::LdapString, Presence::Required),
            component!(None, Named::LdapNewAttributes, Presence::Required)
        ])
    ),
    application!(false, 10, Content::Primitive(Leaf::AnyOctets)),
    application!(
        true,
        12,
        Content::Sequence(&[
            component!(None, Named::LdapString, Presence::Required),
            component!(None, Named::LdapString, Presence::Required),
            component!(None, Named::Boolean, Presence::Required),
            component!(None, Named::LdapSuperior, Presence::Default(Given::Vacant))
        ])
    ),
    application!(
        true,
        14,
        Content::Sequence(&[
            component!(None, Named::LdapString, Presence::Required),
            component!(None, Named::LdapAssertion, Presence::Required)
        ])
    ),
    application!(
        false,
        16,
        Content::Primitive(Leaf::Number(Numbers::FromTo(0, 2_147_483_647)))
    ),
    application!(
        true,
        23,
        Content::Sequence(&[
            component!(None, Named::LdapExtension, Presence::Required),
            component!(
                None,
                Named::LdapExtensionValue,
                Presence::Default(Given::Vacant)
            )
        ])
    ),
];

pub(crate) const ANSWER: &[Alternative] = &[
    application!(
        true,
        1,
        Content::Sequence(&[
            component!(None, Named::Enumeration(0, 80), Presence::Required),
            component!(None, Named::LdapString, Presence::Required),
            component!(None, Named::LdapString, Presence::Required)
        ])
    ),
    application!(
        true,
        4,
        Content::Sequence(&[
            component!(None, Named::LdapString, Presence::Required),
            component!(None, Named::LdapShown, Presence::Required)
        ])
    ),
    application!(
        true,
        5,
        Content::Sequence(&[
            component!(None, Named::Enumeration(0, 80), Presence::Required),
            component!(None, Named::LdapString, Presence::Required),
            component!(None, Named::LdapString, Presence::Required)
        ])
    ),
    application!(
        true,
        7,
        Content::Sequence(&[
            component!(None, Named::Enumeration(0, 80), Presence::Required),
            component!(None, Named::LdapString, Presence::Required),
            component!(None, Named::LdapString, Presence::Required)
        ])
    ),
    application!(
        true,
        9,
        Content::Sequence(&[
            component!(None, Named::Enumeration(0, 80), Presence::Required),
            component!(None, Named::LdapString, Presence::Required),
            component!(None, Named::LdapString, Presence::Required)
        ])
    ),
    application!(
        true,
        11,
        Content::Sequence(&[
            component!(None, Named::Enumeration(0, 80), Presence::Required),
            component!(None, Named::LdapString, Presence::Required),
            component!(None, Named::LdapString, Presence::Required)
        ])
    ),
    application!(
        true,
        13,
        Content::Sequence(&[
            component!(None, Named::Enumeration(0, 80), Presence::Required),
            component!(None, Named::LdapString, Presence::Required),
            component!(None, Named::LdapString, Presence::Required)
        ])
    ),
    application!(
        true,
        15,
        Content::Sequence(&[
            component!(None, Named::Enumeration(0, 80), Presence::Required),
            component!(None, Named::LdapString, Presence::Required),
            component!(None, Named::LdapString, Presence::Required)
        ])
    ),
    application!(
        true,
        24,
        Content::Sequence(&[
            component!(None, Named::Enumeration(0, 80), Presence::Required),
            component!(None, Named::LdapString, Presence::Required),
            component!(None, Named::LdapString, Presence::Required)
        ])
    ),
];

pub(crate) const STRING: &[Alternative] = &[universal!(
    4,
    Content::Primitive(Leaf::AnyOctets),
    Rule::Any
)];

pub(crate) const STRINGS: &[Alternative] = &[universal!(
    16,
    Content::Members(Named::LdapString),
    Rule::Any
)];

pub(crate) const VALUES: &[Alternative] = &[universal!(
    17,
    Content::Members(Named::LdapString),
    Rule::Any
)];

pub(crate) const SOME_VALUES: &[Alternative] = &[universal!(
    17,
    Content::Members(Named::LdapString),
    Rule::Some
)];

pub(crate) const ATTRIBUTE: &[Alternative] = &[universal!(
    16,
    Content::Sequence(&[
        component!(None, Named::LdapString, Presence::Required),
        component!(None, Named::LdapValues, Presence::Required)
    ]),
    Rule::Any
)];

pub(crate) const SHOWN: &[Alternative] = &[universal!(
    16,
    Content::Members(Named::LdapAttribute),
    Rule::Any
)];

pub(crate) const NEW_ATTRIBUTE: &[Alternative] = &[universal!(
    16,
    Content::Sequence(&[
        component!(None, Named::LdapString, Presence::Required),
        component!(None, Named::LdapSomeValues, Presence::Required)
    ]),
    Rule::Any
)];

pub(crate) const NEW_ATTRIBUTES: &[Alternative] = &[universal!(
    16,
    Content::Members(Named::LdapNewAttribute),
    Rule::Any
)];

pub(crate) const CHANGE: &[Alternative] = &[universal!(
    16,
    Content::Sequence(&[
        component!(None, Named::Enumeration(0, 2), Presence::Required),
        component!(None, Named::LdapAttribute, Presence::Required)
    ]),
    Rule::Any
)];

pub(crate) const CHANGES: &[Alternative] = &[universal!(
    16,
    Content::Members(Named::LdapChange),
    Rule::Any
)];

pub(crate) const ASSERTION: &[Alternative] = &[universal!(
    16,
    Content::Sequence(&[
        component!(None, Named::LdapString, Presence::Required),
        component!(None, Named::LdapString, Presence::Required)
    ]),
    Rule::Any
)];

pub(crate) const FILTER: &[Alternative] = &[
    ruled_choice!(0, Content::Members(Named::LdapFilter), Rule::Some),
    ruled_choice!(1, Content::Members(Named::LdapFilter), Rule::Some),
    choice!(2, Content::Explicit(Named::LdapFilter)),
    choice!(
        3,
        Content::Sequence(&[
            component!(None, Named::LdapString, Presence::Required),
            component!(None, Named::LdapString, Presence::Required)
        ])
    ),
    choice!(
        4,
        Content::Sequence(&[
            component!(None, Named::LdapString, Presence::Required),
            component!(None, Named::LdapPieces, Presence::Required)
        ])
    ),
    choice!(
        5,
        Content::Sequence(&[
            component!(None, Named::LdapString, Presence::Required),
            component!(None, Named::LdapString, Presence::Required)
        ])
    ),
    choice!(
        6,
        Content::Sequence(&[
            component!(None, Named::LdapString, Presence::Required),
            component!(None, Named::LdapString, Presence::Required)
        ])
    ),
    context!(7, Content::Primitive(Leaf::AnyOctets)),
    choice!(
        8,
        Content::Sequence(&[
            component!(None, Named::LdapString, Presence::Required),
            component!(None, Named::LdapString, Presence::Required)
        ])
    ),
    choice!(
        9,
        Content::Sequence(&[
            component!(
                None,
                Named::LdapMatchingRule,
                Presence::Default(Given::Vacant)
            ),
            component!(
                None,
                Named::LdapMatchedType,
                Presence::Default(Given::Vacant)
            ),
            component!(None, Named::LdapMatchedValue, Presence::Required),
            component!(
                None,
                Named::LdapMatchesNames,
                Presence::Default(Given::Flag(false))
            )
        ])
    ),
];

pub(crate) const PIECE: &[Alternative] = &[
    context!(0, Content::Primitive(Leaf::Placed(0))),
    context!(1, Content::Primitive(Leaf::Placed(1))),
    context!(2, Content::Primitive(Leaf::Placed(2))),
];

pub(crate) const PIECES: &[Alternative] = &[universal!(
    16,
    Content::Members(Named::LdapPiece),
    Rule::Pieces
)];

pub(crate) const AUTHENTICATION: &[Alternative] = &[
    context!(0, Content::Primitive(Leaf::AnyOctets)),
    context!(
        3,
        Content::Sequence(&[
            component!(None, Named::LdapString, Presence::Required),
            component!(None, Named::LdapString, Presence::Default(Given::Vacant))
        ])
    ),
];

pub(crate) const SUPERIOR: &[Alternative] = &[context!(0, Content::Primitive(Leaf::AnyOctets))];

pub(crate) const EXTENSION: &[Alternative] = &[context!(0, Content::Primitive(Leaf::AnyOctets))];

pub(crate) const EXTENSION_VALUE: &[Alternative] = &[context!(
    1,
    Content::Primitive(Leaf::AnyOctets)
)];

pub(crate) const MATCHING_RULE: &[Alternative] = &[context!(
    1,
    Content::Primitive(Leaf::AnyOctets)
)];

pub(crate) const MATCHED_TYPE: &[Alternative] = &[context!(2, Content::Primitive(Leaf::AnyOctets))];

pub(crate) const MATCHED_VALUE: &[Alternative] = &[context!(
    3,
    Content::Primitive(Leaf::AnyOctets)
)];

pub(crate) const MATCHES_NAMES: &[Alternative] = &[context!(4, Content::Primitive(Leaf::Boolean))];

pub(crate) const CONTROL: &[Alternative] = &[universal!(
    16,
    Content::Sequence(&[
        component!(None, Named::LdapString, Presence::Required),
        component!(None, Named::Boolean, Presence::Default(Given::Flag(false))),
        component!(None, Named::LdapString, Presence::Default(Given::Vacant))
    ]),
    Rule::Any
)];

pub(crate) const CONTROLS: &[Alternative] = &[context!(0, Content::Members(Named::LdapControl))];
