//! Types as data: how each type's elements are tagged, and what their content is.
ghost use Rattle.std.specs.Prelude.{◌≡◌, ◌∷◌, [], MatchOption, None, Some};
ghost use Rattle.x5_model_typed.specs.Forms as forms;
ghost use Rattle.x5_model_typed.specs.Layouts as layouts;
ghost use Rattle.x5_types.specs.FormView.{alternative_view, choices_view, content_view, types_view};

/// What a request asks for (X.511).
#[derive(Clone, Copy)]
pub enum Operation {
    Read,
    Compare,
    ListBelow,
    Search,
    AddEntry,
    RemoveEntry,
    ModifyEntry,
    ModifyDn,
}

/// Types by name: whole messages, and what stands in them. `docs/FORMATS.md` says what each of them is.
#[derive(Clone, Copy)]
pub enum Named {
    DapRequest,
    DapAnswer,
    DspRequest,
    DspAnswer,
    /// A message of shadowing, either way (X.525).
    DispMessage,
    Argument(Operation),
    /// The argument of a chained operation (X.518, section 12).
    Chained(Operation),
    DapResult,
    DspResult,
    DispResult,
    Outcome(Operation),
    AnyNumber,
    /// An INTEGER from the first to the second.
    NumberBelow(u32, u32),
    /// An ENUMERATED from the first to the second.
    Enumeration(u32, u32),
    Boolean,
    Null,
    AnyOid,
    Value,
    Part,
    AgentName,
    /// A moment as a date and time.
    Time,
    Options,
    RefType,
    Name,
    Rdn,
    Rdns,
    Pair,
    Attribute,
    Attributes,
    Values,
    TypeList,
    Selection,
    Controls,
    Assertion,
    Changes,
    Change,
    /// A filter of so many levels at most.
    Filter(u8),
    Filters(u8),
    Item,
    Substrings,
    Parts,
    PlacedPart,
    Chaining,
    Progress,
    Trace,
    TraceItem,
    Agents,
    Agent,
    Reference,
    References,
    Source,
    Sources,
    EntryInfo,
    EntryInfos,
    Sub,
    Subs,
    Qualifier,
    AttributeError,
    NameError,
    ServiceError,
    UpdateError,
    ShadowError,
    Agreement,
    ShadowArgument,
    UpdateArgument,
    Refresh,
    Total,
    Entries,
    Entry,
    Knowns,
    Known,
    NonSpecifics,
    NonSpecific,
    WorldAgents,
    WorldAgent,
    WorldAgentName,
    Steps,
    Step,
    Renamed,
    /// What a user of LDAP sends (RFC 4511).
    LdapMessage,
    /// What it is answered.
    LdapResponse,
    LdapOperation,
    LdapAnswer,
    /// Octets, of whatever length.
    LdapString,
    LdapStrings,
    LdapValues,
    LdapSomeValues,
    LdapAttribute,
    LdapShown,
    LdapNewAttribute,
    LdapNewAttributes,
    LdapChange,
    LdapChanges,
    LdapAssertion,
    LdapFilter,
    LdapPiece,
    LdapPieces,
    LdapAuthentication,
    /// A string with a context tag in place of its own, as those below.
    LdapSuperior,
    LdapExtension,
    LdapExtensionValue,
    LdapMatchingRule,
    LdapMatchedType,
    LdapMatchedValue,
    /// A truth value so.
    LdapMatchesNames,
    LdapControl,
    LdapControls,
}

/// Which numbers an INTEGER or ENUMERATED has.
#[derive(Clone, Copy)]
pub enum Numbers {
    Any,
    /// From the first to the second.
    FromTo(u32, u32),
    /// Those of reference types: 1 to 5 and 8.
    RefType,
}

/// Which characters a text has.
#[derive(Clone, Copy)]
pub enum Letters {
    Numeric,
    Printable,
    SevenBit,
    /// The name of an agent.
    Agent,
    /// The name of an agent of the world.
    WorldAgent,
}

/// Contents of octets.
#[derive(Clone, Copy)]
pub enum Leaf {
    Boolean,
    Null,
    Number(Numbers),
    Oid,
    /// An object identifier whose content has 1,024 octets at most.
    ShortOid,
    Octets,
    Text(Letters),
    /// Four octets a character.
    Universal,
    /// The date and time of a moment.
    Time,
    /// A segment of a string.
    Segment,
    /// Octets, of whatever length.
    AnyOctets,
    /// So, with that number before them.
    Placed(u32),
}

/// Contents of bits.
#[derive(Clone, Copy)]
pub enum BitLeaf {
    Options,
    Segment,
}

/// A value that a component has where it isn't there.
#[derive(Clone, Copy)]
pub enum Given {
    Vacant,
    Flag(bool),
    Zero,
    Nothing,
    NoOptions,
    NoControls,
    AllAttributes,
    Everything,
    NoQualifier,
}

/// Which codes there are, and the types that they name.
#[derive(Clone, Copy)]
pub enum Codes {
    Arguments,
    ChainedArguments,
    Outcomes,
    DapErrors,
    DspErrors,
    ShadowOperations,
    ShadowResults,
    ShadowErrors,
}

/// Whether a component has to be there, and what it is where it isn't. The number of a code names the type of the
/// component behind it.
#[derive(Clone, Copy)]
pub enum Presence {
    Required,
    Default(Given),
    Code(Codes),
}

/// A component of a SEQUENCE or SET, with an explicit context tag or without.
#[derive(Clone, Copy)]
pub struct Component {
    pub tag: Option<u32>,
    pub form: Named,
    pub presence: Presence,
}

/// What an element's content is.
#[derive(Clone, Copy)]
pub enum Content {
    Primitive(Leaf),
    /// A string, whole or in segments (X.690, 8.7 and 8.21).
    Joined(Leaf),
    /// A bit string, whole or in segments (X.690, 8.6).
    JoinedBits(BitLeaf),
    /// One element of the type.
    Explicit(Named),
    Sequence(&'static [Component]),
    Set(&'static [Component]),
    /// SEQUENCE OF or SET OF.
    Members(Named),
    /// No content is right.
    Never,
}

/// What the whole has to be beside.
#[derive(Clone, Copy)]
pub enum Rule {
    Any,
    Name,
    Rdn,
    Pair,
    Some,
    Controls,
    Text,
    Parts,
    Progress,
    Trace,
    Entry,
    Known,
    Masters,
    Pieces,
}

/// A tag that a type's elements may have, with the content and the rule of the whole. Where the tag says which of
/// several types it is, the value is marked with it.
#[derive(Clone, Copy)]
pub struct Alternative {
    pub class: u8,
    pub tag: u32,
    pub marked: bool,
    pub content: Content,
    pub rule: Rule,
}

/// The types that an element may be of.
#[derive(Clone, Copy)]
pub enum Choices {
    Listed(&'static [Alternative]),
    One(Alternative),
    /// A filter of so many levels at most.
    Filter(u8),
}

impl Choices {
    /// The alternative with the tag.
    #[inline(always)]
    pub fn by_tag(self, class: u8, tag: u32) -> Option<Alternative>
        ensures { (w : layouts.Surroundings) → MatchOption result
            (forms.by_tag class tag (choices_view w self) ≡ None)
            (λ a. forms.by_tag class tag (choices_view w self) ≡ Some (alternative_view w a)) }
    {
        match self {
            Choices::Listed(types) => listed_by_tag(types, class, tag),
            Choices::One(alternative) => one_by_tag(alternative, class, tag),
            Choices::Filter(levels) => filter_by_tag(levels, class, tag),
        }
    }
}

#[inline(always)]
fn one_by_tag(alternative: Alternative, class: u8, tag: u32) -> Option<Alternative>
    ensures { (w : layouts.Surroundings) → MatchOption result
        (forms.by_tag class tag (alternative_view w alternative ∷ []) ≡ None)
        (λ a. forms.by_tag class tag (alternative_view w alternative ∷ []) ≡ Some (alternative_view w a)) }
{
    if alternative.class == class && alternative.tag == tag {
        Some(alternative)
    } else {
        None
    }
}

#[inline(always)]
fn listed_by_tag(types: &'static [Alternative], class: u8, tag: u32) -> Option<Alternative>
    ensures { (w : layouts.Surroundings) → MatchOption result
        (forms.by_tag class tag (types_view w types.now) ≡ None)
        (λ a. forms.by_tag class tag (types_view w types.now) ≡ Some (alternative_view w a)) }
{
    for a in types {
        if a.class == class && a.tag == tag {
            return Some(*a);
        }
    }
    None
}

/// The content of a filter with the context tag, of so many levels at most. The 17th on its way has none.
fn filter_content(levels: u8, tag: u32) -> Option<Content>
    ensures { (w : layouts.Surroundings) → MatchOption result
        (forms.by_tag 2 tag (layouts.filter levels) ≡ None)
        (λ c. forms.by_tag 2 tag (layouts.filter levels) ≡ Some (forms.choice tag (content_view w c))) }
{
    if tag > 3 {
        return None;
    }
    if levels == 0 {
        return Some(Content::Never);
    }
    match tag {
        0 => Some(Content::Explicit(Named::Item)),
        3 => Some(Content::Explicit(Named::Filter(levels - 1))),
        _ => Some(Content::Explicit(Named::Filters(levels - 1))),
    }
}

fn filter_by_tag(levels: u8, class: u8, tag: u32) -> Option<Alternative>
    ensures { (w : layouts.Surroundings) → MatchOption result
        (forms.by_tag class tag (layouts.filter levels) ≡ None)
        (λ a. forms.by_tag class tag (layouts.filter levels) ≡ Some (alternative_view w a)) }
{
    if class != 2 {
        return None;
    }
    let content = filter_content(levels, tag)?;
    Some(Alternative {
        class: 2,
        tag,
        marked: true,
        content,
        rule: Rule::Any,
    })
}
