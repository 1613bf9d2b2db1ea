//! Values of types, as trees of what their elements say.
ghost use Rattle.std.specs.Prelude.{◌≡◌, ◌∷◌, [], map, MatchOption};
ghost use Rattle.x5_model_typed.specs.Nodes as nodes;
ghost use Rattle.x5_types.specs.NodeView.{bytes_view, characters_view, node_view, IsNotTwo};

/// Octets of the input, or octets that were put together.
#[derive(Drop)]
pub enum Bytes<'a> {
    Lent(&'a [u8]),
    Kept(Vec<u8>),
}

impl<'a> Bytes<'a> {
    /// The octets. No memory.
    pub fn as_slice(&self) -> &[u8]
        ensures { result.now ≡ bytes_view self.now }
    {
        match self {
            Bytes::Lent(octets) => octets,
            Bytes::Kept(octets) => octets,
        }
    }
}

/// Text of the input, or text that was put together.
#[derive(Drop)]
pub enum Characters<'a> {
    Lent(&'a str),
    Kept(String),
}

impl<'a> Characters<'a> {
    /// The text. No memory.
    pub fn as_str(&self) -> &str
        ensures { result.now ≡ characters_view self.now }
    {
        match self {
            Characters::Lent(text) => text,
            Characters::Kept(text) => text,
        }
    }
}

/// What an element says.
#[derive(Drop)]
pub enum Node<'a> {
    /// A component that isn't there, and NULL.
    Vacant,
    Flag(bool),
    Number(i64),
    /// The arcs of an object identifier.
    Oid(Vec<u32>),
    Bits(Vec<bool>),
    Octets(Bytes<'a>),
    Text(Characters<'a>),
    /// One of several, by its context tag.
    Chosen(u32, Box<Node<'a>>),
    /// Components in the order of the type, or members in their own.
    Many(Vec<Node<'a>>),
}

impl<'a> Node<'a> {
    /// Its components or members, if it has any. No memory.
    pub fn parts(&self) -> &[Node<'a>]
        ensures { map node_view result.now ≡ nodes.parts (node_view self.now) }
    {
        match self {
            Node::Many(members) => members,
            _ => &[],
        }
    }

    /// Its two components or members, if it has just two. No memory.
    pub fn two_parts(&self) -> Option<(&Node<'a>, &Node<'a>)>
        ensures { MatchOption result
            (IsNotTwo (nodes.parts (node_view self.now)))
            (λ p. nodes.parts (node_view self.now) ≡ node_view p.0.now ∷ node_view p.1.now ∷ []) }
    {
        let parts = self.parts();
        if parts.len() != 2 {
            return None;
        }
        Some((&parts[0], &parts[1]))
    }
}
