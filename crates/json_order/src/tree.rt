use pack_util::{Seq, Text};

/// A value of a JSON text.
#[derive(Drop)]
#[cycle(tree)]
pub enum JsonNode {
    Null,
    Bool(bool),
    /// A number as it is written.
    Number(Text),
    /// A string without its quotes and escapes.
    Str(Text),
    List(Seq<JsonTree>),
    /// The members in the order of their first keys.
    Object(Seq<JsonPair>),
}

/// A value and the offset of its first byte.
#[derive(Drop)]
#[cycle(tree)]
pub struct JsonTree {
    pub at: u64,
    pub node: JsonNode,
}

/// A member of an object. A key that is repeated has the place of its first and the value of its last.
#[derive(Drop)]
#[cycle(tree)]
pub struct JsonPair {
    pub key: Text,
    pub key_at: u64,
    pub value: JsonTree,
}
