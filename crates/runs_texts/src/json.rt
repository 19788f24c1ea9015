use json_order::{JsonEnd, JsonKind, JsonNode, JsonPair, JsonTree, read};
use std::alloc::{AllocError, Global};

fn kind_name(kind: JsonKind) -> &'static str {
    match kind {
        JsonKind::Byte => "Byte",
        JsonKind::End => "End",
        JsonKind::Depth => "Depth",
    }
}

#[cycle(shown)]
fn show_list(line: &mut String, trees: &[JsonTree]) -> Result<(), AllocError> {
    line.push_str("[")?;
    for tree in trees {
        show(line, tree)?;
        line.push_str(" ")?;
    }
    line.push_str("]")
}

#[cycle(shown)]
fn show_object(line: &mut String, pairs: &[JsonPair]) -> Result<(), AllocError> {
    line.push_str("{")?;
    for pair in pairs {
        let key = pair.key.get();
        let key_at = pair.key_at;
        write!(line, "{key}@{key_at}=")?;
        show(line, &pair.value)?;
        line.push_str(" ")?;
    }
    line.push_str("}")
}

fn show_text(line: &mut String, letter: &str, text: &str) -> Result<(), AllocError> {
    write!(line, "{letter}({text})")
}

#[cycle(shown)]
fn show(line: &mut String, tree: &JsonTree) -> Result<(), AllocError> {
    let at = tree.at;
    write!(line, "{at}:")?;
    match &tree.node {
        JsonNode::Null => line.push_str("null"),
        JsonNode::Bool(true) => line.push_str("true"),
        JsonNode::Bool(false) => line.push_str("false"),
        JsonNode::Number(text) => show_text(line, "n", text.get()),
        JsonNode::Str(text) => show_text(line, "s", text.get()),
        JsonNode::List(trees) => show_list(line, trees.as_slice()),
        JsonNode::Object(pairs) => show_object(line, pairs.as_slice()),
    }
}

/// The fault, or the tree: its offset, a colon and its node. The line is as the texts are, without escapes.
pub(crate) fn answer(alloc: Global, text: &[u8]) -> Result<String, AllocError> {
    match read(alloc, text) {
        Ok(tree) => {
            let mut line = String::new(alloc);
            show(&mut line, &tree)?;
            Ok(line)
        }
        Err(JsonEnd::Fault(fault)) => {
            let kind = kind_name(fault.kind);
            let offset = fault.offset;
            format!(in alloc; "{kind} at {offset}")
        }
        Err(JsonEnd::NoMemory) => Err(AllocError),
    }
}
