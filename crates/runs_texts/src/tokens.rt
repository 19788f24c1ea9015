use es_tokens::{Token, TokenClass, TokenEnd, TokenKind, tokens};
use pack_util::MAX_TEXT;
use std::alloc::{AllocError, Global};

fn class_name(class: TokenClass) -> &'static str {
    match class {
        TokenClass::Name => "Name",
        TokenClass::Keyword => "Keyword",
        TokenClass::PrivateName => "PrivateName",
        TokenClass::Number => "Number",
        TokenClass::Str => "Str",
        TokenClass::Template => "Template",
        TokenClass::Head => "Head",
        TokenClass::Middle => "Middle",
        TokenClass::Tail => "Tail",
        TokenClass::Regex => "Regex",
        TokenClass::Punct => "Punct",
    }
}

fn kind_name(kind: TokenKind) -> &'static str {
    match kind {
        TokenKind::NotUtf8 => "NotUtf8",
        TokenKind::Unfinished => "Unfinished",
        TokenKind::Stray => "Stray",
        TokenKind::Unmatched => "Unmatched",
        TokenKind::Depth => "Depth",
        TokenKind::Open => "Open",
    }
}

fn repeated(alloc: Global, once: &[u8], times: u32) -> Result<Vec<u8>, AllocError> {
    let mut text = Vec::new(alloc);
    for _ in 0..times {
        text.extend_from_slice(once)?;
    }
    Ok(text)
}

fn push_span(line: &mut String, token: &Token) -> Result<(), AllocError> {
    let between = if line.is_empty() { "" } else { ", " };
    let class = class_name(token.class);
    let start = token.span.start;
    let end = token.span.end;
    write!(line, "{between}{class} {start}..{end}")
}

/// Mate and depth, and an `n` where a line ends before the token.
fn push_mate(line: &mut String, token: &Token) -> Result<(), AllocError> {
    let between = if line.is_empty() { "" } else { " " };
    let mate = token.mate;
    let depth = token.depth;
    let new_line = if token.new_line { "n" } else { "" };
    write!(line, "{between}{mate}/{depth}{new_line}")
}

fn shown(alloc: Global, asked: &str, tokens: &[Token]) -> Result<String, AllocError> {
    if tokens.is_empty() {
        return String::from_str(alloc, "no token");
    }
    let mut line = String::new(alloc);
    for token in tokens {
        if asked == "mates" {
            push_mate(&mut line, token)?;
        } else {
            push_span(&mut line, token)?;
        }
    }
    Ok(line)
}

fn read(alloc: Global, asked: &str, text: &[u8]) -> Result<String, AllocError> {
    if text.len() as u64 > MAX_TEXT {
        return String::from_str(alloc, "too long");
    }
    match tokens(alloc, text) {
        Ok(tokens) => shown(alloc, asked, &tokens),
        Err(TokenEnd::Fault(fault)) => {
            let kind = kind_name(fault.kind);
            let offset = fault.offset;
            format!(in alloc; "{kind} at {offset}")
        }
        Err(TokenEnd::NoMemory) => Err(AllocError),
    }
}

/// Asked are how often the text is repeated, and `spans` or `mates`.
pub(crate) fn answer(alloc: Global, asked: &str, once: &[u8]) -> Result<String, AllocError> {
    let (times, asked) = asked.split_once(' ').unwrap_or(("1", asked));
    let text = repeated(alloc, once, times.parse::<u32>().unwrap_or(1))?;
    read(alloc, asked, &text)
}
