mod shown;

use crate::scan::shown::show;
use es_scan::scan;
use es_tokens::{TokenEnd, tokens};
use pack_util::MAX_TEXT;
use std::alloc::{AllocError, Global};
use test_escapes::escaped;

/// Asked is a list of the scan. Where it is `text`, the answer is the text with its edits, in which `{n}` stands for what loads
/// the module of item n, and where it is `all`, each list with its offsets.
pub(crate) fn answer(alloc: Global, asked: &str, text: &[u8]) -> Result<String, AllocError> {
    if text.len() as u64 > MAX_TEXT {
        return String::from_str(alloc, "too long");
    }
    match tokens(alloc, text) {
        Ok(tokens) => {
            let mut line = String::new(alloc);
            show(&mut line, asked, text, &scan(alloc, "t", text, &tokens)?)?;
            escaped(alloc, line.as_str())
        }
        Err(TokenEnd::Fault(_)) => String::from_str(alloc, "no tokens"),
        Err(TokenEnd::NoMemory) => Err(AllocError),
    }
}
