//! What a scan has of a text with each list, and where no legal module is read.

use es_scan::{Scan, scan};
use es_tokens::tokens;
use form_shapes::as_text;
use pack_util::MAX_TEXT;
use std::alloc::{AllocError, Global};
use std::test::Fail;

const TEXT: &str =
    "#!a\nimport a,{b as c}from'd';export{e as f};export let g=1,h;import(/*webpackChunkName:'i'*/'j');require('k')";

fn counts(alloc: Global, scan: &Scan) -> Result<String, AllocError> {
    let items = scan.items.as_slice().len();
    let binds = scan.binds.as_slice().len();
    let exports = scan.exports.as_slice().len();
    let edits = scan.edits.as_slice().len();
    let faults = scan.faults.as_slice().len();
    format!(in alloc;
        "{items} items, {binds} binds, {exports} exports, {edits} edits, {faults} faults"
    )
}

fn counted(alloc: Global, text: &[u8]) -> Result<String, AllocError> {
    if text.len() as u64 > MAX_TEXT {
        return String::from_str(alloc, "too long");
    }
    match tokens(alloc, text) {
        Ok(tokens) => counts(alloc, &scan(alloc, "a.js", text, &tokens)?),
        Err(_) => String::from_str(alloc, "no tokens"),
    }
}

#[test]
fn gives_the_whole_scan(rt: HostRuntime) -> Result<(), Fail> {
    let counts = counted(rt.alloc(), TEXT.as_bytes())?;
    assert_eq!(rt;
        counts.as_str(),
        "3 items, 2 binds, 3 exports, 6 edits, 0 faults"
    );
    Ok(())
}

/// Where each declaration runs into the next one, their names would outnumber the bytes of the text.
#[test]
fn refuses_more_names_than_bytes(rt: HostRuntime) -> Result<(), Fail> {
    let mut text = String::new(rt.alloc());
    for _ in 0..64 {
        text.push_str("export let a,b ")?;
    }
    assert!(rt; counted(rt.alloc(), text.as_bytes()).is_err());
    Ok(())
}

#[test]
fn refuses_bytes_that_are_no_text(rt: HostRuntime) {
    assert!(rt; as_text(b"a\xff").is_err() && as_text(b"a").is_ok());
}
