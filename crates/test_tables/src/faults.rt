use fault_place::{Fault, FaultKind, fault_line, place_at, sort_faults};
use pack_util::Text;
use std::alloc::{AllocError, Global};
use std::str;
use std::test::Fail;

const TEXT: &[u8] = b"0123456789\n0123456789\n";

const CLASH: FaultKind = FaultKind::AssetClash {
    first: 0,
    other: Some(1),
};

const STATS_CLASH: FaultKind = FaultKind::AssetClash {
    first: 12,
    other: None,
};

const GIVEN: [(&str, u64, FaultKind, &str); 7] = [
    ("b.js", 0, FaultKind::Form, ""),
    ("a.js", 12, FaultKind::NotUtf8, ""),
    ("a.js", 3, FaultKind::RepeatedName, "y"),
    ("a.js", 3, FaultKind::Unresolved, "z"),
    ("a.js", 0, STATS_CLASH, "q"),
    ("a.js", 3, FaultKind::Unresolved, "w"),
    ("a.js", 0, CLASH, "q"),
];

/// By path, then offset, then number of the kind, then line.
const LINES: &str = "a.js:1:1: B17 asset \"q\" of chunk 0 and chunk 1
a.js:1:1: B17 asset \"q\" of chunk 12 and the stats
a.js:1:4: B9 cannot resolve \"w\"
a.js:1:4: B9 cannot resolve \"z\"
a.js:1:4: B16 name \"y\" is repeated
a.js:2:2: B1 text is not UTF-8
b.js:1:1: B7 form is not supported
";

fn fault(
    alloc: Global,
    path: &str,
    offset: u64,
    kind: FaultKind,
    detail: &str,
) -> Result<Fault, AllocError> {
    let offset = offset.min(TEXT.len() as u64);
    let place = place_at(alloc, path, TEXT, offset)?;
    let detail = Text::new(alloc, detail)?;
    Ok(Fault {
        place,
        kind,
        detail,
    })
}

fn faults(alloc: Global) -> Result<Vec<Fault>, AllocError> {
    let mut faults = Vec::new(alloc);
    for (path, offset, kind, detail) in GIVEN {
        faults.push(fault(alloc, path, offset, kind, detail)?)?;
    }
    Ok(faults)
}

fn lines(alloc: Global, faults: &[Fault]) -> Result<String, AllocError> {
    let mut lines = String::new(alloc);
    for fault in faults {
        let line = fault_line(alloc, fault)?;
        lines.push_str(str::from_utf8(&line).unwrap_or("no text"))?;
        lines.push_str("\n")?;
    }
    Ok(lines)
}

#[test]
fn sorts_and_spells_faults(rt: HostRuntime) -> Result<(), Fail> {
    let mut faults = faults(rt.alloc())?;
    sort_faults(rt.alloc(), &mut faults)?;
    assert_eq!(rt; lines(rt.alloc(), &faults)?.as_str(), LINES);
    Ok(())
}
