use crate::table::answered;
use asset_names::{content_hash, name_of, read_template};
use std::alloc::{AllocError, Global};
use std::str;
use std::test::Fail;
use test_escapes::unescaped;

/// Given are a number of digits and a message. The messages of 3, 0 and 56 bytes are those of "Example Algorithms" of
/// FIPS 180-4 and of its validation vectors.
const HASHES: &str = "64 abc\tba7816bf8f01cfea414140de5dae2223b00361a396177a9cb410ff61f20015ad
64 \te3b0c44298fc1c149afbf4c8996fb92427ae41e4649b934ca495991b7852b855
64 abcdbcdecdefdefgefghfghighijhijkijkljklmklmnlmnomnopnopq\t248d6a61d20638b8e5c026930c3e6039a33ce45964ff2167f6ecedd419db06c1
1 abc\tb
7 abc\tba7816b
20 abc\tba7816bf8f01cfea4141
";

/// Given are the chunk's name, or `-` for none, and a template, in which `\xHH` is a byte.
const NAMES: &str = "about [name].[contenthash:8].js\tabout.ba7816bf.js
- [name].[contenthash:8].js\t7.ba7816bf.js
about [name].js\tabout.js
about [id].js\t7.js
- [id].js\t7.js
about a.js\ta.js
about js/[name]/[contenthash].js\tjs/about/ba7816bf8f01cfea4141.js
about [contenthash:1][contenthash:20]\tbba7816bf8f01cfea4141
about [contenthash:64]\tba7816bf8f01cfea414140de5dae2223b00361a396177a9cb410ff61f20015ad
about ..[id]\t..7
about é[id]ü\té7ü
- \trefused
- [chunkhash].js\trefused
- [hash].js\trefused
- [Name].js\trefused
- [].js\trefused
- [contenthash:].js\trefused
- [contenthash:0].js\trefused
- [contenthash:08].js\trefused
- [contenthash:+8].js\trefused
- [contenthash:65].js\trefused
- [contenthash:100].js\trefused
- [contenthash: 8].js\trefused
- [name\trefused
- name]\trefused
- a]\trefused
- [[name]].js\trefused
- [name]].js\trefused
- ../[name].js\trefused
- /[name].js\trefused
- [name]/\trefused
- [name]//[id]\trefused
- ./[name].js\trefused
- [name]/../[id].js\trefused
- [name]\\x0A\trefused
";

fn hash(alloc: Global, given: &str) -> Result<String, AllocError> {
    let (digits, message) = given.split_once(' ').unwrap_or(("", given));
    let digits = digits.parse::<u32>().unwrap_or(64).clamp(1, 64);
    let hash = content_hash(alloc, message.as_bytes(), digits)?;
    String::from_str(alloc, hash.get())
}

fn named(alloc: Global, name: Option<&str>, text: &str) -> Result<String, AllocError> {
    let Ok(template) = read_template(alloc, text, 20) else {
        return String::from_str(alloc, "refused");
    };
    let asset = name_of(alloc, &template, name, 7, b"abc")?;
    String::from_str(alloc, asset.get())
}

fn asset(alloc: Global, given: &str) -> Result<String, AllocError> {
    let (name, text) = given.split_once(' ').unwrap_or(("-", given));
    let name = if name == "-" { None } else { Some(name) };
    let text = unescaped(alloc, text.as_bytes())?;
    named(alloc, name, str::from_utf8(&text).unwrap_or(""))
}

#[test]
fn hashes_messages(rt: HostRuntime) -> Result<(), Fail> {
    assert_eq!(rt; answered(rt.alloc(), HASHES, hash)?.as_str(), HASHES);
    Ok(())
}

#[test]
fn names_assets(rt: HostRuntime) -> Result<(), Fail> {
    assert_eq!(rt; answered(rt.alloc(), NAMES, asset)?.as_str(), NAMES);
    Ok(())
}
