ghost use Rattle.std.specs.Prelude.{◌≡◌, ◌≢◌, ◌<◌, ◌+◌, ◌-◌, ◌&&◌, nat_eq, length, count_by, drop, slice_range, if◌then◌else◌, MatchOption};
ghost use Rattle.std.specs.List.{ends_with, list_any, position, starts_with};
ghost use Rattle.std.specs.Option.{option_copied};
ghost use Rattle.pkg_exports.specs.Keys.{is_match, is_star, length_before, matched_part, outranks, part_after, part_before};

/// Whether a key has a `*`.
pub fn has_star(key: &str) -> bool
    ensures { result ≡ list_any is_star key.now }
{
    key.bytes().any(|byte| byte == b'*')
}

/// The parts of a key around its only `*`.
fn around_star(key: &str) -> Option<(&str, &str)>
    ensures { MatchOption result (count_by is_star key.now ≢ 1) (λ parts. (count_by is_star key.now ≡ 1) × (parts.0.now ≡ part_before key.now) × (parts.1.now ≡ part_after key.now)) }
{
    let (before, after) = key.split_once('*')?;
    if has_star(after) {
        return None;
    }
    Some((before, after))
}

/// What stands between two texts where a text begins with the one and then ends with the other.
fn between<'a>(text: &'a str, before: &str, after: &str) -> Option<&'a str>
    ensures { option_copied result ≡ (if starts_with nat_eq text.now before.now && ends_with nat_eq (drop (length before.now) text.now) after.now
        then Some (slice_range text.now (length before.now) (length text.now - length after.now)) else None) }
{
    text.strip_prefix(before)?.strip_suffix(after)
}

/// What the `*` of a key stands for, where the key has only one and matches.
pub fn matched_part<'a>(key: &str, subpath: &'a str) -> Option<&'a str>
    ensures { option_copied result ≡ (if is_match subpath.now key.now then Some (matched_part subpath.now key.now) else None) }
{
    let (before, after) = around_star(key)?;
    if subpath.len() < key.len() {
        return None;
    }
    between(subpath, before, after)
}

fn first_star(key: &str) -> Option<usize>
    ensures { result ≡ position is_star key.now }
{
    key.bytes().position(|byte| byte == b'*')
}

fn length_before_star(key: &str) -> usize
    ensures { result ≡ length_before key.now }
{
    first_star(key).unwrap_or(key.len())
}

/// Whether a key is tried before another.
pub fn outranks(key: &str, other: &str) -> bool
    ensures { result ≡ outranks key.now other.now }
{
    let (before, before_other) = (length_before_star(key), length_before_star(other));
    before_other < before || before == before_other && other.len() < key.len()
}
