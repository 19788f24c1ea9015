ghost use Rattle.std.specs.Prelude.{◌≡◌, ◌≤◌, ◌-◌, length, nat_eq};
ghost use Rattle.magic_comments.specs.Comments.{begins, begins_terminator, line_from, line_length, content_from, content_of};

use form_shapes::rest_from;

/// Whether these bytes begin with a text.
pub fn begins(bytes: &[u8], front: &str) -> bool
    ensures { result ≡ begins bytes.now front.now }
{
    bytes.starts_with(front.as_bytes())
}

fn begins_terminator(bytes: &[u8]) -> bool
    ensures { result ≡ begins_terminator bytes.now }
{
    begins(bytes, "\n")
        || begins(bytes, "\r")
        || bytes.starts_with(&[0xe2, 0x80, 0xa8])
        || bytes.starts_with(&[0xe2, 0x80, 0xa9])
}

/// How many bytes stand before the line's end.
pub fn line_length(bytes: &[u8]) -> usize
    ensures value { result ≡ line_length bytes.now }
    ensures within { result ≤ length bytes.now }
{
    let mut rest = bytes;
    let mut count = 0;
    while let [_, after @ ..] = rest {
        if begins_terminator(rest) {
            break;
        }
        count += 1;
        rest = after;
    }
    count
}

/// How many bytes stand before the first `*/`.
fn content_length(bytes: &[u8]) -> usize
    ensures value { result ≡ content_from 0 bytes.now }
    ensures within { result ≤ length bytes.now }
{
    let mut rest = bytes;
    let mut count = 0;
    while let [_, after @ ..] = rest {
        if begins(rest, "*/") {
            break;
        }
        count += 1;
        rest = after;
    }
    count
}

/// What stands between the `/*` that is first and its `*/`.
pub(crate) fn content_of(bytes: &[u8]) -> &[u8]
    ensures value { result.now ≡ content_of bytes.now }
    ensures within { length result.now ≤ length bytes.now }
{
    let behind = rest_from(bytes, 2);
    &behind[..content_length(behind)]
}
