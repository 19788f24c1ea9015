ghost use Rattle.std.specs.Prelude.{◌≡◌, ◌≤◌, ◌<◌, IfSome};
ghost use Rattle.asset_names.specs.Reading.{digit_of, mark_of, marked_number};

use graph_types::Part;

/// What a word between brackets stands for.
pub fn read_mark(word: &str, digits: u32) -> Option<Part>
    ensures { result ≡ mark_of digits word.now }
{
    match word {
        "name" => Some(Part::Name),
        "id" => Some(Part::Id),
        "contenthash" => Some(Part::Hash(digits)),
        _ => {
            let number = word.strip_prefix("contenthash:")?;
            read_number(number).map(Part::Hash)
        }
    }
}

/// A number from 1 to 64 in decimal digits, the first of them not 0.
fn read_number(text: &str) -> Option<u32>
    ensures { result ≡ marked_number text.now }
{
    let number = match text.as_bytes() {
        [ones] => digit_at(*ones, 1)?,
        [tens, ones] => 10 * digit_at(*tens, 1)? + digit_at(*ones, 0)?,
        _ => return None,
    };
    if number <= 64 { Some(number) } else { None }
}

/// The value of a decimal digit that is at least so large.
fn digit_at(byte: u8, least: u8) -> Option<u32>
    requires { least ≤ 1 }
    ensures value { result ≡ digit_of least byte }
    ensures small { IfSome result (λ digit. digit < 10) }
{
    if (b'0' + least..=b'9').contains(&byte) {
        Some(u32::from(byte - b'0'))
    } else {
        None
    }
}
