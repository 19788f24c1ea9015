ghost use Rattle.std.specs.Prelude.{◌≡◌, ◌<◌, ◌&&◌, bytes_eq, nat_le, slice_index};
ghost use Rattle.std.specs.List.{list_any};
ghost use Rattle.std.specs.Str.{all_ascii_digits};
ghost use Rattle.std.specs.Str.Parse.{digits_value};
ghost use Rattle.pkg_exports.specs.Keys.{begins_with_dot, is_array_index, is_met};

use pack_util::Text;

pub fn begins_with_dot(key: &str) -> bool
    ensures { result ≡ begins_with_dot key.now }
{
    key.starts_with('.')
}

/// Whether an object of JavaScript would move the key before all others.
pub fn is_array_index(key: &str) -> bool
    ensures { result ≡ is_array_index key.now }
{
    match key.as_bytes() {
        b"0" => true,
        [b'1'..=b'9', ..] => is_below_max(key),
        _ => false,
    }
}

fn is_below_max(digits: &str) -> bool
    requires { 48 < slice_index digits.now 0 }
    ensures { result ≡ (all_ascii_digits digits.now && nat_le (digits_value 10 digits.now) 4294967294) }
{
    match digits.parse::<u32>() {
        Ok(value) => value < u32::MAX,
        Err(_) => false,
    }
}

/// Whether a key counts: `default`, or a condition that holds.
pub fn is_met(key: &str, conditions: &[Text]) -> bool
    ensures { result ≡ is_met conditions.now key.now }
{
    key == "default" || holds(key, conditions)
}

fn holds(key: &str, conditions: &[Text]) -> bool
    ensures { result ≡ list_any (λ condition. bytes_eq condition key.now) conditions.now }
{
    conditions.iter().any(|condition| condition.get() == key)
}
