use std::alloc::{AllocError, Global};

fn hex_value(digit: u8) -> u8 {
    match digit {
        b'0'..=b'9' => digit - b'0',
        b'A'..=b'F' => digit - b'A' + 10,
        _ => 0,
    }
}

/// The bytes that an escaped text stands for.
pub fn unescaped(alloc: Global, escaped: &[u8]) -> Result<Vec<u8>, AllocError> {
    let mut text = Vec::new(alloc);
    let mut rest = escaped;
    while let [first, others @ ..] = rest {
        match rest {
            [b'\\', b'x', high, low, behind @ ..] => {
                text.push((hex_value(*high) % 16) << 4 | hex_value(*low) % 16)?;
                rest = behind;
            }
            [b'\\', b'\\', behind @ ..] => {
                text.push(b'\\')?;
                rest = behind;
            }
            _ => {
                text.push(*first)?;
                rest = others;
            }
        }
    }
    Ok(text)
}

/// A text as one line of ASCII, of which `unescaped` is the text.
pub fn escaped(alloc: Global, text: &str) -> Result<String, AllocError> {
    let mut line = String::new(alloc);
    for byte in text.bytes() {
        match byte {
            b'\\' => line.push_str("\\\\")?,
            b' '..=b'~' => line.push(char::from(byte))?,
            _ => write!(line, "\\x{byte:02X}")?,
        }
    }
    Ok(line)
}
