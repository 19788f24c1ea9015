ghost use Rattle.std.specs.Prelude.{◌≡◌, Some, None, encode_utf8};
ghost use Rattle.json_order.specs.Grammar.{is_high, is_low, character, paired, escaped};

use crate::fault::Stop;
use crate::frame::Frame;
use crate::mode::{Digits, Mode, tail_behind};
use crate::reader::Reader;
use crate::word::{Key, Word};
use crate::{JsonNode, JsonTree};
use pack_util::Text;
use std::alloc::Global;
use std::mem;

impl Reader {
    ghost use Rattle.std.specs.Prelude.{◌∷◌, [], ◌++◌};
    ghost use Rattle.json_order.specs.inner.Steps.{Goes, chars_step, unescaped_step, escape_step, hex_step, tail_step, closed_string, close_string_of, string_done, keyed_in, ended, with_bytes, with_unit, lone_unit, unit_after};

    pub(crate) fn chars(&mut self, alloc: Global, byte: u8) -> Result<(), Stop>
        ensures { Goes result self.new (chars_step self.old byte) }
    {
        match byte {
            b'"' => self.close_string(alloc),
            b'\\' => {
                self.mode = Mode::Escape;
                Ok(())
            }
            _ => self.unescaped(byte),
        }
    }

    fn unescaped(&mut self, byte: u8) -> Result<(), Stop>
        ensures { Goes result self.new (unescaped_step self.old byte) }
    {
        if byte < b' ' {
            return Err(Stop::Wrong);
        }
        if byte < 128 {
            return self.push(byte, Mode::Chars);
        }
        match tail_behind(byte) {
            Some(mode) => self.push(byte, mode),
            None => Err(Stop::Wrong),
        }
    }

    /// Adds the first byte of a character.
    fn push(&mut self, byte: u8, mode: Mode) -> Result<(), Stop>
        ensures { Goes result self.new (Some (with_bytes (ended self.old) (byte ∷ []) mode)) }
    {
        self.end_high()?;
        self.word.push(byte)?;
        self.mode = mode;
        Ok(())
    }

    /// A high surrogate with no low one behind it becomes U+FFFD.
    fn end_high(&mut self) -> Result<(), Stop>
        ensures { Goes result self.new (Some (ended self.old)) }
    {
        if let Some(high) = self.high {
            self.word.push_char(character(high))?;
            self.high = None;
        }
        Ok(())
    }

    pub(crate) fn escape(&mut self, byte: u8) -> Result<(), Stop>
        ensures { Goes result self.new (escape_step self.old byte) }
    {
        if byte == b'u' {
            self.mode = Mode::Hex(Digits::Zero);
            return Ok(());
        }
        match escaped(byte) {
            Some(char) => self.push(char, Mode::Chars),
            None => Err(Stop::Wrong),
        }
    }

    pub(crate) fn hex(&mut self, digits: Digits, byte: u8) -> Result<(), Stop>
        ensures { Goes result self.new (hex_step self.old digits byte) }
    {
        let Some(digit) = char::from(byte).to_digit(16) else {
            return Err(Stop::Wrong);
        };
        match digits.with(digit as u8) {
            Ok(more) => {
                self.mode = Mode::Hex(more);
                Ok(())
            }
            Err(unit) => self.unit(unit),
        }
    }

    /// Adds the code unit of an escape.
    fn unit(&mut self, unit: u32) -> Result<(), Stop>
        ensures { Goes result self.new (Some (with_unit self.old unit)) }
    {
        self.mode = Mode::Chars;
        if let Some(high) = self.high {
            if is_high(high) && is_low(unit) {
                let code = 0x1_0000 + (high - 0xD800) * 1024 + (unit - 0xDC00);
                self.word.push_char(character(code))?;
                self.high = None;
                return Ok(());
            }
        }
        self.end_high()?;
        if is_high(unit) {
            self.high = Some(unit);
        } else {
            self.word.push_char(character(unit))?;
        }
        Ok(())
    }

    pub(crate) fn tail(&mut self, low: u8, high: u8, left: u8, byte: u8) -> Result<(), Stop>
        ensures { Goes result self.new (tail_step self.old low high left byte) }
    {
        if byte < low || high < byte {
            return Err(Stop::Wrong);
        }
        self.word.push(byte)?;
        self.mode = if left < 2 {
            Mode::Chars
        } else {
            Mode::Tail {
                low: 0x80,
                high: 0xBF,
                left: left - 1,
            }
        };
        Ok(())
    }

    fn close_string(&mut self, alloc: Global) -> Result<(), Stop>
        ensures { Goes result self.new (closed_string self.old) }
    {
        self.end_high()?;
        let word = mem::replace(&mut self.word, Word::new(alloc));
        let string = word.into_string().ok_or(Stop::Wrong)?;
        if self.is_key {
            return self.begin_member(Key::from_string(string));
        }
        let at = self.start;
        let node = JsonNode::Str(Text::from_string(string));
        self.place(alloc, JsonTree { at, node })
    }

    /// The key of a member is whole.
    fn begin_member(&mut self, key: Key) -> Result<(), Stop>
        ensures { Goes result self.new (keyed_in self.old key self.old.stack) }
    {
        match self.stack.pop() {
            Some(Frame::Object { at, members, .. }) => {
                let key_at = self.start;
                self.stack.push(Frame::Object {
                    at,
                    members,
                    key,
                    key_at,
                })?;
                self.mode = Mode::Colon;
                Ok(())
            }
            _ => Err(Stop::Wrong),
        }
    }
}

fn is_high(unit: u32) -> bool
    ensures { result ≡ is_high unit }
{
    0xD800 <= unit && unit < 0xDC00
}

fn is_low(unit: u32) -> bool
    ensures { result ≡ is_low unit }
{
    0xDC00 <= unit && unit < 0xE000
}

/// The character of a code; a surrogate is none, and becomes U+FFFD.
fn character(code: u32) -> char
    ensures { encode_utf8 result ≡ character code }
{
    char::from_u32(code).unwrap_or(char::REPLACEMENT_CHARACTER)
}

/// The byte that a letter stands for behind a backslash.
fn escaped(letter: u8) -> Option<u8>
    ensures { result ≡ escaped letter }
{
    match letter {
        b'"' | b'\\' | b'/' => Some(letter),
        b'b' => Some(8),
        b'f' => Some(12),
        b'n' => Some(b'\n'),
        b'r' => Some(b'\r'),
        b't' => Some(b'\t'),
        _ => None,
    }
}
