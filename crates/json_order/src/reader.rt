ghost use Rattle.std.specs.Prelude.{◌≡◌, ◌∷◌, ◌++◌, [], Some, None, IfOk};
ghost use Rattle.json_order.specs.inner.Frames.{inner_of};

use crate::fault::Stop;
use crate::frame::{Frame, Inner, Stack};
use crate::mode::{Letters, Mode, Part};
use crate::seed::Seed;
use crate::word::{Key, Word};
use crate::{JsonNode, JsonTree};
use pack_util::{Seq, Text};
use std::alloc::{AllocError, Global};
use std::mem;

/// Reads one JSON text, byte by byte.
#[derive(Drop)]
pub(crate) struct Reader {
    pub(crate) mode: Mode,
    /// Where the name, the number or the string began.
    pub(crate) start: u64,
    /// The number or the content of the string so far.
    pub(crate) word: Word,
    /// A high surrogate that waits for the low one.
    pub(crate) high: Option<u32>,
    /// Whether the string is a key.
    pub(crate) is_key: bool,
    pub(crate) stack: Stack,
    /// The value of the text, once it is whole.
    pub(crate) root: Option<JsonTree>,
}

impl Reader {
    ghost use Rattle.json_order.specs.inner.Steps.{Goes, fresh, step, finished, tree_at, with_value, closed_list, closed_object, spaced, other_at, value_step, key_step, first_item_step, first_key_step, colon_step, after_step, comma_in, name_step, number_step, number_at, name_at, closed_number, opened, Finishes, in_mode, string_at, root_at};

    pub(crate) fn new(alloc: Global, seed: Seed) -> Reader
        ensures { result ≡ fresh }
    {
        Reader {
            mode: Mode::Value,
            start: 0,
            word: Word::new(alloc),
            high: None,
            is_key: false,
            stack: Stack::new(alloc, seed),
            root: None,
        }
    }

    /// Takes the next byte, at its offset.
    #[tactic(auto, unfolding(crate::specs::inner::Steps::step))]
    pub(crate) fn step(&mut self, alloc: Global, at: u64, byte: u8) -> Result<(), Stop>
        ensures { Goes result self.new (step self.old at byte) }
    {
        match self.mode {
            Mode::Value => self.value(alloc, at, byte),
            Mode::FirstItem => self.first_item(alloc, at, byte),
            Mode::FirstKey => self.first_key(alloc, at, byte),
            Mode::Key => self.key(alloc, at, byte),
            Mode::Colon => self.colon(byte),
            Mode::After => self.after(alloc, byte),
            Mode::Name(letters) => self.name(alloc, letters, byte),
            Mode::Number(part) => self.number(alloc, part, byte),
            Mode::Chars => self.chars(alloc, byte),
            Mode::Escape => self.escape(byte),
            Mode::Hex(digits) => self.hex(digits, byte),
            Mode::Tail { low, high, left } => self.tail(low, high, left, byte),
        }
    }

    /// The value of the text, where it ends here.
    #[tactic(auto, unfolding(crate::specs::inner::Steps::finished))]
    pub(crate) fn finish(self, alloc: Global) -> Result<JsonTree, Stop>
        ensures { Finishes result (finished self) }
    {
        let mut reader = self;
        match reader.mode {
            Mode::After => {}
            Mode::Number(part) if part.is_final() => reader.close_number(alloc)?,
            _ => return Err(Stop::Wrong),
        }
        let Reader { stack, root, .. } = reader;
        if stack.inner().is_some() {
            return Err(Stop::Wrong);
        }
        root.ok_or(Stop::Wrong)
    }

    fn value(&mut self, alloc: Global, at: u64, byte: u8) -> Result<(), Stop>
        ensures { Goes result self.new (value_step self.old at byte) }
    {
        match Part::first(byte) {
            Some(part) => self.begin_number(alloc, at, byte, part),
            None => self.other(alloc, at, byte),
        }
    }

    fn begin_number(&mut self, alloc: Global, at: u64, byte: u8, part: Part) -> Result<(), Stop>
        ensures { Goes result self.new (Some (number_at self.old at byte part)) }
    {
        self.mode = Mode::Number(part);
        self.start = at;
        self.word = Word::new(alloc);
        self.word.push(byte)?;
        Ok(())
    }

    fn other(&mut self, alloc: Global, at: u64, byte: u8) -> Result<(), Stop>
        ensures { Goes result self.new (other_at self.old at byte) }
    {
        match byte {
            b'"' => self.begin_string(alloc, at, false),
            b'[' => {
                let items = Seq::new(alloc);
                self.open(Frame::List { at, items }, Mode::FirstItem)
            }
            b'{' => {
                let members = self.stack.no_members(alloc);
                let key = Key::empty(alloc);
                let key_at = 0;
                self.open(
                    Frame::Object {
                        at,
                        members,
                        key,
                        key_at,
                    },
                    Mode::FirstKey,
                )
            }
            b'n' => self.begin_name(at, Letters::Ull),
            b't' => self.begin_name(at, Letters::Rue),
            b'f' => self.begin_name(at, Letters::Alse),
            _ => self.space(byte),
        }
    }

    fn begin_string(&mut self, alloc: Global, at: u64, is_key: bool) -> Result<(), Stop>
        ensures { Goes result self.new (Some (string_at self.old at is_key)) }
    {
        self.mode = Mode::Chars;
        self.start = at;
        self.word = Word::new(alloc);
        self.high = None;
        self.is_key = is_key;
        Ok(())
    }

    fn begin_name(&mut self, at: u64, letters: Letters) -> Result<(), Stop>
        ensures { Goes result self.new (Some (name_at self.old at letters)) }
    {
        self.mode = Mode::Name(letters);
        self.start = at;
        Ok(())
    }

    fn open(&mut self, frame: Frame, mode: Mode) -> Result<(), Stop>
        ensures { Goes result self.new (Some (opened self.old frame mode)) }
    {
        self.stack.push(frame)?;
        self.mode = mode;
        Ok(())
    }

    fn space(&mut self, byte: u8) -> Result<(), Stop>
        ensures { Goes result self.new (spaced self.old byte) }
    {
        if byte == b' ' || byte == b'\t' || byte == b'\n' || byte == b'\r' {
            Ok(())
        } else {
            Err(Stop::Wrong)
        }
    }

    fn first_item(&mut self, alloc: Global, at: u64, byte: u8) -> Result<(), Stop>
        ensures { Goes result self.new (first_item_step self.old at byte) }
    {
        if byte == b']' {
            return self.close_list(alloc);
        }
        self.value(alloc, at, byte)
    }

    fn key(&mut self, alloc: Global, at: u64, byte: u8) -> Result<(), Stop>
        ensures { Goes result self.new (key_step self.old at byte) }
    {
        if byte == b'"' {
            return self.begin_string(alloc, at, true);
        }
        self.space(byte)
    }

    fn first_key(&mut self, alloc: Global, at: u64, byte: u8) -> Result<(), Stop>
        ensures { Goes result self.new (first_key_step self.old at byte) }
    {
        if byte == b'}' {
            return self.close_object(alloc);
        }
        self.key(alloc, at, byte)
    }

    fn colon(&mut self, byte: u8) -> Result<(), Stop>
        ensures { Goes result self.new (colon_step self.old byte) }
    {
        if byte == b':' {
            self.mode = Mode::Value;
            return Ok(());
        }
        self.space(byte)
    }

    fn after(&mut self, alloc: Global, byte: u8) -> Result<(), Stop>
        ensures { Goes result self.new (after_step self.old byte) }
    {
        match byte {
            b',' => self.comma(),
            b']' => self.close_list(alloc),
            b'}' => self.close_object(alloc),
            _ => self.space(byte),
        }
    }

    fn comma(&mut self) -> Result<(), Stop>
        ensures { Goes result self.new (comma_in self.old (inner_of self.old.stack)) }
    {
        match self.stack.inner() {
            Some(Inner::List) => self.mode = Mode::Value,
            Some(Inner::Object) => self.mode = Mode::Key,
            None => return Err(Stop::Wrong),
        }
        Ok(())
    }

    fn name(&mut self, alloc: Global, letters: Letters, byte: u8) -> Result<(), Stop>
        ensures { Goes result self.new (name_step self.old letters byte) }
    {
        if byte != letters.byte() {
            return Err(Stop::Wrong);
        }
        match letters.next() {
            Some(next) => {
                self.mode = Mode::Name(next);
                Ok(())
            }
            None => {
                let at = self.start;
                let node = letters.node();
                self.place(alloc, JsonTree { at, node })
            }
        }
    }

    fn number(&mut self, alloc: Global, part: Part, byte: u8) -> Result<(), Stop>
        ensures { Goes result self.new (number_step self.old part byte) }
    {
        match part.next(byte) {
            Some(next) => {
                self.word.push(byte)?;
                self.mode = Mode::Number(next);
                Ok(())
            }
            None => {
                if !part.is_final() {
                    return Err(Stop::Wrong);
                }
                self.close_number(alloc)?;
                self.after(alloc, byte)
            }
        }
    }

    fn close_number(&mut self, alloc: Global) -> Result<(), Stop>
        ensures { Goes result self.new (closed_number self.old) }
    {
        let word = mem::replace(&mut self.word, Word::new(alloc));
        let string = word.into_string().ok_or(Stop::Wrong)?;
        let at = self.start;
        let node = JsonNode::Number(Text::from_string(string));
        self.place(alloc, JsonTree { at, node })
    }

    fn close_list(&mut self, alloc: Global) -> Result<(), Stop>
        ensures { Goes result self.new (closed_list self.old) }
    {
        match self.stack.pop() {
            Some(Frame::List { at, items }) => {
                let node = JsonNode::List(fitted(items));
                self.place(alloc, JsonTree { at, node })
            }
            _ => Err(Stop::Wrong),
        }
    }

    fn close_object(&mut self, alloc: Global) -> Result<(), Stop>
        ensures { Goes result self.new (closed_object self.old) }
    {
        match self.stack.pop() {
            Some(Frame::Object { at, members, .. }) => {
                let node = JsonNode::Object(members.into_pairs(alloc)?);
                self.place(alloc, JsonTree { at, node })
            }
            _ => Err(Stop::Wrong),
        }
    }

    /// Puts a whole value into the innermost bracket.
    pub(crate) fn place(&mut self, alloc: Global, value: JsonTree) -> Result<(), Stop>
        ensures { Goes result self.new (Some (with_value self.old value)) }
    {
        self.mode = Mode::After;
        match self.stack.pop() {
            None => self.root = Some(value),
            Some(Frame::List { at, items }) => {
                let items = with(items, value)?;
                self.stack.push(Frame::List { at, items })?;
            }
            Some(
                Frame::Object {
                    at,
                    mut members,
                    key,
                    key_at,
                },
            ) => {
                members.put(key, key_at, value)?;
                let key = Key::empty(alloc);
                self.stack.push(Frame::Object {
                    at,
                    members,
                    key,
                    key_at,
                })?;
            }
        }
        Ok(())
    }
}

/// One more member. There is room for one first, then for two, and so on: most lists of a deep text have one.
fn with(items: Seq<JsonTree>, value: JsonTree) -> Result<Seq<JsonTree>, AllocError>
    ensures { IfOk result (λ more. more ≡ items ++ value ∷ []) }
{
    let mut vec = items.into_vec();
    let len = vec.len();
    if len == vec.capacity() {
        vec.reserve_exact(len.max(1))?;
    }
    vec.push(value)?;
    Ok(Seq::from_vec(vec))
}

/// The same members, without room for more. Takes no memory.
fn fitted(items: Seq<JsonTree>) -> Seq<JsonTree>
    ensures { result ≡ items }
{
    let mut vec = items.into_vec();
    vec.shrink_to_fit();
    Seq::from_vec(vec)
}
