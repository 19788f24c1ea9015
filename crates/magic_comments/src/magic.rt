ghost use Rattle.std.specs.Prelude.{◌≡◌, ◌+◌, ◌<◌, ◌≤◌, ◌^◌, IfOk, length};
ghost use Rattle.std.specs.Str.{bytes_eq};
ghost use Rattle.magic_comments.specs.Comments.{block_comments};
ghost use Rattle.magic_comments.specs.Magic.{no_magic, read_comments, is_magic, is_magic_token, magic_behind, magic_by};

use crate::comment::{begins, content_of, line_length};
use crate::pair::{are_pairs, is_clean, pairs};
use es_tokens::{LexToken, Lexer, Token, TokenEnd, tokens};
use form_shapes::{Sign, Source, Standing, as_text, owned, part_between, rest_from, unquoted};
use graph_types::{Note, NoteKind};
use pack_util::{MAX_TEXT, NoMemory, Seq, Text};
use path_text::is_normal;
use std::alloc::{AllocError, Global};

/// What the magic comments of a call of `import` say.
#[derive(Drop)]
pub struct Magic {
    /// The chunk's name.
    pub name: Option<Text>,
    /// Whether the module is in the caller's chunk.
    pub eager: bool,
    /// Whether the call stays as it is written.
    pub ignored: bool,
    pub notes: Seq<Note>,
}

impl Magic {
    ghost use Rattle.std.specs.Prelude.{◌≡◌, ◌<◌, ◌≤◌, length, map, Ok, OnOk, IfOk};
    ghost use Rattle.magic_comments.specs.Comments.{front_length};
    ghost use Rattle.magic_comments.specs.Magic.{no_magic, noted, misread, read_name, read_mode, read_ignore, read_value, read_pair, read_pairs, read_tokens, read_comment, after_front};

    fn new(alloc: Global) -> Magic
        ensures { result ≡ no_magic }
    {
        Magic {
            name: None,
            eager: false,
            ignored: false,
            notes: Seq::new(alloc),
        }
    }

    fn note(&mut self, at: u32, kind: NoteKind, detail: Text) -> Result<(), NoMemory>
        ensures { OnOk result (self.new ≡ noted at kind detail self.old) }
    {
        self.notes.push(Note { at, kind, detail })
    }

    fn misread(&mut self, alloc: Global, at: u32) -> Result<(), NoMemory>
        ensures { OnOk result (self.new ≡ misread at self.old) }
    {
        self.note(at, NoteKind::N4, Text::new(alloc, "")?)
    }

    fn read_name(&mut self, alloc: Global, at: u32, name: &[u8]) -> Result<(), NoMemory>
        ensures { OnOk result (self.new ≡ read_name at name.now self.old) }
    {
        self.name = None;
        if name.is_empty() {
            return Ok(());
        }
        let Ok(text) = as_text(name) else {
            return Err(AllocError);
        };
        if !is_normal(text) {
            return self.misread(alloc, at);
        }
        self.name = Some(Text::new(alloc, text)?);
        Ok(())
    }

    fn read_mode(&mut self, alloc: Global, at: u32, mode: &[u8]) -> Result<(), NoMemory>
        ensures { OnOk result (self.new ≡ read_mode at mode.now self.old) }
    {
        if is(mode, "lazy") {
            self.eager = false;
        } else if is(mode, "eager") {
            self.eager = true;
        } else {
            return self.misread(alloc, at);
        }
        Ok(())
    }

    fn read_ignore(&mut self, alloc: Global, at: u32, value: &[u8]) -> Result<(), NoMemory>
        ensures { OnOk result (self.new ≡ read_ignore at value.now self.old) }
    {
        if is(value, "true") {
            self.ignored = true;
        } else if is(value, "false") {
            self.ignored = false;
        } else {
            return self.misread(alloc, at);
        }
        Ok(())
    }

    fn read_value(
        &mut self,
        alloc: Global,
        at: u32,
        key: &[u8],
        is_string: bool,
        value: &[u8],
    ) -> Result<(), NoMemory>
        ensures { OnOk result (self.new ≡ read_value at key.now is_string value.now self.old) }
    {
        if is(key, "webpackChunkName") && is_string {
            self.read_name(alloc, at, unquoted(value))
        } else if is(key, "webpackChunkName") {
            self.misread(alloc, at)
        } else if is(key, "webpackMode") && is_string {
            self.read_mode(alloc, at, unquoted(value))
        } else if is(key, "webpackMode") {
            self.misread(alloc, at)
        } else if is(key, "webpackIgnore") {
            self.read_ignore(alloc, at, value)
        } else {
            self.note(at, NoteKind::N3, owned(alloc, key)?)
        }
    }

    /// A pair of a key, a colon and a value.
    #[tactic(auto, unfolding(crate::specs::Magic::read_pair))]
    fn read_pair(
        &mut self,
        alloc: Global,
        content: &[u8],
        at: u32,
        pair: &[Token],
    ) -> Result<(), NoMemory>
        ensures { OnOk result (self.new ≡ read_pair content.now at self.old pair.now) }
    {
        let source = Source::new(content, pair);
        let is_string = source.is_at(Sign::Str, 2);
        self.read_value(alloc, at, source.text_at(0), is_string, source.text_at(2))
    }

    fn read_pairs(
        &mut self,
        alloc: Global,
        content: &[u8],
        at: u32,
        pairs: &[&[Token]],
    ) -> Result<(), NoMemory>
        ensures { OnOk result
            (self.new ≡ read_pairs content.now at self.old (map (λ pair. pair.now) pairs.now)) }
    {
        for pair in pairs {
            self.read_pair(alloc, content, at, pair)?;
        }
        Ok(())
    }

    /// The tokens of a magic comment.
    fn read_tokens(
        &mut self,
        alloc: Global,
        content: &[u8],
        at: u32,
        tokens: &[Token],
    ) -> Result<(), NoMemory>
        ensures { OnOk result (self.new ≡ read_tokens content.now at self.old (Ok tokens.now)) }
    {
        if !are_pairs(content, tokens) {
            return self.misread(alloc, at);
        }
        let pairs = pairs(alloc, content, tokens)?;
        self.read_pairs(alloc, content, at, &pairs)
    }

    /// The comment at an offset.
    #[tactic(auto, unfolding(crate::specs::Magic::read_comment))]
    fn read_comment(&mut self, alloc: Global, at: u32, content: &[u8]) -> Result<(), NoMemory>
        requires { length content.now ≤ MAX_TEXT }
        ensures { OnOk result (self.new ≡ read_comment self.old (at, content.now)) }
    {
        if !is_magic(alloc, content)? {
            return Ok(());
        }
        match tokens(alloc, content) {
            Ok(tokens) => self.read_tokens(alloc, content, at, &tokens),
            Err(TokenEnd::Fault(_)) => self.misread(alloc, at),
            Err(TokenEnd::NoMemory) => Err(AllocError),
        }
    }

    /// What stands at an offset of a gap: answers how many bytes it has.
    fn read_front(&mut self, alloc: Global, at: u32, rest: &[u8]) -> Result<usize, NoMemory>
        requires { length rest.now ≤ MAX_TEXT }
        ensures read { IfOk result (λ size. self.new ≡ after_front self.old at rest.now) }
        ensures size { IfOk result (λ size. size ≡ front_length rest.now) }
        ensures some { IfOk result (λ size. 0 < size) }
    {
        if begins(rest, "/*") {
            let content = content_of(rest);
            self.read_comment(alloc, at, content)?;
            Ok(content.len() + 4)
        } else if begins(rest, "//") {
            Ok(line_length(rest_from(rest, 1)) + 1)
        } else {
            Ok(1)
        }
    }
}

fn is(bytes: &[u8], word: &str) -> bool
    ensures { result ≡ bytes_eq bytes.now word.now }
{
    bytes == word.as_bytes()
}

fn is_magic_token(content: &[u8], token: LexToken) -> bool
    ensures { result ≡ is_magic_token content.now token }
{
    let start = token.span.start as usize;
    let end = token.span.end as usize;
    is_clean(part_between(content, 0, start))
        && begins(part_between(content, start, end), "webpack")
}

/// Whether a comment's first token is a name that begins with `webpack`.
#[tactic(auto, unfolding(crate::specs::Magic::is_magic))]
fn is_magic(alloc: Global, content: &[u8]) -> Result<bool, NoMemory>
    requires { length content.now ≤ MAX_TEXT }
    ensures { IfOk result (λ magic. magic ≡ is_magic content.now) }
{
    let mut lexer = Lexer::new(alloc, content, 4096)?;
    match lexer.next() {
        Some(Ok(token)) => Ok(is_magic_token(content, token)),
        _ => Ok(false),
    }
}

/// What the comments of a gap say, whose first byte stands at an offset.
fn magic_in(alloc: Global, at: u32, gap: &[u8]) -> Result<Magic, NoMemory>
    requires short { length gap.now ≤ MAX_TEXT }
    requires within { at + length gap.now < 2 ^ 32 }
    ensures { IfOk result (λ magic. magic ≡ read_comments no_magic (block_comments 0 at gap.now)) }
{
    let mut magic = Magic::new(alloc);
    let mut rest = gap;
    while !rest.is_empty() {
        let passed = (gap.len() - rest.len()) as u32;
        let size = magic.read_front(alloc, at + passed, rest)?;
        rest = rest_from(rest, size);
    }
    Ok(magic)
}

/// What the comments behind a call's bracket say.
fn magic_behind(alloc: Global, source: Source, bracket: usize) -> Result<Magic, NoMemory>
    requires short { length source.text.now ≤ MAX_TEXT }
    requires small { bracket < 2 ^ 33 }
    ensures { IfOk result
        (λ magic. magic ≡ magic_behind source.entry.text.now source.entry.tokens.now bracket) }
{
    let start = source.end_at(bracket);
    let end = source.start_at(bracket + 1);
    magic_in(
        alloc,
        start,
        part_between(source.text, start as usize, end as usize),
    )
}

/// What the comments of a call of `import` say.
pub fn magic_by(
    alloc: Global,
    source: Source,
    at: usize,
    standing: Standing,
) -> Result<Magic, NoMemory>
    requires short { length source.text.now ≤ MAX_TEXT }
    requires small { at < 2 ^ 32 }
    ensures { IfOk result
        (λ magic. magic ≡ magic_by source.entry.text.now source.entry.tokens.now at standing) }
{
    match standing {
        Standing::ImportCall(_) | Standing::OddImport => magic_behind(alloc, source, at + 1),
        _ => Ok(Magic::new(alloc)),
    }
}
