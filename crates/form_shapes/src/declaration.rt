ghost use Rattle.std.specs.Prelude.{◌≡◌, ◌≤◌, ◌++◌, ◌∷◌, [], IfOk, length, map, drop};
ghost use Rattle.form_shapes.specs.Declaration.{AreNamedFrom, is_named};
ghost use Rattle.form_shapes.specs.Parts.{front, long_ones, tails};
ghost use Rattle.form_shapes.specs.Variables.{first_text, separates};

use crate::source::{has_sign, rest_from, text_of};
use crate::variables::{declaration, separates};
use crate::{Sign, Source};
use es_tokens::Token;
use pack_util::NoMemory;
use std::alloc::Global;

/// What is known of the declaration of variables whose first name stands at a token. Declarations that run into each
/// other end at one place, so what is known of one serves the next, and no token is read again.
#[derive(Drop)]
pub struct Declaration<'a> {
    pub at: usize,
    /// Behind its last token.
    pub end: usize,
    /// Its tokens.
    pub rest: &'a [Token],
    /// What stands behind each comma up to the end. So many of these commas stand before the token.
    pub tails: Vec<&'a [Token]>,
    pub first: usize,
    /// Behind so many commas each declarator begins with a name.
    pub named: usize,
}

/// What stands behind each comma, and behind how many of them each declarator begins with a name.
#[derive(Drop)]
struct Tails<'a> {
    lists: Vec<&'a [Token]>,
    named: usize,
}

/// Whether the declarator with which these tokens begin has a name.
pub(crate) fn is_named(text: &[u8], tokens: &[Token]) -> bool
    ensures { result ≡ is_named text.now tokens.now }
{
    match tokens {
        [name, ..] => !separates(text, name) && has_sign(text, Sign::Name, name),
        [] => false,
    }
}

/// The name of the declarator with which these tokens begin.
fn name_of<'a>(text: &'a [u8], tokens: &[Token]) -> &'a [u8]
    ensures { result.now ≡ first_text text.now (front (separates text.now) tokens.now) }
{
    match tokens {
        [name, ..] if !separates(text, name) => text_of(text, name),
        _ => &[],
    }
}

/// How many of these come before the first that is shorter than this.
fn long_ones(tails: &[&[Token]], size: usize) -> usize
    ensures value { result ≡ long_ones size (map (λ tail. tail.now) tails.now) }
    ensures within { result ≤ length tails.now }
{
    let mut count = 0;
    for tail in tails {
        if tail.len() < size {
            break;
        }
        count += 1;
    }
    count
}

/// With one list more.
fn with_tail<'a>(text: &[u8], tails: Tails<'a>, tail: &'a [Token]) -> Result<Tails<'a>, NoMemory>
    requires { AreNamedFrom text.now (map (λ list. list.now) tails.lists.items) tails.named }
    ensures lists { IfOk result
        (λ more. map (λ list. list.now) more.lists.items ≡ map (λ list. list.now) tails.entry.lists.items ++ tail.now ∷ []) }
    ensures named { IfOk result
        (λ more. AreNamedFrom text.now (map (λ list. list.now) more.lists.items) more.named) }
{
    let Tails { mut lists, named } = tails;
    lists.push(tail)?;
    let named = if is_named(text, tail) {
        named
    } else {
        lists.len()
    };
    Ok(Tails { lists, named })
}

fn tails_of<'a>(alloc: Global, text: &[u8], tokens: &'a [Token]) -> Result<Tails<'a>, NoMemory>
    ensures lists { IfOk result
        (λ found. map (λ list. list.now) found.lists.items ≡ tails (separates text.now) tokens.now) }
    ensures named { IfOk result
        (λ found. AreNamedFrom text.now (map (λ list. list.now) found.lists.items) found.named) }
{
    let mut found = Tails {
        lists: Vec::new(alloc),
        named: 0,
    };
    let mut rest = tokens;
    while let [token, behind @ ..] = rest {
        if separates(text, token) {
            found = with_tail(text, found, behind)?;
        }
        rest = behind;
    }
    Ok(found)
}

impl<'a> Declaration<'a> {
    ghost use Rattle.std.specs.Prelude.{◌≡◌, ◌≤◌, ◌<◌, IfOk, OnOk, map};
    ghost use Rattle.form_shapes.specs.Declaration.{IsDeclaration};
    ghost use Rattle.form_shapes.specs.Variables.{behind_variables, declarators, first_text};

    /// Behind the last token nothing is declared.
    pub fn nothing(alloc: Global, source: Source<'a>) -> Declaration<'a>
        ensures { IsDeclaration source.entry.text.now source.entry.tokens.now result }
    {
        let end = source.tokens.len();
        Declaration {
            at: end,
            end,
            rest: &[],
            tails: Vec::new(alloc),
            first: 0,
            named: 0,
        }
    }

    /// Of the declaration at a token.
    pub(crate) fn read(
        alloc: Global,
        source: Source<'a>,
        at: usize,
    ) -> Result<Declaration<'a>, NoMemory>
        ensures known { IfOk result (IsDeclaration source.entry.text.now source.entry.tokens.now) }
        ensures at { IfOk result (λ known. known.at ≡ at) }
    {
        let rest = declaration(source.text, rest_from(source.tokens, at));
        let Tails { lists, named } = tails_of(alloc, source.text, rest)?;
        Ok(Declaration {
            at,
            end: at + rest.len(),
            rest,
            tails: lists,
            first: 0,
            named,
        })
    }

    /// Goes on to a later token of the declaration. The text and its tokens are given for what is proved alone.
    fn go_ahead(&mut self, _source: Source<'a>, at: usize)
        requires known { IsDeclaration _source.text.now _source.tokens.now self.old }
        requires behind { self.old.at ≤ at }
        requires within { at < self.old.end }
        ensures known { IsDeclaration _source.entry.text.now _source.entry.tokens.now self.new }
        ensures at { self.new.at ≡ at }
    {
        let rest = rest_from(self.rest, at - self.at);
        self.first += long_ones(rest_from(&self.tails, self.first), rest.len());
        self.rest = rest;
        self.at = at;
    }

    /// Goes on to the declaration at another token.
    pub fn move_to(&mut self, alloc: Global, source: Source<'a>, at: usize) -> Result<(), NoMemory>
        requires { IsDeclaration source.text.now source.tokens.now self.old }
        ensures known { OnOk result (IsDeclaration source.entry.text.now source.entry.tokens.now self.new) }
        ensures at { OnOk result (self.new.at ≡ at) }
    {
        if self.at <= at && at < self.end {
            self.go_ahead(source, at);
        } else {
            *self = Declaration::read(alloc, source, at)?;
        }
        Ok(())
    }

    /// Behind it, where each of its declarators begins with a name.
    #[tactic(auto, using(crate::proofs::DeclarationLemmas::behind_known))]
    pub(crate) fn behind(&self, source: Source) -> Option<usize>
        requires { IsDeclaration source.text.now source.tokens.now self.now }
        ensures { result ≡ behind_variables source.entry.text.now source.entry.tokens.now self.now.at }
    {
        let all = is_named(source.text, self.rest) && self.first >= self.named;
        all.then_some(self.end)
    }

    /// The names of its declarators.
    pub(crate) fn names<'b>(
        &self,
        alloc: Global,
        source: Source<'b>,
    ) -> Result<Vec<&'b [u8]>, NoMemory>
        requires { IsDeclaration source.text.now source.tokens.now self.now }
        ensures { IfOk result (λ names. map (λ name. name.now) names.items
            ≡ map (first_text source.entry.text.now) (declarators source.entry.text.now source.entry.tokens.now self.now.at)) }
    {
        let mut names = Vec::new(alloc);
        names.push(name_of(source.text, self.rest))?;
        for tail in rest_from(&self.tails, self.first) {
            names.push(name_of(source.text, tail))?;
        }
        Ok(names)
    }
}
