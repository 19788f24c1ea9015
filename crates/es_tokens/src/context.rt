ghost use Rattle.std.specs.Prelude.{◌≡◌};
ghost use Rattle.es_tokens.specs.Context.{first_value};
ghost use Rattle.es_tokens.specs.Mated.{mate_by};

use crate::role::{Bracket, Role};
use crate::table;
use pack_util::NoMemory;
use std::alloc::Global;
use std::marker::Model;

/// An open bracket.
#[derive(Clone, Copy)]
pub(crate) struct Opened {
    /// The number of its token.
    pub(crate) at: u32,
    pub(crate) bracket: Bracket,
    /// Whether it encloses a value.
    pub(crate) value: bool,
}

/// How many open brackets a stack has room for.
const ROOM: usize = 65_535;

/// The open brackets, of which contracts see the innermost first. There is room for all that a depth can count.
#[derive(Drop)]
pub(crate) struct Stack {
    opened: Vec<Opened>,
}

impl Model for Stack {
    ghost use Rattle.std.specs.Prelude.{◌≤◌, List, reverse};
    ghost use Rattle.std.specs.Vec.{vec_capacity};
    ghost use Rattle.es_tokens.specs.declared.context.Opened.{Opened};

    ghost Value = { List Opened };

    ghost view = { λ stack. reverse stack.opened.items };

    ghost invariant = { λ stack. 65535 ≤ vec_capacity stack.opened };
}

impl Stack {
    ghost use Rattle.std.specs.Prelude.{◌≡◌, ◌<◌, ◌≤◌, ◌∷◌, [], length, drop, IfOk, MatchOption};
    ghost use Rattle.es_tokens.specs.Context.{open_after};

    fn new(alloc: Global) -> Result<Stack, NoMemory>
        ensures { IfOk result (λ stack. stack ≡ []) }
    {
        Ok(Stack {
            opened: Vec::with_capacity(alloc, ROOM)?,
        })
    }

    pub(crate) fn len(&self) -> usize
        ensures { result ≡ length self.now }
    {
        self.opened.len()
    }

    fn pass(&mut self, role: Role, at: u32, condition: bool, expression: bool)
        requires { length (open_after role at condition expression self.old) ≤ 65535 }
        ensures { self.new ≡ open_after role at condition expression self.old }
    {
        match role {
            Role::Open(bracket) => {
                let value = table::bracket_holds_value(bracket, condition, expression);
                self.push(Opened { at, bracket, value });
            }
            Role::Close(_) => self.pop(),
            _ => {}
        }
    }

    fn push(&mut self, opened: Opened)
        requires { length self.old < 65535 }
        ensures { self.new ≡ opened ∷ self.old }
    {
        let _ = self.opened.push(opened);
    }

    fn pop(&mut self)
        ensures { self.new ≡ drop 1 self.old }
    {
        let _ = self.opened.pop();
    }

    /// The innermost open bracket.
    pub(crate) fn last(&self) -> Option<Opened>
        ensures { MatchOption result (self.now ≡ []) (λ opened. self.now ≡ opened ∷ drop 1 self.now) }
    {
        self.opened.last().copied()
    }
}

/// What the tokens so far say of the next one.
#[derive(Drop)]
pub(crate) struct Context {
    /// There is no token yet.
    pub(crate) first: bool,
    /// A `/` is a division.
    pub(crate) division: bool,
    /// A `{` is that of an expression.
    pub(crate) expression: bool,
    /// `.` or `?.` is last.
    pub(crate) dotted: bool,
    /// `for` is last.
    pub(crate) looped: bool,
    /// A `(` is that of a condition.
    pub(crate) condition: bool,
    pub(crate) brackets: Stack,
}

fn first_value(brackets: &Stack) -> bool
    ensures { result ≡ first_value brackets.now }
{
    match brackets.last() {
        Some(opened) => opened.value,
        None => false,
    }
}

/// The number of a closer's opener, and of any other token its own.
fn mate(role: Role, at: u32, brackets: &Stack) -> u32
    ensures { result ≡ mate_by role at brackets.now }
{
    match role {
        Role::Close(_) => match brackets.last() {
            Some(opened) => opened.at,
            None => at,
        },
        _ => at,
    }
}

impl Context {
    ghost use Rattle.std.specs.Prelude.{◌≡◌, ◌≤◌, IfOk, [], length};
    ghost use Rattle.es_tokens.specs.Context.{context_of, context_after, open_after};
    ghost use Rattle.es_tokens.specs.Mated.{mate_by};

    /// At the start of a text.
    pub(crate) fn new(alloc: Global) -> Result<Context, NoMemory>
        ensures { IfOk result (λ context. context ≡ context_of [] []) }
    {
        Ok(Context {
            first: true,
            division: false,
            expression: false,
            dotted: false,
            looped: false,
            condition: false,
            brackets: Stack::new(alloc)?,
        })
    }

    /// Goes on behind a token of a role and number, and tells the number of its mate so far. Takes no memory.
    pub(crate) fn pass(&mut self, role: Role, at: u32) -> u32
        requires { length (open_after role at self.old.condition self.old.expression self.old.brackets) ≤ 65535 }
        ensures context { self.new ≡ context_after self.old role at }
        ensures mate { result ≡ mate_by role at self.old.brackets }
    {
        let mate = mate(role, at, &self.brackets);
        let enclosed = first_value(&self.brackets);
        self.brackets
            .pass(role, at, self.condition, self.expression);
        self.first = false;
        self.division = table::precedes_division(role, self.dotted, enclosed);
        self.expression = table::wants_value(role);
        self.condition = table::precedes_condition(role, self.dotted, self.looped);
        self.looped = table::is_loop(role, self.dotted);
        self.dotted = table::is_dot(role);
        mate
    }
}
