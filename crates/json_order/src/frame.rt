ghost use Rattle.std.specs.Prelude.{◌≡◌, [], ◌∷◌, length, reverse, OnOk, Some, None};
ghost use Rattle.json_order.specs.inner.Frames.{inner_of, popped};

use crate::JsonTree;
use crate::members::Members;
use crate::seed::Seed;
use crate::word::Key;
use pack_util::Seq;
use std::alloc::{AllocError, Global};
use std::marker::Model;

/// A list or an object whose bracket is open, with the offset of the bracket and what it has so far.
#[derive(Drop)]
pub(crate) enum Frame {
    List {
        at: u64,
        items: Seq<JsonTree>,
    },
    /// The key is that of the member whose value is still coming.
    Object {
        at: u64,
        members: Members,
        key: Key,
        key_at: u64,
    },
}

/// Which bracket is the innermost open one.
#[derive(Clone, Copy)]
pub(crate) enum Inner {
    List,
    Object,
}

/// The open brackets, which contracts see from the innermost to the outermost.
#[derive(Drop)]
pub(crate) struct Stack {
    frames: Vec<Frame>,
    seed: Seed,
}

impl Model for Stack {
    ghost use Rattle.std.specs.Prelude.{List, reverse};
    ghost use Rattle.std.specs.Coded.{coded_list};
    ghost use Rattle.json_order.specs.declared.frame.Frame.{Frame};
    ghost use Rattle.json_order.specs.contracts.frame.Frame as frame;

    ghost Value = { List Frame };

    ghost coded = { coded_list frame.the_row.coded };

    ghost view = { λ stack. reverse stack.frames.items };
}

impl Stack {
    pub(crate) fn new(alloc: Global, seed: Seed) -> Stack
        ensures { result ≡ [] }
    {
        Stack {
            frames: Vec::new(alloc),
            seed,
        }
    }

    /// The members of an object that begins.
    pub(crate) fn no_members(&self, alloc: Global) -> Members
        ensures { result ≡ [] }
    {
        Members::new(alloc, self.seed)
    }

    pub(crate) fn len(&self) -> usize
        ensures { result ≡ length self.now }
    {
        self.frames.len()
    }

    pub(crate) fn inner(&self) -> Option<Inner>
        ensures { result ≡ inner_of self.now }
    {
        match self.frames.last() {
            Some(Frame::List { .. }) => Some(Inner::List),
            Some(Frame::Object { .. }) => Some(Inner::Object),
            None => None,
        }
    }

    pub(crate) fn push(&mut self, frame: Frame) -> Result<(), AllocError>
        ensures { OnOk result (self.new ≡ frame ∷ self.old) }
    {
        self.frames.push(frame)?;
        Ok(())
    }

    pub(crate) fn pop(&mut self) -> Option<Frame>
        ensures { popped self.old ≡ (result, self.new) }
    {
        self.frames.pop()
    }
}
