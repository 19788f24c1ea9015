ghost use Rattle.std.specs.Prelude.{◌≡◌, ◌++◌, OnOk};
ghost use Rattle.es_scan.specs.inner.Given.{joined};

use crate::flaws::Flaw;
use crate::list::append;
use graph_types::{Bind, Edit, Export, Item, Note, Star};
use pack_util::{NoMemory, Seq};
use std::alloc::Global;

/// What some tokens give. Faults have no place yet.
#[derive(Drop)]
pub(crate) struct Given {
    pub(crate) items: Seq<Item>,
    pub(crate) binds: Seq<Bind>,
    pub(crate) exports: Seq<Export>,
    pub(crate) stars: Seq<Star>,
    pub(crate) edits: Seq<Edit>,
    pub(crate) notes: Seq<Note>,
    pub(crate) flaws: Seq<Flaw>,
    pub(crate) es: bool,
}

impl Given {
    ghost use Rattle.std.specs.Prelude.{◌≡◌, OnOk};
    ghost use Rattle.es_scan.specs.inner.Given.{nothing_given, joined};

    pub(crate) fn new(alloc: Global) -> Given
        ensures { result ≡ nothing_given }
    {
        Given {
            items: Seq::new(alloc),
            binds: Seq::new(alloc),
            exports: Seq::new(alloc),
            stars: Seq::new(alloc),
            edits: Seq::new(alloc),
            notes: Seq::new(alloc),
            flaws: Seq::new(alloc),
            es: false,
        }
    }
}

/// Adds what later tokens give.
pub(crate) fn join(given: &mut Given, more: Given) -> Result<(), NoMemory>
    ensures { OnOk result (given.new ≡ joined given.old more) }
{
    let Given {
        items,
        binds,
        exports,
        stars,
        edits,
        notes,
        flaws,
        es,
    } = more;
    append(&mut given.items, items)?;
    append(&mut given.binds, binds)?;
    append(&mut given.exports, exports)?;
    append(&mut given.stars, stars)?;
    append(&mut given.edits, edits)?;
    append(&mut given.notes, notes)?;
    append(&mut given.flaws, flaws)?;
    given.es = given.es || es;
    Ok(())
}
