ghost use Rattle.std.specs.Prelude.{◌≡◌, ◌<◌, ◌≤◌, ◌+◌, ◌++◌, ◌^◌, ℕ, List, Ok, length, map, IfOk, OnOk};
ghost use Rattle.std.specs.List.{All};
ghost use Rattle.es_tokens.specs.Tokens.{tokens_of};
ghost use Rattle.form_shapes.specs.Declaration.{IsDeclaration};
ghost use Rattle.form_shapes.specs.Standing.{standing_at};
ghost use Rattle.es_scan.specs.Flaws.{fault_of_flaw};
ghost use Rattle.magic_comments.specs.Magic.{magic_by};
ghost use Rattle.es_scan.specs.Scan.{export_names, local_names, scan_of};
ghost use Rattle.es_scan.specs.inner.Given.{given_by, with_repeats};
ghost use Rattle.es_scan.specs.inner.Seen.{HasNames};
ghost use Rattle.es_scan.specs.inner.State.{IsUpto};

use crate::binds::binds_by;
use crate::edits::{edits_by, hashbang_edits};
use crate::exports::exports_by;
use crate::flaws::{Flaw, flaws_by};
use crate::given::{Given, join};
use crate::items::item_by;
use crate::list::option_list;
use crate::notes::notes_by;
use crate::repeated::{export_names, local_names, see_names};
use crate::scanned::Scan;
use crate::stars::{is_declaration, stars_by};
use es_tokens::Token;
use es_tokens::laws::{one_list_or_one_fault, spans_lie_in_order};
use fault_place::{Fault, Places};
use form_shapes::{Declaration, Source, Standing};
use magic_comments::magic_by;
use pack_util::{MAX_TEXT, NoMemory, Seq, Text};
use std::alloc::Global;
use std::collections::BTreeSet;

/// What the tokens so far give, and which names they export and bind.
#[derive(Drop)]
struct State {
    given: Given,
    exported: BTreeSet<Text>,
    bound: BTreeSet<Text>,
}

impl State {
    ghost use Rattle.std.specs.Prelude.{◌<◌, ◌^◌, length, IfOk};
    ghost use Rattle.es_scan.specs.inner.State.{IsUpto};

    /// Before the first token. The tokens are given for what is proved alone.
    fn new(alloc: Global, text: &[u8], _tokens: &[Token]) -> Result<State, NoMemory>
        requires { length text.now < 2 ^ 32 }
        ensures { IfOk result (IsUpto text.now _tokens.now 0) }
    {
        let mut given = Given::new(alloc);
        given.edits = hashbang_edits(alloc, text)?;
        Ok(State {
            given,
            exported: BTreeSet::new(alloc),
            bound: BTreeSet::new(alloc),
        })
    }
}

/// What stands at a token gives, where there is room for so many names of variables.
fn given_by(
    alloc: Global,
    source: Source,
    item: u32,
    room: usize,
    at: usize,
    standing: Standing,
) -> Result<Given, NoMemory>
    requires short { length source.text.now ≤ MAX_TEXT }
    requires small { at < 2 ^ 32 }
    ensures { IfOk result
        (λ given. given ≡ given_by source.entry.text.now source.entry.tokens.now item at
        (magic_by source.entry.text.now source.entry.tokens.now at standing) standing) }
{
    let magic = magic_by(alloc, source, at, standing)?;
    Ok(Given {
        items: option_list(alloc, item_by(alloc, source, at, standing, &magic)?)?,
        binds: binds_by(alloc, source, item, at, standing)?,
        exports: exports_by(alloc, source, item, room, at, standing)?,
        stars: stars_by(alloc, item, standing)?,
        edits: edits_by(alloc, source, item, at, standing, &magic)?,
        flaws: flaws_by(alloc, source, at, standing, &magic)?,
        notes: notes_by(alloc, source, at, standing, magic)?,
        es: is_declaration(standing),
    })
}

/// Adds a flaw for each exported or local name that stands among those seen, and sees the others.
fn with_repeats(
    alloc: Global,
    offset: u32,
    exported: &mut BTreeSet<Text>,
    bound: &mut BTreeSet<Text>,
    given: Given,
) -> Result<Given, NoMemory>
    ensures given { (before own : List (List ℕ)) → HasNames exported.old before → HasNames bound.old own
        → IfOk result (λ more. more ≡ with_repeats offset before own given) }
    ensures exported { (before : List (List ℕ)) → HasNames exported.old before
        → OnOk result (HasNames exported.new (before ++ export_names given.exports)) }
    ensures bound { (own : List (List ℕ)) → HasNames bound.old own
        → OnOk result (HasNames bound.new (own ++ local_names given.binds)) }
{
    let mut given = given;
    let names = export_names(alloc, given.exports.as_slice())?;
    see_names(offset, exported, &mut given.flaws, &names)?;
    let names = local_names(alloc, given.binds.as_slice())?;
    see_names(offset, bound, &mut given.flaws, &names)?;
    Ok(given)
}

/// Adds what stands at a token gives.
fn add_found(
    alloc: Global,
    source: Source,
    at: usize,
    standing: Standing,
    state: &mut State,
) -> Result<(), NoMemory>
    requires short { length source.text.now ≤ MAX_TEXT }
    requires small { at < 2 ^ 32 }
    requires standing { standing ≡ standing_at source.text.now source.tokens.now at }
    requires upto { IsUpto source.text.now source.tokens.now at state.old }
    ensures { OnOk result (IsUpto source.entry.text.now source.entry.tokens.now (at + 1) state.new) }
{
    let item = state.given.items.as_slice().len() as u32;
    let room = source
        .text
        .len()
        .saturating_sub(state.given.exports.as_slice().len());
    let found = given_by(alloc, source, item, room, at, standing)?;
    let offset = source.start_at(at);
    let more = with_repeats(alloc, offset, &mut state.exported, &mut state.bound, found)?;
    join(&mut state.given, more)
}

/// Adds what one token gives.
fn add(alloc: Global, source: Source, at: usize, state: &mut State) -> Result<(), NoMemory>
    requires short { length source.text.now ≤ MAX_TEXT }
    requires small { at < 2 ^ 32 }
    requires there { at < length source.tokens.now }
    requires upto { IsUpto source.text.now source.tokens.now at state.old }
    ensures { OnOk result (IsUpto source.entry.text.now source.entry.tokens.now (at + 1) state.new) }
{
    match source.standing_at(at) {
        Standing::Nothing => Ok(()),
        standing => add_found(alloc, source, at, standing, state),
    }
}

/// Goes on to the declaration of variables that is exported at a token, where one is.
fn follow<'a>(
    alloc: Global,
    source: Source<'a>,
    at: usize,
    known: &mut Declaration<'a>,
) -> Result<(), NoMemory>
    requires there { at < length source.tokens.now }
    requires known { IsDeclaration source.text.now source.tokens.now known.old }
    ensures { OnOk result (IsDeclaration source.entry.text.now source.entry.tokens.now known.new) }
{
    if !source.exports_variables(at) {
        return Ok(());
    }
    known.move_to(alloc, source, at + 2)
}

/// Adds what all tokens give.
fn add_all(alloc: Global, source: Source, state: &mut State) -> Result<(), NoMemory>
    requires short { length source.text.now ≤ MAX_TEXT }
    requires few { length source.tokens.now < 2 ^ 32 }
    requires upto { IsUpto source.text.now source.tokens.now 0 state.old }
    ensures { OnOk result (IsUpto source.entry.text.now source.entry.tokens.now (length source.entry.tokens.now) state.new) }
{
    let mut known = Declaration::nothing(alloc, source);
    for at in 0..source.tokens.len() {
        follow(alloc, source, at, &mut known)?;
        add(alloc, source.knowing(&known), at, state)?;
    }
    Ok(())
}

fn fault_of_flaw(
    alloc: Global,
    path: &str,
    text: &[u8],
    places: &mut Places<'_>,
    flaw: &Flaw,
) -> Result<Fault, NoMemory>
    requires text { places.old ≡ text.now }
    requires within { flaw.now.offset ≤ length text.now }
    ensures fault { IfOk result (λ fault. fault ≡ fault_of_flaw path.now text.now flaw.now) }
    ensures text { places.new ≡ places.old }
{
    Ok(Fault {
        place: places.place(alloc, path, u64::from(flaw.offset))?,
        kind: flaw.kind,
        detail: flaw.detail.clone()?,
    })
}

/// Finds the line and the column of each.
fn place_all(alloc: Global, path: &str, text: &[u8], flaws: &[Flaw]) -> Result<Seq<Fault>, NoMemory>
    requires { All (λ flaw. flaw.offset ≤ length text.now) flaws.now }
    ensures { IfOk result (λ faults. faults ≡ map (fault_of_flaw path.now text.now) flaws.now) }
{
    let mut places = Places::new(text);
    let mut faults = Seq::new(alloc);
    for flaw in flaws {
        faults.push(fault_of_flaw(alloc, path, text, &mut places, flaw)?)?;
    }
    Ok(faults)
}

/// The scan of a text at a path, with its tokens.
pub fn scan(alloc: Global, path: &str, text: &[u8], tokens: &[Token]) -> Result<Scan, NoMemory>
    requires short { length text.now ≤ MAX_TEXT }
    requires tokens { tokens_of text.now ≡ Ok tokens.now }
    ensures { IfOk result (λ scan. scan ≡ scan_of path.now text.now tokens.now) }
{
    one_list_or_one_fault();
    spans_lie_in_order();
    let mut state = State::new(alloc, text, tokens)?;
    add_all(alloc, Source::new(text, tokens), &mut state)?;
    let given = state.given;
    Ok(Scan {
        items: given.items,
        binds: given.binds,
        exports: given.exports,
        stars: given.stars,
        edits: given.edits,
        notes: given.notes,
        faults: place_all(alloc, path, text, given.flaws.as_slice())?,
        es: given.es,
    })
}
