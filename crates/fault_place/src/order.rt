ghost use Rattle.std.specs.Prelude.{◌≡◌, map, refl, IfOk, OnOk, OnErr};
ghost use Rattle.std.specs.Cmp.{on_total, eq_by_cmp_equiv, partial_equiv_from_equiv, partial_order_from_total};
ghost use Rattle.std.specs.List.Sorted.{IsPermutation, IsSorted};
ghost use Rattle.std.specs.Ordering.{on, eq_by_cmp, as_partial_cmp};
ghost use Rattle.fault_place.specs.Fault.{line_of, fault_cmp, in_order};
ghost use Rattle.fault_place.specs.Order.{fault_cmp-total};

use crate::{Bytes, Fault, NoMemory, fault_line};
use std::alloc::Global;
use std::cmp::Ordering;

/// A fault with its line, by which faults of one kind at one offset are ordered.
#[derive(Drop)]
struct LinedFault {
    fault: Fault,
    line: Bytes,
    ghost own_line: { line ≡ line_of fault },
}

impl LinedFault {
    fn new(alloc: Global, fault: &Fault) -> Result<LinedFault, NoMemory>
        ensures { IfOk result (λ lined. lined.fault ≡ fault.now) }
    {
        let line = Bytes::from_vec(fault_line(alloc, fault)?);
        Ok(LinedFault {
            fault: fault.clone()?,
            line,
        })
    }
}

impl PartialEq for LinedFault {
    ghost eq = { eq_by_cmp (on (λ lined. lined.fault) fault_cmp) };

    ghost laws = { partial_equiv_from_equiv (eq_by_cmp_equiv (on_total (λ lined. lined.fault) fault_cmp-total)) };

    fn eq(&self, other: &LinedFault) -> bool {
        self.cmp(other).is_eq()
    }
}

impl Eq for LinedFault {
    ghost laws = { eq_by_cmp_equiv (on_total (λ lined. lined.fault) fault_cmp-total) };
}

impl PartialOrd for LinedFault {
    ghost partial_cmp = { as_partial_cmp (on (λ lined. lined.fault) fault_cmp) };

    ghost laws = { partial_order_from_total (on_total (λ lined. lined.fault) fault_cmp-total) };

    fn partial_cmp(&self, other: &LinedFault) -> Option<Ordering> {
        Some(self.cmp(other))
    }
}

impl Ord for LinedFault {
    ghost cmp = { on (λ lined. lined.fault) fault_cmp };

    ghost total = { on_total (λ lined. lined.fault) fault_cmp-total };

    ghost matches_partial_cmp = { λ _ _. refl };

    ghost matches_eq = { λ _ _. refl };

    fn cmp(&self, other: &LinedFault) -> Ordering {
        let (one, two) = (&self.fault, &other.fault);
        let by_path = one.place.path.cmp(&two.place.path);
        let by_offset = one.place.offset.cmp(&two.place.offset);
        let by_kind = one.kind.number().cmp(&two.kind.number());
        by_path
            .then(by_offset)
            .then(by_kind)
            .then(self.line.cmp(&other.line))
    }
}

fn with_lines(alloc: Global, faults: &[Fault]) -> Result<Vec<LinedFault>, NoMemory>
    ensures { IfOk result (λ all. map (λ lined. lined.fault) all.items ≡ faults.now) }
{
    let mut all = Vec::new(alloc);
    for fault in faults {
        all.push(LinedFault::new(alloc, fault)?)?;
    }
    Ok(all)
}

fn without_lines(alloc: Global, all: Vec<LinedFault>) -> Result<Vec<Fault>, NoMemory>
    ensures { IfOk result (λ faults. faults.items ≡ map (λ lined. lined.fault) all.items) }
{
    all.into_iter().map(|lined| lined.fault).collect(alloc)
}

/// Sorts by path, then offset, then kind number, then line.
pub fn sort_faults(alloc: Global, faults: &mut Vec<Fault>) -> Result<(), NoMemory>
    ensures ok { OnOk result (faults.new.items ≡ in_order faults.old.items) }
    ensures err { OnErr result (faults.new.items ≡ faults.old.items) }
    ensures sorted { OnOk result (IsSorted fault_cmp faults.new.items) }
    ensures same { IsPermutation faults.old.items faults.new.items }
{
    let mut all = with_lines(alloc, faults)?;
    all.sort()?;
    *faults = without_lines(alloc, all)?;
    Ok(())
}
