//! The order of candidates.
ghost use Rattle.std.specs.Prelude.{◌≡◌};
ghost use Rattle.std.specs.Ordering.{nat_cmp, int_cmp, ordering_then};
ghost use Rattle.std.specs.Cmp.Lexicographic.{slice_cmp};
ghost use Rattle.split_plan.specs.Order.{places, weight_of, counts_order, sets_order};

use crate::Candidate;
use bit_rows::BitRow;
use graph_types::CacheGroup;
use std::cmp::Ordering;

/// Compares the lists of the true places.
fn compare_places(row: &BitRow, other: &BitRow) -> Ordering
    ensures { result ≡ slice_cmp nat_cmp (places row.now) (places other.now) }
{
    let _len = row.len();
    let mut at = 0;
    loop {
        match (row.next_from(at), other.next_from(at)) {
            (Some(place), Some(elsewhere)) => {
                if place != elsewhere {
                    return place.cmp(&elsewhere);
                }
                at = place + 1;
            }
            (Some(_), None) => return Ordering::Greater,
            (None, Some(_)) => return Ordering::Less,
            (None, None) => return Ordering::Equal,
        }
    }
}

fn weight(x: &Candidate) -> u128
    ensures { result ≡ weight_of x.now }
{
    let others = x.chunks.count().saturating_sub(1);
    u128::from(x.size) * u128::from(others)
}

fn compare_counts(x: &Candidate, y: &Candidate) -> Ordering
    ensures { result ≡ counts_order x.now y.now }
{
    let groups = y.cache_group.cmp(&x.cache_group);
    let rest = groups.then(x.modules.count().cmp(&y.modules.count()));
    let rest = weight(x).cmp(&weight(y)).then(rest);
    x.chunks.count().cmp(&y.chunks.count()).then(rest)
}

fn compare_sets(x: &Candidate, y: &Candidate) -> Ordering
    ensures { result ≡ sets_order x.now y.now }
{
    let forms = y.forced.cmp(&x.forced);
    let rest = compare_places(&y.chunks, &x.chunks).then(forms);
    compare_places(&y.modules, &x.modules).then(rest)
}

/// Compares candidates of two cache groups. The sets are looked at only where all else is equal.
pub fn compare(group: &CacheGroup, other: &CacheGroup, x: &Candidate, y: &Candidate) -> Ordering
    ensures { result ≡ ordering_then (int_cmp group.now.priority other.now.priority) (ordering_then (counts_order x.now y.now) (sets_order x.now y.now)) }
{
    let first = group
        .priority
        .cmp(&other.priority)
        .then(compare_counts(x, y));
    match first {
        Ordering::Equal => compare_sets(x, y),
        Ordering::Less | Ordering::Greater => first,
    }
}
