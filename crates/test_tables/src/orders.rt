//! Every order in which two workers can build the three files.

use crate::plan::Step::{self, Change, Claim, Publish};
use crate::plan::{ONE_WORKER, have_same_records, plan, run};
use make_core::{CorePlan, CoreState, RunEnd};
use std::alloc::{AllocError, Global};
use std::process::Abort;
use std::test::Fail;

/// The last three are refused everywhere: there is no such worker, no such file and no such record of the plan.
const STEPS: [Step; 15] = [
    Claim(0, 0),
    Claim(0, 1),
    Claim(0, 2),
    Claim(1, 0),
    Claim(1, 1),
    Claim(1, 2),
    Publish(0, 0),
    Publish(0, 1),
    Publish(0, 2),
    Publish(1, 0),
    Publish(1, 1),
    Publish(1, 2),
    Claim(2, 1),
    Claim(0, 3),
    Change(0, 0),
];

fn may_claim(before: &[Step], worker: u32, file: u32) -> bool {
    let is_taken = before.contains(&Claim(0, file)) || before.contains(&Claim(1, file));
    let is_named = before.contains(&Claim(worker, 0))
        || before.contains(&Publish(0, 0))
        || before.contains(&Publish(1, 0));
    worker < 2 && file < 3 && !is_taken && (file == 0 || is_named)
}

/// Whether a step may follow steps that were allowed, read off their list.
fn may_follow(before: &[Step], step: Step) -> bool {
    match step {
        Claim(worker, file) => may_claim(before, worker, file),
        Publish(worker, file) => {
            before.contains(&Claim(worker, file)) && !before.contains(&Publish(worker, file))
        }
        Change(_, _) => false,
    }
}

/// Whether a run of the steps before and one more ends as it has to: where the step may follow, with a state that is quiet,
/// and the same as one worker's, exactly where each event is done.
fn is_right(
    ended: &Result<CoreState, RunEnd>,
    plan: &CorePlan,
    one: &CoreState,
    index: u32,
    may: bool,
) -> bool {
    match ended {
        Ok(state) => {
            let is_last = index == 5;
            may && state.quiet(plan) == is_last && have_same_records(state, one) == is_last
        }
        Err(end) => !may && *end == RunEnd::NotAllowed { index },
    }
}

fn with_step(alloc: Global, before: &[Step], step: Step) -> Result<Vec<Step>, AllocError> {
    let mut steps = before.to_vec(alloc)?;
    steps.push(step)?;
    Ok(steps)
}

fn add_longer(
    rt: &impl Abort,
    alloc: Global,
    plan: &CorePlan,
    one: &CoreState,
    before: &[Step],
    index: u32,
    longer: &mut Vec<Vec<Step>>,
) -> Result<(), AllocError> {
    for step in STEPS {
        let steps = with_step(alloc, before, step)?;
        let may = may_follow(before, step);
        assert!(rt; is_right(&run(rt, alloc, plan, &steps), plan, one, index, may));
        if may {
            longer.push(steps)?;
        }
    }
    Ok(())
}

fn all_longer(
    rt: &impl Abort,
    alloc: Global,
    plan: &CorePlan,
    one: &CoreState,
    orders: &[Vec<Step>],
    index: u32,
) -> Result<Vec<Vec<Step>>, AllocError> {
    let mut longer = Vec::new(alloc);
    for order in orders {
        add_longer(rt, alloc, plan, one, order, index, &mut longer)?;
    }
    Ok(longer)
}

fn all_orders(
    rt: &impl Abort,
    alloc: Global,
    plan: &CorePlan,
    one: &CoreState,
) -> Result<usize, AllocError> {
    let mut orders = Vec::new(alloc);
    orders.push(Vec::new(alloc))?;
    for index in 0..6 {
        orders = all_longer(rt, alloc, plan, one, &orders, index)?;
    }
    Ok(orders.len())
}

#[test]
fn all_orders_give_the_same(rt: HostRuntime) -> Result<(), Fail> {
    let plan = plan(rt.alloc())?;
    let one = run(&rt, rt.alloc(), &plan, &ONE_WORKER).map_err(|_| "refused")?;
    // As many as there are orders of the six events, for the 8 choices of owners, in which the entry is claimed first, a
    // file before it is published, and after the entry's publication where the owner isn't the entry's.
    assert_eq!(rt; all_orders(&rt, rt.alloc(), &plan, &one)?, 112);
    Ok(())
}
