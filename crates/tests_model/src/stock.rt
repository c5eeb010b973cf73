//! Single periods and states, worked out by hand from the model's rules. Whole runs, and amounts at the ends of their
//! ranges, are tested on the program: tests/program/reports.toml and amounts.toml.

ghost use Rattle.std.specs.Prelude.{◌≡◌, ◌≤◌};
ghost use Rattle.crn_stock.specs.Models.{IsPolicy};
ghost use Rattle.crn_stock.specs.Stock.{IsOf, IsBetween};

use crate::scenarios::{
    Levels, always, base_model, costs_of, first_other_line, fixed_draws, model_with, policy,
    steady_model,
};
use crn_cipher::block;
use crn_stock::{Model, Policy, RestoreFault, State};
use std::alloc::{AllocError, Global};
use std::test::Fail;

// The draws of a period (demand, lead time, returned items), and what the state shows after it: the stock, the position,
// the running cost, and the items due in the next period and in the one after.
type Expected = ([u32; 3], i64, i64, u64, [u64; 2]);

// Runs one period and returns whether the state then shows what was expected.
fn runs(state: &mut State, model: &Model, policy: &Policy, expected: Expected) -> bool
    requires policy { IsPolicy policy.now }
    requires of_model { IsOf model.now state.old }
    ensures { IsOf model.now state.new }
{
    let ([demand, lead, returned], stock, position, running, due) = expected;
    if !state.is_open() || demand > 10_000 || lead < 1 || lead > 32 || returned > 10_000 {
        return false;
    }
    if !model.has_returns() && returned > 0 {
        return false;
    }
    state.step(model, policy, demand, lead, returned);
    state.stock() == stock
        && state.position() == position
        && state.running() == running
        && [state.due(0), state.due(1)] == due
}

// Runs these periods and returns whether the state shows what was expected after each.
fn runs_all(state: &mut State, model: &Model, policy: &Policy, expected: &[Expected]) -> bool
    requires policy { IsPolicy policy.now }
    requires of_model { IsOf model.now state.old }
    ensures { IsOf model.now state.new }
{
    for one in expected {
        if !runs(state, model, policy, *one) {
            return false;
        }
    }
    true
}

// Runs the first periods of a replication and returns whether the state shows what was expected after each.
fn begins(
    alloc: Global,
    model: &Model,
    levels: Levels,
    expected: &[Expected],
) -> Result<bool, AllocError>
    requires levels { (levels.low ≤ levels.high) × (levels.high ≤ 100) }
{
    let policy = policy(alloc, "A", levels)?;
    let mut state = State::start(alloc, model)?;
    Ok(runs_all(&mut state, model, &policy, expected))
}

// The same of the base model.
fn base_begins(alloc: Global, levels: Levels, expected: &[Expected]) -> Result<bool, AllocError>
    requires levels { (levels.low ≤ levels.high) × (levels.high ≤ 100) }
{
    let model = base_model(alloc, 5, 1)?;
    begins(alloc, &model, levels, expected)
}

static NO_ORDER: [Expected; 4] = [
    ([1, 1, 0], 59, 59, 59, [0, 0]),
    ([2, 1, 0], 57, 57, 116, [0, 0]),
    ([2, 1, 0], 55, 55, 171, [0, 0]),
    ([4, 1, 0], 51, 51, 222, [0, 0]),
];

#[test]
fn no_order(rt: HostRuntime) -> Result<(), Fail> {
    let begins = base_begins(rt.alloc(), Levels { low: 20, high: 40 }, &NO_ORDER)?;
    assert!(rt; begins);
    Ok(())
}

static ONE_ORDER: [Expected; 4] = [
    ([1, 1, 0], 59, 59, 59, [0, 0]),
    ([2, 1, 0], 57, 78, 211, [21, 0]),
    ([2, 1, 0], 76, 76, 287, [0, 0]),
    ([4, 1, 0], 72, 72, 359, [0, 0]),
];

#[test]
fn one_order(rt: HostRuntime) -> Result<(), Fail> {
    let begins = base_begins(rt.alloc(), Levels { low: 60, high: 80 }, &ONE_ORDER)?;
    assert!(rt; begins);
    Ok(())
}

static LATE_ORDERS: [Expected; 4] = [
    ([2, 2, 0], -2, 1, 21, [0, 3]),
    ([2, 2, 0], -4, -1, 37, [3, 0]),
    ([2, 2, 0], -3, 1, 63, [0, 4]),
    ([2, 2, 0], -5, -1, 83, [4, 0]),
];

// Whether orders arrive late in a model with demands of 2 and lead times of 2.
fn late_begins(alloc: Global) -> Result<bool, AllocError> {
    let costs = costs_of(10, 1, 1, 4);
    let (demand, lead) = fixed_draws(alloc, 2, 2)?;
    let model = model_with(5, 1, 0, costs, demand, lead, None);
    begins(alloc, &model, Levels { low: 1, high: 3 }, &LATE_ORDERS)
}

#[test]
fn late_orders(rt: HostRuntime) -> Result<(), Fail> {
    let begins = late_begins(rt.alloc())?;
    assert!(rt; begins);
    Ok(())
}

// The review of period 3 sees a stock of 4, without the item that is returned in that period.
static ORDER_BEFORE_RETURNS: [Expected; 8] = [
    ([3, 1, 1], 8, 8, 8, [0, 0]),
    ([3, 1, 1], 6, 6, 14, [0, 0]),
    ([3, 1, 1], 4, 4, 18, [0, 0]),
    ([3, 1, 1], 2, 8, 39, [6, 0]),
    ([3, 1, 1], 6, 6, 45, [0, 0]),
    ([3, 1, 1], 4, 4, 49, [0, 0]),
    ([3, 1, 1], 2, 8, 70, [6, 0]),
    ([3, 1, 1], 6, 6, 76, [0, 0]),
];

// Whether this is so where one item is returned in each period.
fn orders_before_returns(alloc: Global) -> Result<bool, AllocError> {
    let returns = always(alloc, 1)?;
    let model = steady_model(alloc, 9, 2, 1, Some(returns))?;
    begins(
        alloc,
        &model,
        Levels { low: 5, high: 10 },
        &ORDER_BEFORE_RETURNS,
    )
}

#[test]
fn order_before_returns(rt: HostRuntime) -> Result<(), Fail> {
    assert!(rt; orders_before_returns(rt.alloc())?);
    Ok(())
}

// Applies the remaining blocks of the zero key and returns whether the state ends with these costs.
fn ends(model: &Model, policy: &Policy, mut state: State, costs: &[u64]) -> bool
    requires policy { IsPolicy policy.now }
    requires of_model { IsOf model.now state }
    requires between { IsBetween state }
{
    for number in state.next_block()..model.total() {
        if state.next_block() != number {
            return false;
        }
        state.take_block(model, policy, &block([0; 4], number));
    }
    state.costs() == costs && !state.is_open()
}

// Whether a state shows these amounts, with nothing due later than in the next period.
fn shows(state: &State, next_block: u64, stock: i64, running: u64, due: u64) -> bool {
    for k in 1..32 {
        if state.due(k) != 0 {
            return false;
        }
    }
    state.next_block() == next_block
        && state.stock() == stock
        && state.running() == running
        && state.due(0) == due
}

// Whether the state after the first block and its copy show these amounts, and the copy ends with these costs.
fn copies(
    alloc: Global,
    model: &Model,
    levels: Levels,
    amounts: (i64, u64, u64),
    costs: &[u64],
) -> Result<bool, AllocError>
    requires levels { (levels.low ≤ levels.high) × (levels.high ≤ 100) }
{
    let policy = policy(alloc, "A", levels)?;
    let mut state = State::start(alloc, model)?;
    if state.next_block() >= model.total() {
        return Ok(false);
    }
    state.take_block(model, &policy, &block([0; 4], 0));
    let (stock, running, due) = amounts;
    let copy = state.copy(alloc)?;
    Ok(
        shows(&state, 1, stock, running, due)
            && shows(&copy, 1, stock, running, due)
            && ends(model, &policy, copy, costs),
    )
}

// Two replications of five periods, so that each ends within its second block.
fn twice(alloc: Global) -> Result<Model, AllocError> {
    steady_model(alloc, 5, 2, 1, None)
}

const A: Levels = Levels { low: 5, high: 10 };

const B: Levels = Levels { low: 4, high: 10 };

fn both_copy(alloc: Global) -> Result<bool, AllocError> {
    let model = twice(alloc)?;
    Ok(
        copies(alloc, &model, A, (4, 35, 0), &[55, 55])?
            && copies(alloc, &model, B, (-2, 45, 9), &[49, 49])?,
    )
}

#[test]
fn copied(rt: HostRuntime) -> Result<(), Fail> {
    assert!(rt; both_copy(rt.alloc())?);
    Ok(())
}

// Whether a copy of a state at block 1 shows these amounts.
fn copy_shows(alloc: Global, state: &State, amounts: (i64, u64, u32)) -> Result<bool, AllocError> {
    let (stock, running, arriving) = amounts;
    let copy = state.copy(alloc)?;
    Ok(shows(&copy, 1, stock, running, u64::from(arriving)))
}

// Whether a state of these amounts can be restored at block 1 and copied, and ends with these costs.
fn resumes(
    alloc: Global,
    model: &Model,
    levels: Levels,
    amounts: (i64, u64, u32),
    costs: &[u64],
) -> Result<bool, AllocError>
    requires levels { (levels.low ≤ levels.high) × (levels.high ≤ 100) }
{
    let policy = policy(alloc, "A", levels)?;
    let (stock, running, arriving) = amounts;
    let mut due = [0; 32];
    due[0] = arriving;
    match State::restore(alloc, model, 1, stock, &due, running, &[]) {
        Ok(state) => Ok(
            shows(&state, 1, stock, running, u64::from(arriving))
                && copy_shows(alloc, &state, amounts)?
                && ends(model, &policy, state, costs),
        ),
        Err(_) => Ok(false),
    }
}

fn both_resume(alloc: Global) -> Result<bool, AllocError> {
    let model = twice(alloc)?;
    Ok(
        resumes(alloc, &model, A, (4, 35, 0), &[55, 55])?
            && resumes(alloc, &model, B, (-2, 45, 9), &[49, 49])?,
    )
}

#[test]
fn restored(rt: HostRuntime) -> Result<(), Fail> {
    assert!(rt; both_resume(rt.alloc())?);
    Ok(())
}

// The faults, with their numbers and their lines.
static FAULTS: [(RestoreFault, u8, &str); 2] = [
    (RestoreFault::Range, 1, "an amount is outside its range"),
    (RestoreFault::Memory(AllocError), 90, "out of memory"),
];

#[test]
fn numbers_and_lines_of_faults(rt: HostRuntime) -> Result<(), Fail> {
    assert_eq!(rt;
        first_other_line(rt.alloc(), &FAULTS, RestoreFault::number)?,
        None
    );
    Ok(())
}
