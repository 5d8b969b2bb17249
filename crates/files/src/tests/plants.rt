//! Plants of flows and parts, run: each test is a table of calls, and of what they answer.
use crate::tests::plants::Call::{
    Add, All, Bridge, Collect, Join, Join3, Join8, Met, Rate, Restate, Size, Total,
};
use diagram::diagram::Diagram;
use diagram::refusal::Refusal;
use kinds::values::{Flow, Parts};
use std::process::Abort;
use terms::term::Way::{Parallel, Series};
use terms::term::{Term, Way};

type State = Term<Flow, Parts>;

type Plant = Diagram<Flow, Parts>;

fn state(rate: u32, count: u32) -> State {
    Term {
        performance: Flow::new(rate),
        weight: Parts::new(count),
    }
}

// So many states, of flows by equal steps. No slice: the borrow checker does not follow tables of
// calls that hold references.
#[derive(Clone, Copy)]
struct States {
    number: usize,
    first: u32,
    step: u32,
    count: u32,
}

impl States {
    fn all(self) -> [State; 65] {
        let mut rate = self.first;
        [(); 65].map(|_| {
            let next = state(rate, self.count);
            rate = rate.saturating_add(self.step);
            next
        })
    }
}

// From 0 on.
fn steps(number: usize, step: u32) -> States {
    States {
        number,
        first: 0,
        step,
        count: 1,
    }
}

// One state.
fn sure(first: u32, count: u32) -> States {
    States {
        number: 1,
        first,
        step: 0,
        count,
    }
}

// A call, with what it is given but the store.
#[derive(Clone, Copy)]
enum Call {
    Add(States),
    Join(Way, [usize; 2]),
    Join3(Way, [usize; 3]),
    Join8(Way, [usize; 8]),
    Bridge([usize; 5]),
    Restate(usize, States),
    Collect(usize),
    Size(usize),
    Rate(usize, usize),
    Total(usize),
    Met(usize, u32),
    All(usize, u32),
}

// The number that a call answers: of a term its flow, of an availability what meets the need, or
// all.
fn number_of(plant: &mut Plant, store: &mut [State], call: Call) -> Result<usize, Refusal> {
    match call {
        Add(states) => plant.add(store, &states.all()[0..states.number.min(65)]),
        Join(way, children) => plant.join(store, way, &children),
        Join3(way, children) => plant.join(store, way, &children),
        Join8(way, children) => plant.join(store, way, &children),
        Bridge(arms) => plant.join_bridge(store, arms),
        Restate(k, states) => plant.restate(store, k, &states.all()[0..states.number.min(65)]),
        Collect(k) => plant.collect(store, k),
        Size(k) => plant.size(store, k),
        Rate(k, i) => Ok(plant.term(store, k, i)?.performance.number() as usize),
        Total(k) => Ok(plant.total(store, k)?.number() as usize),
        Met(k, need) => Ok(plant.availability(store, k, Flow::new(need))?.0.number() as usize),
        All(k, need) => Ok(plant.availability(store, k, Flow::new(need))?.1.number() as usize),
    }
}

// That number, or the number of a refusal.
type Answer = Result<usize, u8>;

fn told(answer: Result<usize, Refusal>) -> Answer {
    match answer {
        Ok(number) => Ok(number),
        Err(refusal) => Err(refusal.number()),
    }
}

fn go_on(rt: &impl Abort, plant: &mut Plant, store: &mut [State], calls: &[(Call, Answer)]) {
    let mut done: usize = 0;
    for (call, want) in calls {
        assert_eq!(rt;
            told(number_of(plant, store, *call)),
            *want,
            "after {done} calls"
        );
        done = done.saturating_add(1);
    }
}

fn begin(rt: &impl Abort, store: &mut [State], calls: &[(Call, Answer)]) -> Plant {
    let mut plant = Plant::new(store).expect(rt, "a store of 3,200 terms will do");
    go_on(rt, &mut plant, store, calls);
    plant
}

fn store() -> [State; 3200] {
    [state(0, 0); 3200]
}

#[test]
fn a_store_of_3200_terms_will_do(rt: HostRuntime) {
    let mut store = store();
    let none = Plant::new(&store[0..3199]);
    assert!(rt; matches!(none, Err(Refusal::ShortStore)));
    let calls = [
        (Add(steps(3, 4)), Ok(0)),
        (Add(sure(4, 2)), Ok(1)),
        (Join(Series, [0, 1]), Ok(2)),
        (Restate(1, sure(6, 2)), Ok(1)),
        (Collect(2), Ok(3)),
        (Size(2), Ok(3)),
        (Rate(2, 1), Ok(4)),
        (Rate(2, 2), Ok(6)),
        (Total(2), Ok(6)),
        (Met(2, 4), Ok(4)),
        (All(2, 4), Ok(6)),
        (Bridge([0, 1, 2, 3, 4]), Err(5)),
    ];
    let mut plant = begin(&rt, &mut store, &[]);
    for (call, _) in calls {
        assert_eq!(rt;
            told(number_of(&mut plant, &mut store[0..3199], call)),
            Err(1)
        );
    }
    go_on(&rt, &mut plant, &mut store, &calls);
}

#[test]
fn past_3200_terms_nothing_is_written(rt: HostRuntime) {
    let mut store = [state(77, 77); 3264];
    begin(
        &rt,
        &mut store,
        &[
            (Add(steps(8, 8)), Ok(0)),
            (Restate(0, steps(9, 8)), Ok(9)),
            (Add(steps(64, 8)), Ok(1)),
            (Join(Parallel, [0, 1]), Ok(2)),
            (Collect(2), Err(12)),
            (Restate(0, sure(8, 1)), Ok(1)),
            (Collect(2), Ok(64)),
        ],
    );
    assert_eq!(rt; &store[3200..3264], [state(77, 77); 64].as_slice());
}

// A chain of pairs, as deep as 48 nodes allow: each joining takes the one before and a new part.
#[test]
fn a_chain_of_48_nodes(rt: HostRuntime) {
    let mut store = store();
    let mut plant = begin(&rt, &mut store, &[(Add(sure(1, 1)), Ok(0))]);
    for k in 1..24 {
        let top = if k == 1 { 0 } else { 2 * k - 2 };
        go_on(
            &rt,
            &mut plant,
            &mut store,
            &[
                (Add(sure(1, 1)), Ok(2 * k - 1)),
                (Join(Parallel, [top, 2 * k - 1]), Ok(2 * k)),
                (Collect(2 * k), Ok(1)),
                (Rate(2 * k, 0), Ok(k + 1)),
            ],
        );
    }
    go_on(
        &rt,
        &mut plant,
        &mut store,
        &[(Restate(0, sure(3, 2)), Ok(1)), (Collect(46), Err(10))],
    );
    for k in 1..24 {
        go_on(
            &rt,
            &mut plant,
            &mut store,
            &[(Size(2 * k), Err(13)), (Size(2 * k - 1), Ok(1))],
        );
    }
    for k in 1..24 {
        go_on(&rt, &mut plant, &mut store, &[(Collect(2 * k), Ok(1))]);
    }
    go_on(
        &rt,
        &mut plant,
        &mut store,
        &[
            (Rate(46, 0), Ok(26)),
            (Total(46), Ok(2)),
            (Add(sure(1, 1)), Ok(47)),
            (Add(steps(0, 1)), Err(2)),
            (Join(Series, [46, 46]), Err(2)),
            (Bridge([0, 0, 0, 0, 0]), Err(2)),
            (Restate(47, sure(1, 1)), Ok(1)),
        ],
    );
}

#[test]
fn a_part_has_1_to_64_states(rt: HostRuntime) {
    let mut store = store();
    begin(
        &rt,
        &mut store,
        &[
            (Add(steps(0, 1)), Err(3)),
            (Add(steps(65, 1)), Err(3)),
            (Add(steps(64, 1)), Ok(0)),
            (Restate(0, steps(0, 1)), Err(3)),
            (Restate(0, steps(65, 1)), Err(3)),
            (Rate(0, 63), Ok(63)),
            (Restate(0, steps(64, 2)), Ok(64)),
            (Rate(0, 63), Ok(126)),
            (Restate(0, sure(9, 0)), Ok(0)),
            (Size(0), Ok(0)),
            (Rate(0, 0), Err(14)),
        ],
    );
}

// Flows 0 to 7 in parallel with 0, 8, .. 56 have 64 levels, and with 64 as a ninth 72. A last child
// that is surely the top would leave one of them, and comes too late.
#[test]
fn a_running_result_has_64_terms(rt: HostRuntime) {
    let mut store = store();
    begin(
        &rt,
        &mut store,
        &[
            (Add(steps(8, 1)), Ok(0)),
            (Add(steps(8, 8)), Ok(1)),
            (Join(Parallel, [0, 1]), Ok(2)),
            (Collect(2), Ok(64)),
            (Restate(1, steps(9, 8)), Ok(9)),
            (Collect(2), Err(12)),
            (Size(2), Err(13)),
            (Add(steps(8, 1)), Ok(3)),
            (Add(steps(9, 8)), Ok(4)),
            (Add(sure(4294967295, 1)), Ok(5)),
            (Join3(Parallel, [3, 4, 5]), Ok(6)),
            (Collect(6), Err(12)),
            (Size(6), Err(13)),
            (Restate(4, steps(8, 8)), Ok(8)),
            (Collect(6), Ok(1)),
            (Add(steps(9, 8)), Ok(7)),
            (Add(steps(8, 1)), Ok(8)),
            (Join3(Parallel, [7, 6, 8]), Ok(9)),
            (Collect(9), Ok(1)),
        ],
    );
    // The old row of node 2.
    assert_eq!(rt; &store[128..192], &steps(64, 1).all()[0..64]);
}

// What is asked first is told: 5 before 6 before 7, and so on.
#[test]
fn the_first_refusal_is_told(rt: HostRuntime) {
    let mut store = store();
    let mut plant = begin(
        &rt,
        &mut store,
        &[
            (Add(sure(1, 1)), Ok(0)),
            (Add(sure(2, 1)), Ok(1)),
            (Add(sure(3, 1)), Ok(2)),
            (Add(sure(4, 1)), Ok(3)),
            (Join(Series, [0, 1]), Ok(4)),
            (Join(Series, [4, 2]), Ok(5)),
            (Join(Series, [0, 6]), Err(5)),
            (Join(Series, [9, 9]), Err(5)),
            (Bridge([0, 0, 0, 0, 6]), Err(5)),
            (Join(Series, [3, 2]), Err(6)),
            (Join(Series, [0, 0]), Err(6)),
            (Bridge([3, 3, 3, 3, 0]), Err(6)),
            (Join(Series, [3, 3]), Err(7)),
            (Restate(6, steps(0, 1)), Err(5)),
            (Restate(4, steps(0, 1)), Err(8)),
            (Collect(6), Err(5)),
            (Collect(3), Err(9)),
            (Collect(5), Err(10)),
            (Size(6), Err(5)),
            (Size(4), Err(13)),
            (Rate(6, 0), Err(5)),
            (Rate(4, 0), Err(13)),
            (Rate(3, 1), Err(14)),
            (Total(6), Err(5)),
            (Total(4), Err(13)),
            (Met(6, 1), Err(5)),
            (Met(4, 1), Err(13)),
            (Add(sure(5, 1)), Ok(6)),
        ],
    );
    for children in [[].as_slice(), [9].as_slice(), [0; 9].as_slice()] {
        assert_eq!(rt; told(plant.join(&store, Series, children)), Err(4));
    }
    assert_eq!(rt; told(plant.join(&store, Series, &[0; 8])), Err(6));
}

// Arms a and e have many states; b and d pass enough for both, and c nothing.
#[test]
fn arms_have_24_terms_at_most(rt: HostRuntime) {
    let mut store = store();
    let mut plant = begin(
        &rt,
        &mut store,
        &[
            (Add(steps(24, 1)), Ok(0)),
            (Add(sure(50, 1)), Ok(1)),
            (Add(sure(0, 1)), Ok(2)),
            (Add(sure(50, 1)), Ok(3)),
            (Add(steps(24, 1)), Ok(4)),
            (Bridge([0, 1, 2, 3, 4]), Ok(5)),
            (Collect(5), Ok(47)),
            (Rate(5, 46), Ok(46)),
        ],
    );
    for arm in 0..5 {
        go_on(
            &rt,
            &mut plant,
            &mut store,
            &[
                (Restate(arm, steps(25, 1)), Ok(25)),
                (Collect(5), Err(11)),
                (Size(5), Err(13)),
                (Restate(arm, sure(50, 1)), Ok(1)),
            ],
        );
    }
}

// Eight children at once; and a stale child is told before a long arm.
#[test]
fn eight_children_and_a_bridge_with_a_stale_one(rt: HostRuntime) {
    let mut store = store();
    begin(
        &rt,
        &mut store,
        &[
            (Add(steps(25, 1)), Ok(0)),
            (Add(steps(9, 8)), Ok(1)),
            (Add(steps(8, 1)), Ok(2)),
            (Add(sure(1, 2)), Ok(3)),
            (Add(sure(1, 1)), Ok(4)),
            (Add(sure(1, 1)), Ok(5)),
            (Add(sure(1, 1)), Ok(6)),
            (Add(sure(1, 1)), Ok(7)),
            (Join(Parallel, [6, 7]), Ok(8)),
            (Bridge([0, 1, 2, 5, 8]), Ok(9)),
            (Collect(9), Err(10)),
            (Collect(8), Ok(1)),
            (Collect(9), Err(11)),
            (Restate(0, sure(4294967295, 1)), Ok(1)),
            (Collect(9), Ok(3)),
            (Add(sure(1, 1)), Ok(10)),
            (Add(sure(2, 3)), Ok(11)),
            (Add(sure(3, 1)), Ok(12)),
            (Add(sure(4, 1)), Ok(13)),
            (Add(sure(5, 1)), Ok(14)),
            (Add(sure(6, 1)), Ok(15)),
            (Join8(Parallel, [3, 4, 10, 11, 12, 13, 14, 15]), Ok(16)),
            (Collect(16), Ok(1)),
            (Rate(16, 0), Ok(23)),
            (Total(16), Ok(6)),
        ],
    );
}

// The flows 6, 4, 3, 9, 2 pass 10 over a bridge, and less where two arms are exchanged.
#[test]
fn arms_are_named_from_a_to_e(rt: HostRuntime) {
    for (arms, flow) in [
        ([0, 1, 2, 3, 4], 10),
        ([1, 0, 2, 3, 4], 9),
        ([0, 2, 1, 3, 4], 9),
        ([0, 1, 3, 2, 4], 5),
        ([0, 1, 2, 4, 3], 9),
    ] {
        let mut store = store();
        begin(
            &rt,
            &mut store,
            &[
                (Add(sure(6, 1)), Ok(0)),
                (Add(sure(4, 1)), Ok(1)),
                (Add(sure(3, 1)), Ok(2)),
                (Add(sure(9, 1)), Ok(3)),
                (Add(sure(2, 1)), Ok(4)),
                (Bridge(arms), Ok(5)),
                (Collect(5), Ok(1)),
                (Rate(5, 0), Ok(flow)),
            ],
        );
    }
}

// Two branches, and the node above both.
#[test]
fn an_untouched_branch_stays_up_to_date(rt: HostRuntime) {
    let mut store = store();
    begin(
        &rt,
        &mut store,
        &[
            (Add(sure(1, 1)), Ok(0)),
            (Add(sure(2, 1)), Ok(1)),
            (Add(sure(3, 1)), Ok(2)),
            (Add(sure(4, 1)), Ok(3)),
            (Join(Parallel, [0, 1]), Ok(4)),
            (Join(Series, [2, 3]), Ok(5)),
            (Join(Parallel, [4, 5]), Ok(6)),
            (Collect(4), Ok(1)),
            (Collect(5), Ok(1)),
            (Collect(6), Ok(1)),
            (Restate(2, sure(9, 1)), Ok(1)),
            (Rate(0, 0), Ok(1)),
            (Rate(3, 0), Ok(4)),
            (Rate(4, 0), Ok(3)),
            (Size(5), Err(13)),
            (Size(6), Err(13)),
            (Collect(6), Err(10)),
            (Collect(5), Ok(1)),
            (Collect(6), Ok(1)),
            (Rate(6, 0), Ok(7)),
        ],
    );
}
