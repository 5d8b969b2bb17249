//! Lists of terms at the edges: empty, of no weight, as long as the room, at the top weight.
use kinds::values::{Flow, Parts};
use terms::bridge::bridge;
use terms::combine::combine;
use terms::merge::{add, merge};
use terms::sums::availability;
use terms::term::{Term, Way};

type State = Term<Flow, Parts>;

fn state(rate: u32, count: u32) -> State {
    Term {
        performance: Flow::new(rate),
        weight: Parts::new(count),
    }
}

#[test]
fn rows_of_nothing_are_empty(rt: HostRuntime) {
    let mut room = [state(7, 7); 4];
    let none: [State; 0] = [];
    let nothings = [state(1, 0), state(2, 0)];
    let some = [state(1, 5)];
    assert_eq!(rt; merge(&none, &mut room), Some(0));
    assert_eq!(rt; merge(&nothings, &mut room), Some(0));
    assert_eq!(rt; combine(Way::Series, &none, &some, &mut room), Some(0));
    assert_eq!(rt;
        combine(Way::Parallel, &some, &nothings, &mut room),
        Some(0)
    );
    assert_eq!(rt; merge(&some, &mut room[0..0]), None);
    assert_eq!(rt; merge(&nothings, &mut room[0..0]), Some(0));
    let (met, total) = availability(&none, Flow::new(0));
    assert_eq!(rt; met.number(), 0);
    assert_eq!(rt; total.number(), 0);
}

#[test]
fn weights_stop_at_the_top(rt: HostRuntime) {
    let mut room = [state(0, 0); 4];
    let half = [state(3, 2147483648), state(0, 1)];
    let twice = [state(5, 2)];
    assert_eq!(rt; combine(Way::Series, &half, &twice, &mut room), Some(2));
    let (met, total) = availability(&room[0..2], Flow::new(3));
    assert_eq!(rt; met.number(), 4294967295);
    assert_eq!(rt; total.number(), 4294967295);
}

// Two functions, not one with a const parameter: `map` must know that the array fits memory.
fn units() -> [State; 8] {
    [0, 1, 2, 3, 4, 5, 6, 7].map(|rate| state(rate, 1))
}

fn eights() -> [State; 9] {
    [0, 8, 16, 24, 32, 40, 48, 56, 64].map(|rate| state(rate, 1))
}

// Flows 0 to 7 parallel with 0, 8, .. 56 have 64 levels, which a room of 64 holds.
#[test]
fn a_65th_level_is_refused(rt: HostRuntime) {
    let eights = eights();
    let mut room = [state(0, 0); 64];
    assert_eq!(rt;
        combine(Way::Parallel, &units(), &eights[0..8], &mut room),
        Some(64)
    );
    assert_eq!(rt; add(&mut room, 64, state(63, 5)), Some(64));
    assert_eq!(rt; add(&mut room, 64, state(64, 1)), None);
}

// How many combinations there are does not matter: 72 with 72 levels, and 81 with 9.
#[test]
fn only_levels_count(rt: HostRuntime) {
    let mut room = [state(0, 0); 64];
    assert_eq!(rt;
        combine(Way::Parallel, &units(), &eights(), &mut room),
        None
    );
    let mut small = [state(0, 0); 9];
    assert_eq!(rt;
        combine(Way::Series, &eights(), &eights(), &mut small),
        Some(9)
    );
    assert_eq!(rt;
        add(&mut small, 10, state(0, 1)),
        None,
        "a room of 9 places holds no 10 terms"
    );
}

// Arms of 1, 4, 10, 2 and 9 pass 5; with an arm of 0 in half of the parts, what the other paths
// pass.
#[test]
fn a_bridge_of_single_states(rt: HostRuntime) {
    let (a, b, c, d, e) = (
        [state(1, 2)],
        [state(4, 3)],
        [state(10, 1)],
        [state(2, 1)],
        [state(9, 1), state(0, 1)],
    );
    let mut room = [state(0, 0); 4];
    assert_eq!(rt; bridge(&a, &b, &c, &d, &e[0..1], &mut room), Some(1));
    assert_eq!(rt; room[0], state(5, 6));
    assert_eq!(rt; bridge(&a, &b, &c, &d, &e, &mut room), Some(2));
    assert_eq!(rt; room[0], state(2, 6));
    assert_eq!(rt; room[1], state(5, 6));
    assert_eq!(rt; bridge(&a, &b, &c, &d, &e, &mut room[0..1]), None);
}
