//! Values at the edges: the top, an arm that is out, where order counts.
use kinds::capped::TOP32;
use kinds::declares::order_counts;
use kinds::performance::Performance;
use kinds::values::{Delay, Effort, FirstFault, Flow, OrOut, Pair, Parts};
use kinds::weight::Weight;

// Two numbers, their capped sum and their capped product.
const CAPPED: [(u32, u32, u32, u32); 5] = [
    (0, 0, 0, 0),
    (TOP32, 0, TOP32, 0),
    (TOP32, 1, TOP32, TOP32),
    (2147483648, 2, 2147483650, TOP32),
    (65536, 65535, 131071, 4294901760),
];

#[test]
fn sums_and_products_stop_at_the_top(rt: HostRuntime) {
    for (a, b, sum, product) in CAPPED {
        assert_eq!(rt; Parts::new(a).plus(Parts::new(b)).number(), sum);
        assert_eq!(rt; Parts::new(a).times(Parts::new(b)).number(), product);
        assert_eq!(rt; Flow::new(a).in_parallel(Flow::new(b)).number(), sum);
        assert_eq!(rt; Delay::new(a).in_series(Delay::new(b)).number(), sum);
        assert_eq!(rt; Effort::new(a).times(Effort::new(b)).number(), sum);
    }
    assert_eq!(rt; Effort::none().number(), TOP32);
}

fn service(rate: u32) -> OrOut<Flow> {
    OrOut::Working(Flow::new(rate))
}

// The flows 6, 4, 3, 9, 2 over a bridge, with the arm in question out.
#[test]
fn out_in_every_arm(rt: HostRuntime) {
    let (a, b, c, d, e) = (service(6), service(4), service(3), service(9), service(2));
    let out = OrOut::Out;
    assert_eq!(rt; OrOut::in_bridge(a, b, c, d, e), service(10));
    assert_eq!(rt; OrOut::in_bridge(out, b, c, d, e), service(4), "arm a");
    assert_eq!(rt; OrOut::in_bridge(a, out, c, d, e), service(6), "arm b");
    assert_eq!(rt; OrOut::in_bridge(a, b, out, d, e), service(8), "arm c");
    assert_eq!(rt; OrOut::in_bridge(a, b, c, out, e), service(2), "arm d");
    assert_eq!(rt; OrOut::in_bridge(a, b, c, d, out), service(9), "arm e");
    assert_eq!(rt; OrOut::in_bridge(out, out, c, d, e), out, "arms a and b");
}

// The constants themselves, since `order_counts` is what is tested.
fn constants<K: Performance>() -> (bool, bool) {
    (K::SERIES_ORDER_COUNTS, K::PARALLEL_ORDER_COUNTS)
}

// Where order counts, as the kinds say it and as it is told for any kind.
#[test]
fn constants_say_what_the_methods_say(rt: HostRuntime) {
    let counts = (true, true);
    let does_not = (false, false);
    assert_eq!(rt; constants::<Flow>(), does_not);
    assert_eq!(rt; order_counts::<Flow>(), does_not);
    assert_eq!(rt; constants::<FirstFault>(), counts);
    assert_eq!(rt; order_counts::<FirstFault>(), counts);
    assert_eq!(rt; constants::<Pair<Delay, Flow>>(), does_not);
    assert_eq!(rt; order_counts::<Pair<Delay, Flow>>(), does_not);
    assert_eq!(rt; constants::<Pair<Flow, FirstFault>>(), counts);
    assert_eq!(rt; order_counts::<Pair<Flow, FirstFault>>(), counts);
    assert_eq!(rt; constants::<Pair<FirstFault, Flow>>(), counts);
    assert_eq!(rt; order_counts::<Pair<FirstFault, Flow>>(), counts);
    assert_eq!(rt; constants::<OrOut<Flow>>(), does_not);
    assert_eq!(rt; order_counts::<OrOut<Flow>>(), does_not);
    assert_eq!(rt; constants::<OrOut<FirstFault>>(), counts);
    assert_eq!(rt; order_counts::<OrOut<FirstFault>>(), counts);
}
