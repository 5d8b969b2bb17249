//! Which models there are.

/// Calls a macro for each model, with what is handed on to it, and then: the number that a file
/// names the model by, its kind, its weight, and some performance.
macro_rules! for_each_model {
    ($each:ident $given:tt) => {
        $each!($given 1, values::Flow, values::Parts, values::Flow::new(0));
        $each!($given 2, values::Delay, values::Parts, values::Delay::new(0));
        $each!($given 3, values::FaultSet, values::Scenarios, values::FaultSet::new(0));
        $each!($given 4, values::FirstFault, values::Parts, values::FirstFault::new(0));
        $each!($given 5, values::Pair<values::Delay, values::Flow>, values::Effort, values::Pair {
            first: values::Delay::new(0),
            second: values::Flow::new(0),
        });
        $each!($given 6, values::OrOut<values::Flow>, values::Parts, values::OrOut::Out);
        $each!($given 7, values::OrOut<values::Delay>, values::Parts, values::OrOut::Out);
    };
}

pub(crate) use for_each_model;
