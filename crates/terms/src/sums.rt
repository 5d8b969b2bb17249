//! The weight of a row, and the weight in it that meets a demand.
ghost use Rattle.std.specs.Prelude.{◌≡◌};
ghost use Rattle.terms.specs.Sums.{total_of, met_of, counted_for};
ghost use Rattle.terms.specs.Rows.{sum_over};
ghost use Rattle.terms.specs.Growing.{OfMap};

use crate::term::Term;
use kinds::performance::Performance;
use kinds::weight::Weight;

/// The weight that meets the demand, and the weight of everything.
///
/// Of any list of terms, be it a row or not.
pub fn availability<P: Performance, W: Weight>(row: &[Term<P, W>], demand: P) -> (W, W)
    ensures { result ≡ (met_of P.Performance W.Weight demand row.now, total_of W.Weight row.now) }
{
    (sum_of(row, |t| counted(t, demand)), total(row))
}

/// The sum of all the weights, of any list of terms.
pub fn total<P: Performance, W: Weight>(row: &[Term<P, W>]) -> W
    ensures { result ≡ total_of W.Weight row.now }
{
    sum_of(row, |t| t.weight)
}

// The sum of what each term of the row gives. IsAlwaysCallable: the toolchain asks it of whoever
// calls a parameter.
fn sum_of<P: Performance, W: Weight, F: Fn(Term<P, W>) -> W>(row: &[Term<P, W>], gives: F) -> W
    requires { F.IsAlwaysCallable gives }
    ensures { OfMap (F.post gives) (λ given. result ≡ sum_over W.Weight given row.now) }
{
    let mut all = W::none();
    for t in row {
        all = all.plus(gives(*t));
    }
    all
}

// The weight of a term that meets the demand; nothing of one that does not.
fn counted<P: Performance, W: Weight>(t: Term<P, W>, demand: P) -> W
    ensures { result ≡ counted_for P.Performance W.Weight demand t }
{
    if t.performance.satisfies(demand) {
        t.weight
    } else {
        W::none()
    }
}
