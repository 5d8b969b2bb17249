//! What a kind of weight is: a weight called nothing, a sum, a product, a test for nothing, and
//! their laws.
ghost use Rattle.std.specs.Prelude.{◌≡◌, Bool, true};

/// A kind of weight, whose values are those of the type: what is told of a performance, as how many
/// parts of a whole have it. An operation refuses nothing and changes nothing.
pub trait Weight: Copy {
    ghost nothing: { Self };

    ghost sum: { Self → Self → Self };

    ghost product: { Self → Self → Self };

    ghost is_nothing: { Self → Bool };

    /// The weight called nothing, of what cannot be.
    fn none() -> Self
        ensures { result ≡ nothing };

    /// The sum: the weight of terms that are alike.
    fn plus(self, other: Self) -> Self
        ensures { result ≡ sum self other };

    /// The product: the weight of what is joined.
    fn times(self, other: Self) -> Self
        ensures { result ≡ product self other };

    /// Whether it is the weight called nothing.
    fn is_nothing(self) -> bool
        ensures { result ≡ is_nothing self };

    ghost test_accepts_nothing: { is_nothing nothing ≡ true };

    ghost test_accepts_only_nothing: { (a : Self) → is_nothing a ≡ true → a ≡ nothing };

    ghost sum_associative: { (a b c : Self) → sum (sum a b) c ≡ sum a (sum b c) };

    ghost sum_commutative: { (a b : Self) → sum a b ≡ sum b a };

    ghost sum_neutral: { (a : Self) → sum nothing a ≡ a };

    ghost sum_none: { (a b : Self) → sum a b ≡ nothing → (a ≡ nothing) × (b ≡ nothing) };

    ghost product_associative: { (a b c : Self) →
        product (product a b) c ≡ product a (product b c) };

    ghost product_commutative: { (a b : Self) → product a b ≡ product b a };

    ghost product_distributes: { (a b c : Self) →
        product a (sum b c) ≡ sum (product a b) (product a c) };

    ghost product_nothing: { (a : Self) → product nothing a ≡ nothing };
}
