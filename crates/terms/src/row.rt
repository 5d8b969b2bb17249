//! A row that stands in lent memory, and what merges a term into it.
ghost use Rattle.std.specs.Prelude.{◌≡◌, ◌≤◌, ◌%◌, ◌↔◌, IsTrue, length};
ghost use Rattle.std.specs.List.Sorted.{IsBinarySearchResult, IsSearchInRange};
ghost use Rattle.terms.specs.Combinations.{term};

use crate::term::Term;
use kinds::performance::Performance;
use kinds::weight::Weight;

// How many places a row remembers: one for each slot.
const SLOTS: usize = 256;

// A row in the first `len` places of a room. The room is the caller's, lent from call to call.
// `seen` has, by the slot of a performance, the place where one of that slot was last merged: a
// hint, and any number does.
#[derive(Drop)]
pub(crate) struct Row<'a, P, W> {
    pub(crate) room: &'a mut [Term<P, W>],
    pub(crate) len: usize,
    seen: [u8; SLOTS],
    ghost fits: { len ≤ length room.now },
}

// Terms with one key that follow one another: the key, and the sum of their weights.
#[derive(Clone, Copy)]
pub(crate) struct Group<K, W> {
    pub(crate) key: K,
    pub(crate) weight: W,
}

impl<K: Copy, W: Weight> Group<K, W> {
    fn times(self, weight: W) -> Group<K, W>
        ensures { result ≡ record self { weight = W.product weight self.weight } }
    {
        Group {
            key: self.key,
            weight: weight.times(self.weight),
        }
    }

    fn term(self) -> Term<K, W>
        ensures { result ≡ term self.key self.weight }
    {
        Term {
            performance: self.key,
            weight: self.weight,
        }
    }
}

// IsAlwaysCallable: the toolchain asks it of whoever calls a parameter.
impl<'a, P: Performance, W: Weight> Row<'a, P, W> {
    ghost use Rattle.std.specs.Prelude.{[], ◌∷◌};
    ghost use Rattle.terms.specs.Combinations.{each};
    ghost use Rattle.terms.specs.Growing.{Grows, GrowsAt, GrowsEach, GrowsTimes, GrowsEachTimes};
    ghost use Rattle.terms.specs.Growing.{OfStep, OfMap, GrowsByGroup, GrowsOnGroup, mapped};
    ghost use Rattle.terms.specs.Merging.{Merges};

    // The row of what a step for each of `xs` adds, in the first places of `room`; None where it
    // is longer than the room.
    pub(crate) fn of_each<F: Fn(&mut Row<P, W>, Term<P, W>) -> Option<()>>(
        xs: &[Term<P, W>],
        room: &'a mut [Term<P, W>],
        step: F,
    ) -> Option<usize>
        requires { F.IsAlwaysCallable step }
        ensures { OfStep P.Performance W.Weight (F.post step) (λ gives.
            Merges P.Performance W.Weight (each xs.now gives) room.new result) }
    {
        let mut row = Row::standing(room, 0);
        row.for_each(xs, step)?;
        Some(row.len)
    }

    // The row that stands in the first `len` places of a room, which both callers know to be
    // there.
    pub(crate) fn standing(room: &'a mut [Term<P, W>], len: usize) -> Row<'a, P, W>
        requires { len ≤ length room.old }
        ensures same_room { result.room.ghost_name ≡ room.entry.ghost_name }
        ensures untouched { result.room.now ≡ room.old }
        ensures as_long { result.len ≡ len }
    {
        Row {
            room,
            len,
            seen: [0; SLOTS],
        }
    }

    // Takes a step for each of `xs`; None as soon as a step answers None.
    pub(crate) fn for_each<F: Fn(&mut Row<P, W>, Term<P, W>) -> Option<()>>(
        &mut self,
        xs: &[Term<P, W>],
        step: F,
    ) -> Option<()>
        requires { F.IsAlwaysCallable step }
        ensures { GrowsEach P.Performance W.Weight (F.post step) xs.now self.old self.new result }
    {
        for x in xs {
            step(self, *x)?;
        }
        Some(())
    }

    // The same, with each weight times `weight`. If that is nothing no step is taken: none would
    // add anything.
    pub(crate) fn for_each_times<F: Fn(&mut Row<P, W>, Term<P, W>) -> Option<()>>(
        &mut self,
        weight: W,
        xs: &[Term<P, W>],
        step: F,
    ) -> Option<()>
        requires { F.IsAlwaysCallable step }
        ensures { GrowsEachTimes P.Performance W.Weight (F.post step)
            weight xs.now self.old self.new result }
    {
        if weight.is_nothing() {
            return Some(());
        }
        self.for_each(
            xs,
            |row, x|
                requires { F.IsAlwaysCallable step }
                ensures { GrowsTimes P.Performance W.Weight (F.post step)
                    weight x row.old row.new result }
            { step(row, scaled(weight, x)) },
        )
    }

    // Adds a term for each of `xs`: `f` of its performance, with its weight times `weight`.
    pub(crate) fn put_each<F: Fn(P) -> P>(
        &mut self,
        weight: W,
        xs: &[Term<P, W>],
        f: F,
    ) -> Option<()>
        requires { F.IsAlwaysCallable f }
        ensures { OfMap (F.post f) (λ g. Grows P.Performance W.Weight
            (each xs.now (λ x. mapped W.Weight g weight x ∷ [])) self.old self.new result) }
    {
        self.for_each_group(
            weight,
            xs,
            f,
            |p, q| like(p, q),
            |row, group| row.put(group.term()),
        )
    }

    // Takes a step for the key of each of `xs`, with its weight times `weight`: one for each group
    // of like keys, since weights of likes add up. If `weight` is nothing, nothing is to add.
    pub(crate) fn for_each_group<
        K: Copy,
        F: Fn(P) -> K,
        S: Fn(K, K) -> bool,
        T: Fn(&mut Row<P, W>, Group<K, W>) -> Option<()>,
    >(&mut self, weight: W, xs: &[Term<P, W>], key: F, same: S, step: T) -> Option<()>
        requires key { F.IsAlwaysCallable key }
        requires same { S.IsAlwaysCallable same }
        requires step { T.IsAlwaysCallable step }
        ensures { GrowsByGroup P.Performance W.Weight (F.post key) (S.post same) (T.post step)
            weight xs.now self.old self.new result }
    {
        if weight.is_nothing() {
            return Some(());
        }
        let Some((first, rest)) = xs.split_first() else {
            return Some(());
        };
        let group = Group {
            key: key(first.performance),
            weight: first.weight,
        };
        self.group_on(weight, group, rest, key, same, step)
    }

    // The rest of them: `group` is held back until another key comes, or the end, and then a step
    // is taken for it.
    fn group_on<
        K: Copy,
        F: Fn(P) -> K,
        S: Fn(K, K) -> bool,
        T: Fn(&mut Row<P, W>, Group<K, W>) -> Option<()>,
    >(
        &mut self,
        weight: W,
        mut group: Group<K, W>,
        rest: &[Term<P, W>],
        key: F,
        same: S,
        step: T,
    ) -> Option<()>
        requires key { F.IsAlwaysCallable key }
        requires same { S.IsAlwaysCallable same }
        requires step { T.IsAlwaysCallable step }
        ensures { GrowsOnGroup P.Performance W.Weight (F.post key) (S.post same) (T.post step)
            weight group rest.now self.old self.new result }
    {
        for x in rest {
            let next = key(x.performance);
            if same(next, group.key) {
                group.weight = group.weight.plus(x.weight);
            } else {
                step(self, group.times(weight))?;
                group = Group {
                    key: next,
                    weight: x.weight,
                };
            }
        }
        step(self, group.times(weight))
    }

    // Adds one term: to the one of its performance if the row has it, or else at the place where
    // that would stand.
    // Not inlined: within the loops it would leave them too few registers.
    #[inline(never)]
    pub(crate) fn put(&mut self, t: Term<P, W>) -> Option<()>
        ensures { Grows P.Performance W.Weight (t ∷ []) self.old self.new result }
    {
        let slot = t.performance.slot() as usize;
        let guess = self.seen[slot] as usize;
        let room = &mut *self.room;
        match place(&room[..self.len], guess, t.performance) {
            Ok(at) => {
                room[at] = grown(room[at], t.weight);
                self.seen[slot] = hint(at);
                Some(())
            }
            Err(at) => self.insert(at, t),
        }
    }

    // Puts a term in at the place `at`, between the lesser and the greater ones, which move up.
    // That happens once for each place of a row at most, so that it had better not lie within the
    // loops.
    #[cold]
    #[inline(never)]
    fn insert(&mut self, at: usize, t: Term<P, W>) -> Option<()>
        requires { at ≤ self.old.len }
        ensures { GrowsAt P.Performance W.Weight t at self.old self.new result }
    {
        if weighs_nothing(t) {
            return Some(());
        }
        if self.len == self.room.len() {
            return None;
        }
        self.room.copy_within(at..self.len, at + 1);
        self.room[at] = t;
        self.len += 1;
        Some(())
    }
}

// Whether two performances are the same.
pub(crate) fn like<P: Performance>(p: P, q: P) -> bool
    ensures { IsTrue result ↔ (p ≡ q) }
{
    p.order(q).is_eq()
}

// A place as a hint: one past 255 is none.
fn hint(place: usize) -> u8
    ensures { result ≡ place % SLOTS }
{
    (place % SLOTS) as u8
}

// Where p stands in the row, or would stand: the guessed place and the next are looked at before
// the row is searched.
fn place<P: Performance, W: Weight>(row: &[Term<P, W>], guess: usize, p: P) -> Result<usize, usize>
    ensures bound { IsSearchInRange result (length row.now) }
    ensures position { IsBinarySearchResult (λ t. P.compared t.performance p) row.now result }
{
    match row.get(guess..) {
        Some([here, ..]) if here.performance.order(p).is_eq() => Ok(guess),
        Some([_, next, ..]) if next.performance.order(p).is_eq() => Ok(guess + 1),
        _ => row.binary_search_by(|t| t.performance.order(p)),
    }
}

// A term with its weight times another.
fn scaled<P: Performance, W: Weight>(weight: W, t: Term<P, W>) -> Term<P, W>
    ensures { result ≡ term t.performance (W.product weight t.weight) }
{
    Term {
        performance: t.performance,
        weight: weight.times(t.weight),
    }
}

// A term with more weight.
fn grown<P: Performance, W: Weight>(t: Term<P, W>, more: W) -> Term<P, W>
    ensures { result ≡ term t.performance (W.sum t.weight more) }
{
    Term {
        performance: t.performance,
        weight: t.weight.plus(more),
    }
}

// A term of no weight stands in no row.
fn weighs_nothing<P: Performance, W: Weight>(t: Term<P, W>) -> bool
    ensures { result ≡ W.is_nothing t.weight }
{
    t.weight.is_nothing()
}
