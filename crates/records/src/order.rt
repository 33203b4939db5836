//! Making, reading and ordering paths.
ghost use Rattle.std.specs.Prelude.{◌≡◌, [], ◌∷◌, ◌++◌, length, Some, MatchOption, refl};
ghost use Rattle.std.specs.Cmp.{on_per, on_equiv, on_total, on_po, po, partial_equiv_from_equiv, int_eq_equiv, int_cmp_total};
ghost use Rattle.std.specs.Cmp.Lexicographic.{pointwise, lists_per, lists_equiv, lists_total, lists_ties};
ghost use Rattle.std.specs.Ordering.{int_eq, int_cmp};
ghost use Rattle.records.specs.Paths.{steps_of, path_cmp, PathOrder};

use crate::path::Path;
use std::cmp::Ordering;

impl Path {
    /// The path of one step.
    pub fn first(step: i64) -> Path
        ensures { steps_of result ≡ step ∷ [] }
    {
        Path {
            steps: [step, 0, 0, 0],
            len: 1,
        }
    }

    /// The path with one step more; none where it has three already.
    pub fn extended(&self, step: i64) -> Option<Path>
        ensures { MatchOption result (length (steps_of self.now) ≡ 3) (λ p. steps_of p ≡ steps_of self.now ++ (step ∷ [])) }
    {
        if self.len >= 3 {
            return None;
        }
        let mut steps = self.steps;
        steps[self.len as usize] = step;
        Some(Path {
            steps,
            len: self.len + 1,
        })
    }

    /// The steps, the top level's first.
    pub fn steps(&self) -> &[i64]
        ensures { result.now ≡ steps_of self.now }
    {
        &self.steps[0..self.len as usize]
    }
}

// Equality and order by hand: derived ones would compare the steps past `len` too, and compare them before `len`.
impl PartialEq for Path {
    ghost eq = { λ p q. pointwise int_eq (steps_of p) (steps_of q) };

    ghost laws = { on_per steps_of (lists_per (partial_equiv_from_equiv int_eq_equiv)) };

    fn eq(&self, other: &Path) -> bool {
        self.steps() == other.steps()
    }
}

impl Eq for Path {
    ghost laws = { on_equiv steps_of (lists_equiv int_eq_equiv) };
}

/// Step by step, and a path comes before its extensions.
impl Ord for Path {
    ghost cmp = { λ p q. path_cmp (steps_of p) (steps_of q) };

    ghost total = { on_total steps_of (lists_total int_cmp_total) };

    ghost matches_partial_cmp = { λ p q. refl };

    ghost matches_eq = { λ p q. lists_ties int_cmp (λ x y. refl) (steps_of p) (steps_of q) };

    fn cmp(&self, other: &Path) -> Ordering {
        self.steps().cmp(other.steps())
    }
}

impl PartialOrd for Path {
    ghost partial_cmp = { λ p q. Some (path_cmp (steps_of p) (steps_of q)) };

    ghost laws = { on_po steps_of (po (lists_total int_cmp_total) (lists_ties int_cmp (λ x y. refl))) };

    fn partial_cmp(&self, other: &Path) -> Option<Ordering> {
        Some(self.cmp(other))
    }
}

/// The order of paths is total, orders equal only what has the same steps, and puts a path before its extensions.
pub fn path_order_stands()
    ensures { PathOrder }
{}
