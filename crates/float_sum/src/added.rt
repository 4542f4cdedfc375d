// A list of floats that only clauses see.
ghost use Rattle.std.specs.Prelude.{◌≡◌, List, [], ◌++◌};
ghost use Rattle.std.specs.Borrow.{ftrue};
ghost use Rattle.std.specs.Float.{Float};

use std::marker::{Model, PhantomData};

// What was added, the first one first: only clauses see it, and it takes no memory. Its two calls
// do nothing, and are proved by hand; each note stands beside the code that adds.
#[derive(Drop)]
pub(crate) struct Added {
    marker: PhantomData<u8>,
    pub ghost values: { List Float },
}

impl Model for Added {
    ghost also_owns = { λ _. ftrue };
}

impl Added {
    // Nothing.
    pub(crate) fn new() -> Added
        ensures { result.values ≡ [] }
    {
        Added {
            marker: PhantomData,
        }
    }

    // These too.
    #[inline(always)]
    pub(crate) fn note(&mut self, _values: &[f64])
        ensures { self.new.values ≡ self.old.values ++ _values.now }
    {}
}
