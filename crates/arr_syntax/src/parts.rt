ghost use Rattle.std.specs.Prelude.{◌≡◌, [], ◌∷◌, MatchOption};

use crate::state::Part;
use std::marker::Model;

/// The parts that are still to come, in order. Contracts see them as a list.
#[derive(Drop)]
pub struct Parts {
    rest: &'static [Part],
}

impl Model for Parts {
    ghost use Rattle.std.specs.Prelude.{List};
    ghost use Rattle.arr_syntax.specs.declared.state.Part.{Part};

    ghost Value = { List Part };

    ghost view = { λ p. p.rest.now };
}

impl Parts {
    pub fn new(rest: &'static [Part]) -> Parts
        ensures { result ≡ rest.now }
    {
        Parts { rest }
    }

    /// Takes the next part.
    pub fn next(&mut self) -> Option<Part>
        ensures { MatchOption result ((self.old ≡ []) × (self.new ≡ [])) (λ p. self.old ≡ p ∷ self.new) }
    {
        match self.rest {
            [] => None,
            [first, rest @ ..] => {
                self.rest = rest;
                Some(*first)
            }
        }
    }
}
