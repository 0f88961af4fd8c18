ghost use Rattle.std.specs.Prelude.{◌≡◌, ℕ, ◌<◌, [], ◌∷◌, length, get_or, true, false};
ghost use Rattle.std.specs.Iterator.{YieldsFirst, item_count};
ghost use Rattle.arr_nest.specs.Indices.{after, indices, to_come};
ghost use Rattle.arr_nest.specs.Below.{Below};

/// Walks the index lists of a shape of rank R in row-major order (docs/LANGUAGE.md, "Views"). Indices are counted from 0.
#[derive(Drop)]
pub struct Nest<const R: usize> {
    shape: [u32; R],
    index: [u32; R],
    done: bool,
    ghost inside: { Below index shape },
}

impl<const R: usize> Nest<R> {
    /// A walk over all index lists of a shape, each of whose lengths is at least 1.
    pub fn new(shape: [u32; R]) -> Nest<R>
        requires { (k : ℕ) → k < length shape → 0 < get_or shape k 0 }
        ensures { to_come result.done result.shape result.index ≡ indices shape.entry }
    {
        Nest {
            shape,
            index: [0; R],
            done: false,
        }
    }
}

impl<const R: usize> Iterator for Nest<R> {
    type Item = [u32; R];

    ghost next_gives = { YieldsFirst (λ s. to_come s.done s.shape s.index) };

    ghost remaining = { item_count (λ s. to_come s.done s.shape s.index) };

    fn next(&mut self) -> Option<[u32; R]> {
        if self.done {
            return None;
        }
        let index = self.index;
        if !turn(&mut self.index, &self.shape) {
            self.done = true;
        }
        Some(index)
    }
}

/// Turns an index list into the one that comes next, and says whether there is one; past the last it is the first again.
fn turn(index: &mut [u32], shape: &[u32]) -> bool
    requires { Below index.old shape.now }
    ensures next { result ≡ true → after shape.now index.old ≡ index.new ∷ after shape.now index.new }
    ensures last { result ≡ false → after shape.now index.old ≡ [] }
    ensures inside { Below index.new shape.now }
{
    let mut at = index.len();
    while at > 0 {
        at -= 1;
        if index[at] + 1 < shape[at] {
            index[at] += 1;
            return true;
        }
        index[at] = 0;
    }
    false
}
