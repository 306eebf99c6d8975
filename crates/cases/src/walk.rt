// Walks over places: each step gives an item and the place of the next.
ghost use Rattle.std.specs.Prelude.{◌≡◌};
ghost use Rattle.std.specs.Iterator.{at_most};

// The items from a place on, at most so many.
#[derive(Drop)]
pub struct Walk<F> {
    at: usize,
    left: usize,
    step: F,
}

impl<F> Walk<F> {
    pub fn new(from: usize, most: usize, step: F) -> Walk<F>
        ensures { result.step ≡ step }
    {
        Walk {
            at: from,
            left: most,
            step,
        }
    }
}

impl<T, F: Fn(usize) -> Option<(T, usize)>> Iterator for Walk<F> {
    type Item = T;

    ghost can_next = { λ s. F.IsAlwaysCallable s.step };

    ghost next_gives = { λ s r t. t.step ≡ s.step };

    ghost remaining = { λ s. at_most s.left };

    fn next(&mut self) -> Option<T> {
        if self.left == 0 {
            return None;
        }
        let (item, next) = (self.step)(self.at)?;
        self.at = next;
        self.left -= 1;
        Some(item)
    }
}
