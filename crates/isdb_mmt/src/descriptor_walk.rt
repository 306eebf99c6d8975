// A descriptor loop with a position in it: the walk of desc::next as a value. Each function is thin; the work is done by desc::next.
ghost use Rattle.std.specs.Prelude.{◌≡◌, ◌-◌, length};
ghost use Rattle.std.specs.Iterator.{at_most};
ghost use Rattle.isdb_mmt.specs.Formats.Desc.{step_at, Walked};

use crate::desc;
use crate::desc::Step;
use crate::part::Part;

#[derive(Clone, Copy)]
pub struct DescriptorWalk<'a> {
    pub src: &'a [u8],
    pub at: usize,
}

// The descriptors, by tag and body. Where they end, step tells the loop's end from one that does not fit.
impl<'a> Iterator for DescriptorWalk<'a> {
    type Item = (u16, Part);

    ghost next_gives = { λ w r t. (t.src ≡ w.src) × Walked w.src.now w.at r t.at };

    ghost remaining = { λ w. at_most (length w.src.now - w.at) };

    #[tactic(auto, using(crate::proofs::Descriptors::raw_lies))]
    fn next(&mut self) -> Option<(u16, Part)> {
        let Step::Raw { tag, body, next } = desc::next(self.src, self.at) else {
            return None;
        };
        self.at = next;
        Some((tag, body))
    }
}

// At the loop's first descriptor.
pub fn new<'a>(src: &'a [u8]) -> DescriptorWalk<'a>
    ensures { (result.src ≡ src.entry) × (result.at ≡ 0) }
{
    DescriptorWalk { src, at: 0 }
}

// The position.
pub fn at<'a>(w: DescriptorWalk<'a>) -> usize
    ensures { result ≡ w.entry.at }
{
    w.at
}

// The loop's bytes, in which a descriptor's body is a part.
pub fn src<'a>(w: DescriptorWalk<'a>) -> &'a [u8]
    ensures { result ≡ w.entry.src }
{
    w.src
}

// What stands at the position: a descriptor, the end, or one that does not fit.
pub fn step<'a>(w: DescriptorWalk<'a>) -> Step
    ensures { result ≡ step_at w.entry.src.now w.entry.at }
{
    desc::next(w.src, w.at)
}

// At another position: the one that a descriptor gave for the next.
pub fn moved<'a>(w: DescriptorWalk<'a>, at: usize) -> DescriptorWalk<'a>
    ensures { (result.src ≡ w.entry.src) × (result.at ≡ at) }
{
    DescriptorWalk { src: w.src, at }
}

// What a loop begins with.
pub fn first(s: &[u8]) -> Step
    ensures { result ≡ step_at s.now 0 }
{
    step(new(s))
}
