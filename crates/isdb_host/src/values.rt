// The sixteen numbers of an answer.
ghost use Rattle.std.specs.Prelude.{◌≡◌, ℕ, List};
ghost use Rattle.isdb_host.specs.Values.{Reply, Replied, found_said, one_number};

use isdb_mmt::maybe::number_at;

// The codes are numbers, as C reads them: of a call that found nothing, and of one that was given an id which is not there.
pub(crate) const NOTHING: u8 = 20;

pub(crate) const NO_ID: u8 = 21;

// What stands there cannot be read; of a section: bytes are missing, its CRC does not match.
pub(crate) const MALFORMED: u8 = 22;

pub(crate) const TRUNCATED: u8 = 23;

pub(crate) const BAD_CRC: u8 = 24;

// Answers these numbers.
#[tactic(auto, using(crate::proofs::Numbers::set_none, crate::proofs::Numbers::set_more, crate::proofs::Numbers::set_all))]
pub(crate) fn says(v: &mut [u64; 16], values: &[u64]) -> u8
    ensures { Replied (Reply.says values.now) result v.old v.new }
{
    for (i, x) in v.iter_mut().enumerate() {
        *x = number_at(values, i);
    }
    0
}

// What answers by numbers of its own, in their order.
pub(crate) trait Told: Copy {
    ghost numbers: { Self → List ℕ };

    fn told(self, v: &mut [u64; 16]) -> u8
        ensures { Replied (Reply.says (numbers self)) result v.old v.new };
}

impl Told for u64 {
    ghost numbers = { one_number };

    fn told(self, v: &mut [u64; 16]) -> u8 {
        says(v, &[self])
    }
}

impl Told for u32 {
    ghost numbers = { one_number };

    fn told(self, v: &mut [u64; 16]) -> u8 {
        says(v, &[self as u64])
    }
}

// Answers what was found, or the code that says why there is nothing.
pub(crate) fn found<T: Told>(r: Option<T>, why: u8, v: &mut [u64; 16]) -> u8
    ensures { Replied (found_said T.numbers (Reply.code why) r) result v.old v.new }
{
    let Some(x) = r else {
        return why;
    };
    x.told(v)
}
