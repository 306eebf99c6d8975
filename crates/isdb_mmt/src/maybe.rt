// Values that may be absent.
ghost use Rattle.std.specs.Prelude.{◌≡◌, slice_index};
ghost use Rattle.isdb_mmt.specs.Formats.Maybe.{given};

// 1 where there is a value.
pub fn given<T: Copy>(x: Option<T>) -> u64
    ensures { result ≡ given x }
{
    u64::from(x.is_some())
}

// The number at i of a list.
pub fn number_at(numbers: &[u64], i: usize) -> u64
    ensures { result ≡ slice_index numbers.now i }
{
    numbers.get(i).copied().unwrap_or(0)
}
