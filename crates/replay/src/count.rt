// Counts that stop at a bound.
ghost use Rattle.std.specs.Prelude.{◌≡◌};
ghost use Rattle.replay.specs.Counts.{added, counted};

// The largest count.
const MOST: u64 = 1000000000;

// The sum, or the largest count where it would be more.
pub fn added(a: u64, b: u64) -> u64
    ensures { result ≡ added a b }
{
    a.saturating_add(b).min(MOST)
}

// With one more where `more` says so.
pub fn counted(n: u64, more: bool) -> u64
    ensures { result ≡ counted n more }
{
    if more { added(n, 1) } else { n }
}
