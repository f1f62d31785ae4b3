// Numbers of 64 bits in two words, the low one first.
ghost use Rattle.std.specs.Prelude.{◌≡◌, suc, ◌+◌, ◌<◌, ◌≤◌, ◌%◌, ◌/◌, ltb, length, set};
ghost use Rattle.lists.specs.Groups.{word_values, pair_at};
ghost use Rattle.lists.specs.Sums.{long_values};

// How many values a word has.
const WORD_VALUES: u64 = 0x1_0000_0000;

// `x` as a number of 64 bits.
pub fn long(x: u32) -> u64
    ensures { (result ≡ x) × (result < word_values) }
{
    x as u64
}

// The number in the two words of `s` from `at` on.
pub fn read64(s: &[u32], at: usize) -> u64
    requires { at + 2 ≤ length s.now }
    ensures { result ≡ pair_at s.now at }
{
    let low = s[at];
    let high = s[at + 1];
    long(low) + WORD_VALUES * long(high)
}

// Writes `x` to the two words of `s` from `at` on.
pub fn write64(s: &mut [u32], at: usize, x: u64)
    requires { at + 2 ≤ length s.old }
    ensures { s.new ≡ set (set s.old at (x % word_values)) (suc at) (x / word_values) }
{
    s[at] = (x % WORD_VALUES) as u32;
    s[at + 1] = (x / WORD_VALUES) as u32;
}

// Whether the sum of `x` and `y` is below 2^64.
pub fn fits(x: u64, y: u64) -> bool
    ensures { result ≡ ltb (x + y) long_values }
{
    x <= u64::MAX - y
}
