// Whether a string comes before another: a question of its own beside `compare`, since compilers leave either as one call.
ghost use Rattle.std.specs.Prelude.{◌≡◌};
ghost use Rattle.dictionaries.specs.Strings.{string_before};

use crate::eights::{eight_at, first_four};

// Whether `xs` comes before `ys`, byte by byte.
fn bytes_before(xs: &[u8], ys: &[u8]) -> bool
    ensures { result ≡ string_before xs.now ys.now }
{
    let mut i: usize = 0;
    while i < xs.len() {
        if ys.len() <= i {
            return false;
        }
        let x = xs[i];
        let y = ys[i];
        if x != y {
            if x < y {
                return true;
            }
            return false;
        }
        i += 1;
    }
    if i < ys.len() { true } else { false }
}

// Whether `xs` comes before `ys`, by four bytes at once if both have them.
fn fours_before(xs: &[u8], ys: &[u8]) -> bool
    ensures { result ≡ string_before xs.now ys.now }
{
    if xs.len().min(ys.len()) < 4 {
        return bytes_before(xs, ys);
    }
    let first = first_four(xs);
    let second = first_four(ys);
    if first < second {
        return true;
    }
    if second < first {
        return false;
    }
    bytes_before(&xs[4..], &ys[4..])
}

// Whether `xs` comes before `ys`, by eight bytes at once as long as both have them.
pub fn eights_before(xs: &[u8], ys: &[u8]) -> bool
    ensures { result ≡ string_before xs.now ys.now }
{
    let both = xs.len().min(ys.len());
    // no iterator: of chunks of eight it would not be known where they end
    let mut i: usize = 0;
    while i + 8 <= both {
        let first = eight_at(xs, i);
        let second = eight_at(ys, i);
        if first < second {
            return true;
        }
        if second < first {
            return false;
        }
        i += 8;
    }
    fours_before(&xs[i..], &ys[i..])
}
