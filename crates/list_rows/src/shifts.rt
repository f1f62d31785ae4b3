// Words moved up in a buffer, and words put in between.
ghost use Rattle.std.specs.Prelude.{◌≡◌, ◌+◌, ◌≤◌, length};
ghost use Rattle.lists.specs.Moves.{shifted, inserted};

use words::copy_in;

// Moves the words of `buf` from `a` on, below `e`, up by `w` places.
pub fn shift(buf: &mut [u32], a: usize, e: usize, w: usize)
    requires { (a ≤ e) × (e + w ≤ length buf.old) }
    ensures { buf.new ≡ shifted buf.old a e w }
{
    buf.copy_within(a..e, a + w);
}

// Puts `words` in at `a`, before those that stand there up to `e`.
pub fn insert(buf: &mut [u32], a: usize, e: usize, words: &[u32])
    requires { (a ≤ e) × (e + length words.now ≤ length buf.old) }
    ensures { buf.new ≡ inserted buf.old a e words.now }
{
    let w = words.len();
    shift(buf, a, e, w);
    copy_in(buf, a, words);
}
