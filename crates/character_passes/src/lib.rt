// A text's bytes read to code points and places, in one pass over two lent buffers.
#![tactic(auto, using(std::proofs::lemmas::Bool::Decides::nat_tests), unfolding(characters::specs::Characters::character_at))]

mod escapes;
mod utf8;

ghost use Rattle.std.specs.Prelude.{◌≡◌, ◌+◌, ◌<◌, ◌≤◌, length, get_or, drop};
ghost use Rattle.characters.specs.Characters.{character_at, leaves_backslash, WrittenCharacters};

use characters::Character;
use escapes::escape;
use utf8::sequence;

const BACKSLASH: u8 = 0x5C;

// The character at `at`. A backslash there begins no escape if it is `behind` another, as the second of two.
fn character(text: &[u8], at: usize, behind: bool) -> Character
    requires { at < length text.now }
    ensures { result ≡ character_at behind (get_or text.now at 0) (drop (at + 1) text.now) }
{
    if text[at] == BACKSLASH && !behind {
        escape(text, at + 1)
    } else {
        sequence(text, at)
    }
}

// Whether the byte `a`, read as the character `c`, is a backslash that may be the first of two: no escape, and not `behind` another.
fn leaves_backslash(behind: bool, a: u8, c: Character) -> bool
    ensures { result ≡ leaves_backslash behind a c }
{
    a == BACKSLASH && !behind && c.more == 0
}

// Writes the code points of `text` to `points` and where each begins to `places`, with the end of the text last; answers how many they are.
pub fn read_characters(text: &[u8], points: &mut [u32], places: &mut [u32]) -> usize
    requires { (length text.now < 4294967296) × (length text.now ≤ length points.old) × (length text.now < length places.old) }
    ensures { WrittenCharacters text.now points.old points.new places.old places.new result }
{
    let mut at: usize = 0;
    let mut n: usize = 0;
    let mut behind = false;
    // no iterator: a character goes as many bytes as it is written with
    while at < text.len() {
        let c = character(text, at, behind);
        points[n] = c.point;
        places[n] = at as u32;
        behind = leaves_backslash(behind, text[at], c);
        at = at + 1 + c.more;
        n += 1;
    }
    places[n] = at as u32;
    n
}
