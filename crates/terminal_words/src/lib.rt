// What words and signs are, by their spelling in any case: a search in a lent dictionary of SPARQL's.
#![tactic(auto, using(crate::proofs::Spelled::same_as_one))]

ghost use Rattle.std.specs.Prelude.{◌≡◌, map, ◌≤◌, length, take};
ghost use Rattle.terminals.specs.Spellings.{capital, kind_at, spelled_words, spelled_kind, keyword_kind};
ghost use Rattle.dictionaries.specs.Lookups.{lookup_in};
ghost use Rattle.terminal_words.specs.SpellingTables.{spelled_letters, spelled_ends, spelled_numbers};

use dictionary_searches::find;

const LONGEST: usize = 21;

const OTHER_WORD: u32 = 19;

const A: u32 = 23;

// A small letter as a capital; what is no ASCII as 0, which no word has.
fn capital(c: u32) -> u8
    ensures { result ≡ capital c }
{
    match c {
        0x61..=0x7A => (c - 32) as u8,
        0..=0x7F => c as u8,
        _ => 0,
    }
}

// Writes `s` in capitals to `out`.
fn write_capitals(s: &[u32], out: &mut [u8])
    requires { length s.now ≤ length out.old }
    ensures { (length out.new ≡ length out.old)
        × (take (length s.now) out.new ≡ map capital s.now) }
{
    for (i, c) in s.iter().enumerate() {
        out[i] = capital(*c);
    }
}

// What a word or sign in capitals is: it is looked for among `letters`, cut at `ends`, and `kinds` has what each is.
fn capitals_kind(capitals: &[u8], letters: &[u8], ends: &[u32], kinds: &[u32]) -> u32
    requires { (letters.now ≡ spelled_letters) × (ends.now ≡ spelled_ends) × (kinds.now ≡ spelled_numbers) }
    ensures { result ≡ kind_at (lookup_in spelled_words capitals.now) }
{
    match find(letters, ends, capitals) {
        Ok(n) => kinds[n],
        Err(_) => OTHER_WORD,
    }
}

// What a word or sign is; `room` is for its capitals.
pub fn spelled_kind(s: &[u32], letters: &[u8], ends: &[u32], kinds: &[u32], room: &mut [u8]) -> u32
    requires { (letters.now ≡ spelled_letters) × (ends.now ≡ spelled_ends) × (kinds.now ≡ spelled_numbers) × (21 ≤ length room.old) }
    ensures { (result ≡ spelled_kind s.now) × (length room.new ≡ length room.old) }
{
    if s.len() > LONGEST {
        return OTHER_WORD;
    }
    write_capitals(s, room);
    capitals_kind(&room[..s.len()], letters, ends, kinds)
}

// What a word is: `a` is written small.
pub fn word_kind(s: &[u32], letters: &[u8], ends: &[u32], kinds: &[u32], room: &mut [u8]) -> u32
    requires { (letters.now ≡ spelled_letters) × (ends.now ≡ spelled_ends) × (kinds.now ≡ spelled_numbers) × (21 ≤ length room.old) }
    ensures { (result ≡ keyword_kind s.now) × (length room.new ≡ length room.old) }
{
    if s == [0x61].as_slice() {
        return A;
    }
    spelled_kind(s, letters, ends, kinds, room)
}
