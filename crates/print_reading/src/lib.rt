// The turn printer's file, read from bytes: its words, and where its parts begin.
#![tactic(auto)]

ghost use Rattle.std.specs.Prelude.{◌≡◌, ◌+◌, ◌/◌, ◌≤◌, length, take, drop};
ghost use Rattle.sequences.specs.Sequences.{over};
ghost use Rattle.print_reading.specs.Files.{little_endian, file_words, word_bytes, most_file_bytes, parts_in, layout_of, read_of};

mod filling;

pub use filling::read_full;
use tables::COLUMNS;

// Where the parts of a file begin, in words, and the words in all; the rows begin after the row count and the quantum.
#[derive(Clone, Copy)]
pub struct FileParts {
    pub pos: usize,
    pub osp: usize,
    pub plan: usize,
    pub words: usize,
}

// The bytes of a file, at most.
pub const MOST_BYTES: usize = 65536;

// The word in the four bytes from `at` on, the low one first.
fn word_at(bytes: &[u8], at: usize) -> u32
    requires { at + word_bytes ≤ length bytes.now }
    ensures { result ≡ little_endian (take word_bytes (drop at bytes.now)) }
{
    u32::from_le_bytes([bytes[at], bytes[at + 1], bytes[at + 2], bytes[at + 3]])
}

// Reads the whole words of `bytes` into `words`.
fn read_words(bytes: &[u8], words: &mut [u32])
    requires { length bytes.now / word_bytes ≤ length words.old }
    ensures { words.new ≡ over (file_words bytes.now) words.old }
{
    let count = bytes.len() / 4;
    for i in 0..count {
        words[i] = word_at(bytes, i * 4);
    }
}

// Where the parts begin among the whole words of `bytes`, or the number that refuses the file.
fn parts_in(bytes: &[u8]) -> Result<FileParts, u32>
    ensures { result ≡ parts_in (file_words bytes.now) }
{
    let count = bytes.len() / 4;
    if count < 2 {
        return Err(1);
    }
    let rows = words::wide(word_at(bytes, 0));
    let pos = 2 + COLUMNS * rows;
    let osp = pos + rows;
    let plan = osp + rows;
    if count < plan {
        return Err(1);
    }
    Ok(FileParts {
        pos,
        osp,
        plan,
        words: count,
    })
}

// Where the parts of a file begin, if its `bytes` are whole words and not too many.
fn layout_of(bytes: &[u8]) -> Result<FileParts, u32>
    ensures { result ≡ layout_of bytes.now }
{
    if bytes.len() > MOST_BYTES {
        return Err(1);
    }
    if bytes.len() % 4 != 0 {
        return Err(1);
    }
    parts_in(bytes)
}

// Finds the parts of a file, and then reads its `bytes` into `words`; or answers the number that refuses it, and writes nothing.
pub fn read_file(bytes: &[u8], words: &mut [u32]) -> Result<FileParts, u32>
    requires { most_file_bytes / word_bytes ≤ length words.old }
    ensures { record { answer = result; words = words.new } ≡ read_of bytes.now words.old }
{
    let parts = layout_of(bytes)?;
    read_words(bytes, words);
    Ok(parts)
}
