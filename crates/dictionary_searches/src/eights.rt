// Eight bytes of a string taken as one number, the first byte highest: the order of such numbers is the order of the bytes.
ghost use Rattle.std.specs.Prelude.{◌≡◌, ◌+◌, ◌*◌, ◌≤◌, ◌<◌, length, drop};
ghost use Rattle.dictionary_searches.specs.BigEndian.{big_endian};

fn two(a: u8, b: u8) -> u64
    ensures { (result ≡ a * 256 + b) × (result < 65536) }
{
    a as u64 * 256 + b as u64
}

fn four(a: u8, b: u8, c: u8, d: u8) -> u64
    ensures { (result ≡ ((a * 256 + b) * 256 + c) * 256 + d) × (result < 4294967296) }
{
    let high = two(a, b);
    let low = two(c, d);
    high * 65536 + low
}

// The first four bytes.
pub fn first_four(bytes: &[u8]) -> u64
    requires { 4 ≤ length bytes.now }
    ensures { result ≡ big_endian 0 4 bytes.now }
{
    let last = bytes[3];
    four(bytes[0], bytes[1], bytes[2], last)
}

// The eight bytes from place `i` on. By pairs, and with the last byte read first, compilers make one reading of it.
pub fn eight_at(bytes: &[u8], i: usize) -> u64
    requires { i + 8 ≤ length bytes.now }
    ensures { result ≡ big_endian 0 8 (drop i bytes.now) }
{
    let last = bytes[i + 7];
    let high = four(bytes[i], bytes[i + 1], bytes[i + 2], bytes[i + 3]);
    let low = four(bytes[i + 4], bytes[i + 5], bytes[i + 6], last);
    high * 4294967296 + low
}
