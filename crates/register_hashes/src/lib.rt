// 64-bit FNV-1a of a word's four bytes, low first; which register a hash picks, and what it gives it; products modulo 2^64.
#![tactic(auto)]

ghost use Rattle.std.specs.Prelude.{◌≡◌, ◌*◌, ◌%◌, ◌^◌, ◌<◌};
ghost use Rattle.register_hashes.specs.Hashes.{mixed, hash_of, picked_by, rank_in};

use std::num::wrapping_add_u64;

const HALF: u64 = 0x1_0000_0000;

const OFFSET_BASIS: u64 = 14695981039346656037;

const PRIME: u64 = 1099511628211;

// The values that a byte has, and where each byte of a word begins.
const BYTE_VALUES: u64 = 0x100;

const SECOND_BYTE: u64 = 0x100;

const THIRD_BYTE: u64 = 0x1_0000;

const FOURTH_BYTE: u64 = 0x100_0000;

// The values of the 60 bits below the top four.
const RANKED: u64 = 0x1000_0000_0000_0000;

// The product of `a` and `b` modulo 2^64, from the halves of both: the product of the high halves has no part in it. That it is made so is a
// rule of the project (docs/RULES.md, 13).
pub fn wrapping_mul(a: u64, b: u64) -> u64
    ensures wraps { result ≡ (a * b) % 2 ^ 64 }
{
    let low = a % HALF;
    let high = a / HALF;
    let other_low = b % HALF;
    let other_high = b / HALF;
    let cross = wrapping_add_u64(high * other_low, low * other_high);
    wrapping_add_u64(low * other_low, cross % HALF * HALF)
}

// `hash` with `byte` mixed in.
fn mix(hash: u64, byte: u64) -> u64
    requires { byte < 256 }
    ensures { result ≡ mixed hash byte }
{
    wrapping_mul(hash ^ byte, PRIME)
}

// The hash of the bytes of `word`.
pub fn hash_of(word: u32) -> u64
    ensures { result ≡ hash_of word }
{
    let w = word as u64;
    let a = mix(OFFSET_BASIS, w % BYTE_VALUES);
    let b = mix(a, w / SECOND_BYTE % BYTE_VALUES);
    let c = mix(b, w / THIRD_BYTE % BYTE_VALUES);
    mix(c, w / FOURTH_BYTE % BYTE_VALUES)
}

// The register that `hash` picks.
pub fn picked_by(hash: u64) -> usize
    ensures { result ≡ picked_by hash }
{
    (hash / RANKED) as usize
}

// What `hash` gives its register: of 64 bits the top four are 0, so the zeros leading them are three more.
pub fn rank_in(hash: u64) -> u32
    ensures { result ≡ rank_in hash }
{
    u64::leading_zeros(hash % RANKED) - 3
}
