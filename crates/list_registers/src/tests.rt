// Test 12 of a list of registers.
ghost use Rattle.std.specs.Prelude.{◌≡◌};
ghost use Rattle.sequences.specs.Sequences.{all};
ghost use Rattle.registers.specs.Registers.{is_rank, are_registers, kept_registers};

use crate::REGISTERS;

const MOST_RANK: u32 = 61;

// Whether no register of `list` is above 61.
fn in_range(list: &[u32]) -> bool
    ensures { result ≡ all is_rank list.now }
{
    list.iter().all(|rank| *rank <= MOST_RANK)
}

// Whether `list`, a turn's, has all 16, and none too great.
pub fn are_registers(list: &[u32]) -> bool
    ensures { result ≡ are_registers list.now }
{
    list.len() == REGISTERS && in_range(list)
}

// Whether `list`, a kept one, is empty or has all 16.
pub fn kept_registers(list: &[u32]) -> bool
    ensures { result ≡ kept_registers list.now }
{
    list.is_empty() || are_registers(list)
}
