// Two lists of registers merged: the greater of each.
ghost use Rattle.std.specs.Prelude.{◌≡◌, true, ◌≤◌, length, take};
ghost use Rattle.sequences.specs.Sequences.{over};
ghost use Rattle.registers.specs.Registers.{register_count, registers_in, greater_of, kept_registers};

// Raises each register of `kept` to that of `list`, if this is the greater.
fn merge_each(kept: &mut [u32], list: &[u32])
    requires { length list.now ≤ length kept.old }
    ensures { kept.new ≡ over (greater_of (take (length list.now) kept.old) list.now)
        kept.old }
{
    for (i, other) in list.iter().enumerate() {
        kept[i] = kept[i].max(*other);
    }
}

// Merges the 16 registers of `list` into the first `given` words of `kept`, none or 16: where there are none there is nothing to compare with.
pub fn merge_registers(kept: &mut [u32], given: usize, list: &[u32]) -> usize
    requires list_len { (length list.now ≡ register_count) × (register_count ≤ length kept.old) }
    requires given_in_bounds { (given ≤ length kept.old) × (kept_registers (take given kept.old) ≡ true) }
    ensures { (result ≡ length (greater_of (registers_in (take given kept.old)) list.now))
        × (kept.new ≡ over (greater_of (registers_in (take given kept.old)) list.now) kept.old) }
{
    if given == 0 {
        words::copy_in(kept, 0, list);
        return list.len();
    }
    merge_each(kept, list);
    list.len()
}
