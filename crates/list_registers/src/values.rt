// Registers from values: of none, and with one value more.
ghost use Rattle.std.specs.Prelude.{◌≡◌, [], ◌∷◌, ◌≤◌, length, take};
ghost use Rattle.sequences.specs.Sequences.{over};
ghost use Rattle.plans.specs.Endings.{registers};
ghost use Rattle.registers.specs.Registers.{register_count, registers_of, greater_of};
ghost use Rattle.lists.specs.Delivering.{with_value, with_row};
ghost use Rattle.lists.specs.Putting.{Taken};

use crate::REGISTERS;
use words::Term;

// Writes the registers of no values to `out`: all of them, each 0.
pub fn no_values(out: &mut [u32]) -> usize
    requires { register_count ≤ length out.old }
    ensures { (result ≡ length (registers_of [])) × (out.new ≡ over (registers_of []) out.old) }
{
    out[..REGISTERS].fill(0);
    REGISTERS
}

// Raises the register that `value` picks to the rank that `value` gives it.
fn raise(value: u32, out: &mut [u32])
    requires { register_count ≤ length out.old }
    ensures { out.new ≡ over (greater_of (take register_count out.old) (registers_of (value ∷ []))) out.old }
{
    let hash = register_hashes::hash_of(value);
    let at = register_hashes::picked_by(hash);
    out[at] = out[at].max(register_hashes::rank_in(hash));
}

// Takes up `value`: one that is not bound counts for nothing.
fn put_value(value: u32, out: &mut [u32])
    requires { register_count ≤ length out.old }
    ensures { out.new ≡ over (with_value (take register_count out.old) value) out.old }
{
    if value != Term::UNBOUND {
        raise(value, out);
    }
}

// Takes up the value that the row in `bound` has for `variable`, the counted one.
pub fn put_counted(variable: u32, bound: &[u32; 16], out: &mut [u32], used: usize) -> Option<usize>
    requires { (used ≡ register_count) × (register_count ≤ length out.old) }
    ensures { Taken (with_row (registers variable) [] (take used out.old) bound.now) out.old
        out.new result }
{
    put_value(words::value_of(variable, bound), out);
    Some(used)
}
