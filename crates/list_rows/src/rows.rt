// Delivered rows: the values of an ending's variables, written one row after the other.
ghost use Rattle.std.specs.Prelude.{◌≡◌, [], ◌+◌, ◌≤◌, length, take};
ghost use Rattle.std.proofs.Math.Seq.{paste};
ghost use Rattle.plans.specs.Endings.{rows, most_row_variables};
ghost use Rattle.words.specs.Bindings.{nothing_bound};
ghost use Rattle.sequences.specs.Sequences.{over};
ghost use Rattle.lists.specs.Rows.{project};
ghost use Rattle.lists.specs.Delivering.{with_row};
ghost use Rattle.lists.specs.Putting.{Taken};

use words::Term;

// Writes the row of the variables `vars` to `buf`, from `at` on.
fn write_row(vars: &[u32], bound: &[u32; 16], buf: &mut [u32], at: usize)
    requires { at + length vars.now ≤ length buf.old }
    ensures { buf.new ≡ paste buf.old at (project vars.now bound.now) (length vars.now) }
{
    for (i, var) in vars.iter().enumerate() {
        buf[at + i] = words::value_of(*var, bound);
    }
}

// The row of the variables `vars`, in front of an array of unbound words.
pub fn row_of(vars: &[u32], bound: &[u32; 16]) -> [u32; 16]
    requires { length vars.now ≤ most_row_variables }
    ensures { result ≡ over (project vars.now bound.now) nothing_bound }
{
    let mut row = [Term::UNBOUND; 16];
    write_row(vars, bound, &mut row, 0);
    row
}

// Puts the row of the variables `vars` behind the list that is the first `used` words of `out`; answers the words of the list with it, if there is room.
pub fn put_row(vars: &[u32], bound: &[u32; 16], out: &mut [u32], used: usize) -> Option<usize>
    requires { used ≤ length out.old }
    ensures { Taken (with_row (rows vars.now) [] (take used out.old) bound.now) out.old
        out.new result }
{
    let w = vars.len();
    if out.len() - used < w {
        return None;
    }
    write_row(vars, bound, out, used);
    Some(used + w)
}
