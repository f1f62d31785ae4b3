// Numbers in decimal.
ghost use Rattle.std.specs.Prelude.{◌≡◌, ◌+◌, ◌-◌, ◌<◌, ◌≤◌, length};
ghost use Rattle.print_texts.specs.Texts.{decimal};
ghost use Rattle.print_texts.specs.Texts.{digit as Texts·digit};
ghost use Rattle.print_texts.specs.Placing.{placed, PlacedText};

// The character of the digit `d`.
fn digit(d: u64) -> u8
    requires { d < 10 }
    ensures { result ≡ Texts·digit d }
{
    b'0' + d as u8
}

// How many digits `x` has.
fn digit_count(x: u64) -> usize
    ensures { result ≡ length (decimal x) }
{
    let mut rest = x;
    let mut count: usize = 1;
    // no range: it divides until one digit is left
    while rest >= 10 {
        rest = rest / 10;
        count += 1;
    }
    count
}

// Writes the digits of `x` in front of `end`, from the last one on.
fn write_digits(line: &mut [u8], end: usize, x: u64)
    requires { (length (decimal x) ≤ end) × (end ≤ length line.old) }
    ensures { line.new ≡ placed (decimal x) (end - length (decimal x)) line.old }
{
    let mut rest = x;
    let mut i = end;
    // no range: it divides until one digit is left
    while rest >= 10 {
        i -= 1;
        line[i] = digit(rest % 10);
        rest = rest / 10;
    }
    line[i - 1] = digit(rest);
}

// Puts `x` on the line.
pub fn put_decimal(line: &mut [u8], at: usize, x: u64) -> usize
    requires { at + length (decimal x) ≤ length line.old }
    ensures { PlacedText (decimal x) at line.old line.new result }
{
    let end = at + digit_count(x);
    write_digits(line, end, x);
    end
}
