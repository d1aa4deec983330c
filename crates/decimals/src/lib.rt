// Numbers in decimal, written into lent memory.
#![tactic(auto)]

ghost use Rattle.std.specs.Prelude.{[], ◌∷◌, ◌+◌, ◌≤◌, ◌<◌, length};
ghost use Rattle.ground.specs.Put.{Put};
ghost use Rattle.decimals.specs.Digits.{digits, decimal};

// The least number of two digits.
const TWO_DIGITS: usize = 10;

// One byte; the next place comes back.
pub fn put_byte(out: &mut [u8], at: usize, b: u8) -> usize
    requires { at < length out.old }
    ensures { Put out.old out.new at (b ∷ []) result }
{
    out[at] = b;
    at + 1
}

// The digits of n, at most f of them.
fn put_digits(out: &mut [u8], at: usize, n: usize, f: usize) -> usize
    requires { at + f ≤ length out.old }
    ensures { Put out.old out.new at (digits f n) result }
{
    if f == 0 {
        return at;
    }
    if n < TWO_DIGITS {
        return put_byte(out, at, n as u8 + b'0');
    }
    let next = put_digits(out, at, n / 10, f - 1);
    put_byte(out, next, (n % 10) as u8 + b'0')
}

// A number in decimal.
pub fn put_decimal(out: &mut [u8], at: usize, n: usize) -> usize
    requires { at + 20 ≤ length out.old }
    ensures { Put out.old out.new at (decimal n) result }
{
    put_digits(out, at, n, 20)
}
