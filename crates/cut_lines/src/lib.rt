// Cuts a circuit at its head lines, by the marks of its lines.
#![tactic(auto)]

ghost use Rattle.std.specs.Prelude.{◌≡◌, length};
ghost use Rattle.cut_lines.specs.Owed.{kind_by, out_by, CutReady};
ghost use Rattle.cut.specs.Cut.{cut};

// The mark of a free line that is no head line.
const OTHER_FREE: u8 = 0;

// The kind of a line in the cut circuit: a bound line has its own, a head line is an input, another free line has none.
fn cut_kind(mark: u8, kind: u8) -> u8
    ensures { result ≡ kind_by mark kind }
{
    match mark {
        2 => kind,
        1 => 0,
        _ => 255,
    }
}

// Its output byte: another free line is no output.
fn cut_out(mark: u8, out: u8) -> u8
    ensures { result ≡ out_by mark out }
{
    if mark == OTHER_FREE { 0 } else { out }
}

// Cuts the circuit of which `lines` is a copy.
pub fn cut_lines(circuit: &[u8], marks: &[u8], lines: &mut [u8])
    requires { CutReady circuit.now marks.now lines.old }
    ensures { lines.new ≡ cut circuit.now (length marks.now) }
{
    for (k, &mark) in marks.iter().enumerate() {
        lines[8 * k] = cut_kind(mark, circuit[8 * k]);
        lines[8 * k + 1] = cut_out(mark, circuit[8 * k + 1]);
    }
}
