// From the tables of a text to its circuit records in the lent buffer: names become numbers, and the gates find their order.
#![tactic(auto)]

ghost use Rattle.std.specs.Prelude.{◌≡◌, length};
ghost use Rattle.records.specs.Net.{records_of};
ghost use Rattle.records.specs.Owed.{net_seen, PutRecordsReady};
ghost use Rattle.nets.specs.Rules.{buffer_rules};
ghost use Rattle.nets.specs.Owed.{ReadDone, RecordsDone, NetDone, NamesDone, LayRoom, ReadOrderReady, ReadNetReady, ReadNamesReady, named_of};

use answers::{Reason, Refusal};
use circuit::{Counts, check};
use names::resolve;
use order::arrange;
use records::{Net, put_records};

// The most lines of a circuit.
const MOST_LINES: usize = 2048;

// The size of the lent buffer, which has room for the largest circuit.
const LENT: usize = 16384;

// ---- from the records to the lent buffer

// Refusal 10, or the records in the buffer.
fn lay(records: &[u8], n: usize, circuit: &mut [u8]) -> Result<usize, Refusal>
    requires { LayRoom records.now n }
    ensures { ReadDone (buffer_rules (length circuit.old)) records.now circuit.old circuit.new result }
{
    if circuit.len() != LENT {
        return Err(Refusal(Reason::BufferSize, 0));
    }
    circuit[..records.len()].copy_from_slice(records);
    Ok(n)
}

// The circuit check on the records.
fn hand_over(records: &[u8], circuit: &mut [u8]) -> Result<usize, Refusal>
    ensures { RecordsDone records.now circuit.old circuit.new result }
{
    let counts = check(records)?;
    lay(records, counts.lines, circuit)
}

// ---- from the net to its records

// The records of all lines, in lent memory.
fn read_order_in(
    net: &Net<'_>,
    order: &[u16],
    records: &mut [u8],
    circuit: &mut [u8],
) -> Result<usize, Refusal>
    requires { PutRecordsReady (net_seen net.now) order.now records.old }
    ensures { RecordsDone (records_of (net_seen net.now)) circuit.old circuit.new result }
{
    put_records(net, order, records);
    hand_over(records, circuit)
}

// The records of gates that are all placed. More lines than a circuit may have are refused before any is written.
fn read_order(net: &Net<'_>, order: &[u16], circuit: &mut [u8]) -> Result<usize, Refusal>
    requires { ReadOrderReady (net_seen net.now) order.now }
    ensures { RecordsDone (records_of (net_seen net.now)) circuit.old circuit.new result }
{
    let n = net.inputs + net.firsts.len();
    if MOST_LINES < n {
        return Err(Refusal(Reason::CircuitSize, 0));
    }
    let mut records = [0u8; 16384];
    read_order_in(net, order, &mut records[..8 * n], circuit)
}

// A net whose numbers are those of gates and inputs. The order of its gates comes back too, for whoever has their names.
fn read_net(net: &Net<'_>, order: &mut [u16], circuit: &mut [u8]) -> Result<usize, Refusal>
    requires { ReadNetReady (net_seen net.now) × (length order.old ≡ length net.now.firsts.now) }
    ensures { NetDone (net_seen net.now) order.new circuit.old circuit.new result }
{
    arrange(net.firsts, net.seconds, order)?;
    read_order(net, order, circuit)
}

// ---- from names to numbers

// The numbers of the names that are used, in lent memory.
fn read_names_in(
    text: &[u8],
    defs: &[u16],
    numbers: &[u16],
    inputs: usize,
    kinds: &[u8],
    firsts: &[u16],
    seconds: &[u16],
    outs: &[u16],
    a: &mut [u16],
    b: &mut [u16],
    o: &mut [u16],
    order: &mut [u16],
    circuit: &mut [u8],
) -> Result<usize, Refusal>
    requires read_names_ready { ReadNamesReady text.now (named_of defs.now numbers.now inputs kinds.now firsts.now seconds.now outs.now) }
    requires a_len { (length a.old ≡ length firsts.now) × (length b.old ≡ length seconds.now) × (length o.old ≡ length outs.now) × (length order.old ≡ length firsts.now) }
    ensures { NamesDone text.now
        (named_of defs.now numbers.now inputs kinds.now firsts.now seconds.now outs.now)
        order.new circuit.old circuit.new result }
{
    resolve(text, defs, numbers, outs, firsts, seconds, o, a, b)?;
    let net = Net {
        inputs,
        kinds,
        firsts: a,
        seconds: b,
        outputs: o,
    };
    read_net(&net, order, circuit)
}

// A net whose sources and outputs are names.
pub fn read_names(
    text: &[u8],
    defs: &[u16],
    numbers: &[u16],
    inputs: usize,
    kinds: &[u8],
    firsts: &[u16],
    seconds: &[u16],
    outs: &[u16],
    order: &mut [u16],
    circuit: &mut [u8],
) -> Result<usize, Refusal>
    requires read_names_ready { ReadNamesReady text.now (named_of defs.now numbers.now inputs kinds.now firsts.now seconds.now outs.now) }
    requires order_len { length order.old ≡ length firsts.now }
    ensures { NamesDone text.now
        (named_of defs.now numbers.now inputs kinds.now firsts.now seconds.now outs.now)
        order.new circuit.old circuit.new result }
{
    let mut a = [0u16; 8192];
    let mut b = [0u16; 8192];
    let mut o = [0u16; 8192];
    let g = firsts.len();
    let u = outs.len();
    read_names_in(
        text,
        defs,
        numbers,
        inputs,
        kinds,
        firsts,
        seconds,
        outs,
        &mut a[..g],
        &mut b[..g],
        &mut o[..u],
        order,
        circuit,
    )
}
