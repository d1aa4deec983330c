// The circuit records of a net: the inputs, then the gates in their order.
#![tactic(auto)]

ghost use Rattle.std.specs.Prelude.{◌≡◌, ◌+◌, ◌*◌, ◌≤◌, ◌<◌, length};
ghost use Rattle.ground.specs.Put.{Put};
ghost use Rattle.records.specs.Net.{records_of};
ghost use Rattle.records.specs.Owed.{net_seen, lined_seen, line_by, source_by, record_of, gate_record, record_by, records_by, line_count};
ghost use Rattle.records.specs.Owed.{PutRecordsReady, PutRecordsInReady, NumberLinesReady, NumberLinesDone};
ghost use Rattle.records.specs.Owed.{MarkOutputsReady, MarkOutputsDone, PutGateRoom, PutLinesReady, PutLineReady};

use gates::pins;
use ground::narrow;
use little::{put_pair, put_two};

// A net: its gates are numbered in the text's order from 0, then come the inputs.
#[derive(Clone, Copy, Drop)]
pub struct Net<'a> {
    // how many
    pub inputs: usize,
    // of each gate: its kind, its first and its second source
    pub kinds: &'a [u8],
    pub firsts: &'a [u16],
    pub seconds: &'a [u16],
    // as often as they are written
    pub outputs: &'a [u16],
}

// A net's gates in their order, the line of each gate, and a flag for each number.
#[derive(Clone, Copy, Drop)]
struct Lined<'a> {
    net: &'a Net<'a>,
    order: &'a [u16],
    line: &'a [u16],
    flag: &'a [u8],
}

// ---- the line of each gate, and a flag for each number

// From the last gate down, so that a gate's first place counts.
pub fn number_lines(order: &[u16], inputs: usize, line: &mut [u16])
    requires { NumberLinesReady order.now inputs line.old }
    ensures { NumberLinesDone order.now inputs line.new }
{
    for i in (0..order.len()).rev() {
        line[usize::from(order[i])] = narrow(inputs + i);
    }
}

// An output that is written twice is marked once.
fn mark_outputs(outputs: &[u16], flag: &mut [u8])
    requires { MarkOutputsReady outputs.now flag.old }
    ensures { MarkOutputsDone outputs.now flag.new }
{
    for &x in outputs {
        flag[usize::from(x)] = 1;
    }
}

// The line of a number: gates have theirs, and the inputs are numbered after them.
#[tactic(auto, unfolding(crate::specs::Owed::line_by))]
fn line_of(line: &[u16], number: u16) -> u16
    ensures { result ≡ line_by line.now number }
{
    let x = usize::from(number);
    if x < line.len() {
        line[x]
    } else {
        narrow(x - line.len())
    }
}

// The line of the source at a pin, or 0 where the kind has no such pin.
#[tactic(auto, unfolding(crate::specs::Owed::source_by))]
fn source(line: &[u16], kind: u8, pin: usize, number: u16) -> u16
    ensures { result ≡ source_by line.now kind pin number }
{
    if pin <= pins(kind) {
        line_of(line, number)
    } else {
        0
    }
}

// ---- writing: each writer answers the place after what it wrote

// A record.
pub fn put_record(
    records: &mut [u8],
    at: usize,
    kind: u8,
    flag: u8,
    first: u16,
    second: u16,
    third: u16,
) -> usize
    requires { at + 8 ≤ length records.old }
    ensures { Put records.old records.new at (record_of kind flag first second third) result }
{
    let one = put_pair(records, at, kind, flag);
    let two = put_two(records, one, first);
    let three = put_two(records, two, second);
    put_two(records, three, third)
}

// The record of gate g; no gate of a net has a third source.
#[tactic(auto, unfolding(crate::specs::Owed::gate_record))]
fn put_gate(lined: &Lined<'_>, g: usize, records: &mut [u8], at: usize) -> usize
    requires put_gate_room { PutGateRoom (lined_seen lined.now) g }
    requires at_in_bounds { at + 8 ≤ length records.old }
    ensures { Put records.old records.new at (gate_record (lined_seen lined.now) g) result }
{
    let Net {
        kinds,
        firsts,
        seconds,
        ..
    } = *lined.net;
    let kind = kinds[g];
    let first = source(lined.line, kind, 1, firsts[g]);
    let second = source(lined.line, kind, 2, seconds[g]);
    put_record(records, at, kind, lined.flag[g], first, second, 0)
}

// The record of line k: an input has kind 0 and no source.
#[tactic(auto, unfolding(crate::specs::Owed::record_by))]
fn put_line(lined: &Lined<'_>, k: usize, records: &mut [u8], at: usize) -> usize
    requires { PutLineReady (lined_seen lined.now) k records.old at }
    ensures { Put records.old records.new at (record_by (lined_seen lined.now) k) result }
{
    let inputs = lined.net.inputs;
    if k < inputs {
        put_record(records, at, 0, lined.flag[lined.line.len() + k], 0, 0, 0)
    } else {
        let g = usize::from(lined.order[k - inputs]);
        put_gate(lined, g, records, at)
    }
}

// The records of all lines.
fn put_lines(lined: &Lined<'_>, records: &mut [u8])
    requires put_lines_ready { PutLinesReady (lined_seen lined.now) }
    requires records_len { length records.old ≡ 8 * line_count (lined_seen lined.now) }
    ensures { records.new ≡ records_by (lined_seen lined.now) (line_count (lined_seen lined.now)) }
{
    let mut at = 0;
    for k in 0..lined.net.inputs + lined.order.len() {
        at = put_line(lined, k, records, at);
    }
}

// ---- all of it

// In memory for the lines and the flags.
fn put_records_in(
    net: &Net<'_>,
    order: &[u16],
    line: &mut [u16],
    flag: &mut [u8],
    records: &mut [u8],
)
    requires { PutRecordsInReady (net_seen net.now) order.now line.old flag.old records.old }
    ensures { records.new ≡ records_of (net_seen net.now) }
{
    number_lines(order, net.inputs, line);
    mark_outputs(net.outputs, flag);
    let lined = Lined {
        net,
        order,
        line,
        flag,
    };
    put_lines(&lined, records);
}

// Writes the records.
pub fn put_records(net: &Net<'_>, order: &[u16], records: &mut [u8])
    requires { PutRecordsReady (net_seen net.now) order.now records.old }
    ensures { records.new ≡ records_of (net_seen net.now) }
{
    let mut line = [0u16; 2048];
    let mut flag = [0u8; 2048];
    let gates = net.firsts.len();
    let size = net.inputs + gates;
    put_records_in(net, order, &mut line[..gates], &mut flag[..size], records);
}
