// The judge's entries 50 to 57 and 70 to 72 (hex, docs/ORACLE.md): the crates `algorithms`, `plan_text` and
// `algorithms_opcodes`. On the wire a plan is its count and six calls of five bytes each.
#![tactic(auto)]

ghost use Rattle.std.specs.Prelude.{◌<◌};

use algorithms::{Call, Compiled, Plan};
use judge_wire::{Answer, Fields};
use refusals::Refusal;

// The length of the call whose fields these are, its entry's byte included; 0 for no entry of this crate.
pub fn length(entry: u8, mut fields: Fields<'_>) -> usize {
    match entry {
        0x50 => 8 + behind_a_byte(fields),
        0x51 => 8,
        0x52 => 2,
        0x53 | 0x55 => 3 + fields.half() as usize,
        0x54 => 63,
        0x56 => 6,
        0x70 => 39,
        0x71 => 12 + behind_a_byte(fields),
        _ => 0,
    }
}

fn behind_a_byte(mut fields: Fields<'_>) -> usize
    ensures { result < 65536 }
{
    let _operators = fields.byte();
    fields.half() as usize
}

// Writes what the call answers.
pub fn answer(entry: u8, fields: &mut Fields<'_>, out: &mut Answer<'_>) {
    match entry {
        0x50 => compile(fields, out),
        0x51 => compile_row(fields, out),
        0x52 => out.flag(algorithms::is_modulating(fields.byte())),
        0x53 => print(fields.slice(), out),
        0x54 => out.flag(read_plan(fields) == read_plan(fields)),
        0x55 => out.bytes(&algorithms::six_bytes(fields.slice())),
        0x70 => is_plan_of(fields, out),
        0x71 => is_modulator(fields, out),
        _ => out.byte(opcode(fields.byte(), fields.word() as usize)),
    }
}

fn compile(fields: &mut Fields<'_>, out: &mut Answer<'_>) {
    let operators = fields.byte() as usize;
    let table = fields.slice();
    let row = fields.word() as usize;
    let zeros = Compiled {
        row: [0; 6],
        plan: algorithms::no_plan(),
    };
    let done = given(out, algorithms::compile(operators, table, row), zeros);
    out.bytes(&done.row);
    put_plan(out, &done.plan);
}

fn compile_row(fields: &mut Fields<'_>, out: &mut Answer<'_>) {
    let operators = fields.byte() as usize;
    let done = algorithms::compile_row(operators, fields.bytes());
    let plan = given(out, done, algorithms::no_plan());
    put_plan(out, &plan);
}

// A refusal's number and operator, or zeros; and what was answered, zeros on a refusal.
fn given<T: Copy>(out: &mut Answer<'_>, done: Result<T, Refusal>, zeros: T) -> T {
    match done {
        Ok(value) => {
            out.bytes(&[0, 0]);
            value
        }
        Err(refusal) => {
            out.bytes(&[refusal.number(), refusal.place()]);
            zeros
        }
    }
}

fn is_plan_of(fields: &mut Fields<'_>, out: &mut Answer<'_>) {
    let operators = fields.byte() as usize;
    let row = fields.bytes();
    out.flag(algorithms::is_plan_of(operators, row, read_plan(fields)));
}

fn is_modulator(fields: &mut Fields<'_>, out: &mut Answer<'_>) {
    let operators = fields.byte() as usize;
    let table = fields.slice();
    let row = fields.word() as usize;
    let operator = fields.word() as usize;
    let done = algorithms::is_modulator(operators, table, row, operator);
    let modulates = out.value(done, false);
    out.flag(modulates);
}

// The printer's text as a slice.
fn print(row: &[u8], out: &mut Answer<'_>) {
    let mut text = [0u8; 160];
    let size = plan_text::print(row, &mut text);
    out.slice(text.get(..size).unwrap_or(&[]));
}

// An opcode of the Rust's tables for 4 and 6 operators; 0 past the end and in a table that is not there.
fn opcode(operators: u8, index: usize) -> u8 {
    let found = match operators {
        4 => algorithms_opcodes::opcodes_4_8().get(index).copied(),
        6 => algorithms_opcodes::opcodes_6_32().get(index).copied(),
        _ => None,
    };
    found.unwrap_or(0)
}

pub fn read_plan(fields: &mut Fields<'_>) -> Plan {
    let mut plan = algorithms::no_plan();
    plan.count = fields.byte();
    for call in plan.calls.iter_mut() {
        *call = read_call(fields);
    }
    plan
}

fn read_call(fields: &mut Fields<'_>) -> Call {
    let [first, n, input, output, add] = fields.bytes::<5>();
    Call {
        first,
        n,
        input,
        output,
        add: add != 0,
    }
}

pub fn put_plan(out: &mut Answer<'_>, plan: &Plan) {
    out.byte(plan.count);
    for call in &plan.calls {
        put_call(out, call);
    }
}

fn put_call(out: &mut Answer<'_>, c: &Call) {
    out.bytes(&[c.first, c.n, c.input, c.output]);
    out.flag(c.add);
}
