// Rows of opcodes compiled to plans, after `algorithms.rs`: what each operator reads and writes, which operators one
// renderer takes together, and which rows are refused. Each entry promises the definition's answer, for refused rows
// too. A row has a byte for each operator, in the order in which they are rendered. An operator writes to one of four
// buffers, the output or a scratch buffer, and is modulated by what an earlier one left in such a buffer, or by
// feedback. A renderer is a loop made for one shape of call; the Rust looks its renderers up in a table, here a few
// tests decide. A slice `os` is a row's operators from a call's first one on.
#![tactic(auto)]

ghost use Rattle.std.specs.Prelude.{◌≡◌, not, ◌&&◌, ◌||◌, [], ◌∷◌, ◌+◌, ◌≤◌, ◌<◌, length, get_or, eqb, false};
ghost use Rattle.std.specs.Prelude.{cond, Ok, Err};
ghost use Rattle.refusals.specs.declared.Refusal.TheVariants.{WrongTable};
ghost use Rattle.algorithms.specs.Opcode.{destination, adding, source, flagged, modulating};
ghost use Rattle.algorithms.specs.Chain.{unmet, grown, reused, chained, call_length, rendered, some};
ghost use Rattle.algorithms.specs.Plan.{no_call, no_plan, call_of, reading, unready, plan_from, counted, planned};
ghost use Rattle.algorithms.specs.Plan.{is_plan, is_plan_of};
ghost use Rattle.algorithms.specs.Table.{six, tabled, row_of, compiled, modulator_answer};

use refusals::Refusal;

// A source that is no buffer: nothing modulates the operator, or feedback does. 1 and 2 are a buffer.
pub const UNMODULATED: u8 = 0;

pub const FEEDBACK: u8 = 3;

// One call of a plan: n operators from `first` on, their input and output, and whether they add to the output or set
// it. A feedback call's origin is its last operator.
#[derive(Clone, Copy, Debug, PartialEq, Eq)]
pub struct Call {
    pub first: u8,
    pub n: u8,
    pub input: u8,
    pub output: u8,
    pub add: bool,
}

// A row's calls in order; the calls behind `count` are zero.
#[derive(Clone, Copy, Debug, PartialEq, Eq)]
pub struct Plan {
    pub count: u8,
    pub calls: [Call; 6],
}

// A row of a table, its bytes zero behind the last operator, and its plan.
#[derive(Clone, Copy, Debug, PartialEq, Eq)]
pub struct Compiled {
    pub row: [u8; 6],
    pub plan: Plan,
}

// The buffer that an operator writes to.
#[tactic(auto, unfolding(crate::specs::Opcode::destination))]
pub fn destination_of(opcode: u8) -> u8
    ensures { result ≡ destination opcode }
{
    opcode % 4
}

// Whether it adds there.
#[tactic(auto, unfolding(crate::specs::Opcode::adding))]
pub fn is_adding(opcode: u8) -> bool
    ensures { result ≡ adding opcode }
{
    opcode / 4 % 2 == 1
}

// What modulates it.
#[tactic(auto, unfolding(crate::specs::Opcode::source))]
pub fn source_of(opcode: u8) -> u8
    ensures { result ≡ source opcode }
{
    opcode / 16 % 4
}

// Whether feedback comes from it.
#[tactic(auto, unfolding(crate::specs::Opcode::flagged))]
fn is_flagged(opcode: u8) -> bool
    ensures { result ≡ flagged opcode }
{
    opcode / 64 % 2 == 1
}

// Whether an operator modulates others, and is not heard itself.
#[tactic(auto, unfolding(crate::specs::Opcode::modulating))]
pub fn is_modulating(opcode: u8) -> bool
    ensures { result ≡ modulating opcode }
{
    destination_of(opcode) != 0
}

// Whether a chain goes on from an operator to the next: what it writes is what the next is modulated by, and it sets
// it.
#[tactic(auto, unfolding(crate::specs::Chain::unmet))]
fn grows(from: u8, to: u8) -> bool
    ensures { result ≡ not (unmet from (to ∷ []) || adding from) }
{
    destination_of(from) == source_of(to) && !is_adding(from)
}

// How many operators the chain grows to.
pub fn grow(os: &[u8]) -> usize
    ensures { result ≡ grown os.now }
{
    let mut links = 0;
    for pair in os.windows(2) {
        if !grows(pair[0], pair[1]) {
            return links + 1;
        }
        links += 1;
    }
    os.len()
}

// Whether the reuse rule cuts the chain, which has grown to n operators. A chain rendered as one keeps what passes
// between its operators to itself; where the operator behind the chain is modulated by the first one's buffer too, it
// must be left there. Algorithms 19 to 25, and 6 of those of four operators, have one modulator for several.
#[tactic(auto, unfolding(crate::specs::Chain::reused))]
pub fn is_reused(os: &[u8], n: usize) -> bool
    requires { n ≡ grown os.now }
    ensures { result ≡ reused os.now }
{
    n < os.len() && source_of(os[n]) == destination_of(os[0])
}

// How long the chain is after the reuse rule, by which it shrinks to its first operator.
#[tactic(auto, unfolding(crate::specs::Chain::chained))]
pub fn chain(os: &[u8]) -> usize
    ensures { result ≡ chained os.now }
{
    let n = grow(os);
    if is_reused(os, n) { 1 } else { n }
}

// The same again after a look for a renderer. The only ones for several operators are those of algorithms 4 and 6,
// whose feedback goes from the last of a chain to its first: no other chain is grown at all.
pub fn call_length(operators: usize, os: &[u8]) -> usize
    requires { 0 < length os.now }
    ensures { result ≡ call_length operators os.now }
{
    if operators != 6 || source_of(os[0]) != FEEDBACK {
        return 1;
    }
    let n = chain(os);
    let last = os[n - 1];
    if n <= 3 && is_adding(last) && is_flagged(last) {
        n
    } else {
        1
    }
}

// Whether an operator wants feedback and is no origin itself: alone it has no renderer.
fn is_originless(opcode: u8) -> bool
    ensures { result ≡ eqb (source opcode) 3 && not (flagged opcode) }
{
    source_of(opcode) == FEEDBACK && !is_flagged(opcode)
}

// The length of the call that has a renderer.
#[tactic(auto, unfolding(crate::specs::Chain::some))]
pub fn rendered_length(operators: usize, os: &[u8]) -> Option<usize>
    requires { 0 < length os.now }
    ensures { result ≡ some (rendered operators os.now) }
{
    let n = call_length(operators, os);
    if n == 1 && is_originless(os[0]) {
        None
    } else {
        Some(n)
    }
}

// The call of n operators from `first` on.
#[tactic(auto, unfolding(crate::specs::Plan::call_of))]
pub fn call_of(first: u8, n: usize, os: &[u8]) -> Call
    requires { (1 ≤ n) × (n ≤ length os.now) × (first + n ≤ 6) }
    ensures { result ≡ call_of first n os.now }
{
    let last = os[n - 1];
    Call {
        first,
        n: n as u8,
        input: source_of(os[0]),
        output: destination_of(last),
        add: is_adding(last),
    }
}

// Whether a call reads a buffer.
#[tactic(auto, unfolding(crate::specs::Plan::reading))]
pub fn is_reading(c: Call) -> bool
    ensures { result ≡ reading c }
{
    matches!(c.input, 1 | 2)
}

// Whether a call reads or adds to a buffer that is not ready.
#[tactic(auto, unfolding(crate::specs::Plan::unready))]
pub fn is_unready(flags: &[bool; 4], c: Call) -> bool
    requires { (c.input < 4) × (c.output < 4) }
    ensures { result ≡ unready (λ q. get_or flags.now q false) c }
{
    (is_reading(c) && !flags[c.input as usize]) || (c.add && !flags[c.output as usize])
}

// What stands behind a plan's calls.
const NO_CALL: Call = Call {
    first: 0,
    n: 0,
    input: UNMODULATED,
    output: 0,
    add: false,
};

pub fn no_plan() -> Plan
    ensures { result ≡ no_plan }
{
    Plan {
        count: 0,
        calls: [NO_CALL; 6],
    }
}

// The calls in row order. An accepted call's output is ready behind it, whether it set it or added to it.
fn compile_calls(row: &[u8]) -> Result<Plan, Refusal>
    requires { length row.now ≤ 6 }
    ensures { result ≡ plan_from (length row.now) 0 0 no_plan row.now }
{
    let mut flags = [true, false, false, false];
    let mut plan = no_plan();
    let mut first = 0u8;
    // Stays: (d) a call takes one to three operators, so no `for` goes from call to call.
    while (first as usize) < row.len() {
        let os = &row[first as usize..];
        let Some(n) = rendered_length(row.len(), os) else {
            return Err(Refusal::NoRenderer(first));
        };
        let c = call_of(first, n, os);
        if is_unready(&flags, c) {
            return Err(Refusal::UnsetBuffer(first));
        }
        flags[c.output as usize] = true;
        plan.calls[plan.count as usize] = c;
        plan.count += 1;
        first += c.n;
    }
    Ok(plan)
}

#[tactic(auto, unfolding(crate::specs::Plan::counted))]
pub fn is_counted(operators: usize) -> bool
    ensures { result ≡ counted operators }
{
    matches!(operators, 4 | 6)
}

// The plan of a row of six bytes, of which the first `operators` count: 2 for operators other than 4 or 6, 3 for a call
// without a renderer, 4 for one that reads or adds to a scratch buffer that no earlier call has set.
#[tactic(auto, unfolding(crate::specs::Plan::planned))]
pub fn compile_row(operators: usize, row: [u8; 6]) -> Result<Plan, Refusal>
    ensures { result ≡ planned operators row }
{
    if !is_counted(operators) {
        return Err(Refusal::WrongTable);
    }
    compile_calls(&row[..operators])
}

// Whether a row's operators are accepted and this is their plan. It walks the two together, up to the first call that
// differs, and builds no other plan.
fn is_compiled_to(row: &[u8], plan: &Plan) -> bool
    requires { length row.now ≤ 6 }
    ensures { result ≡ is_plan (plan_from (length row.now) 0 0 no_plan row.now) plan.now }
{
    let mut ready = [true, false, false, false];
    let mut k = 0;
    let mut first = 0u8;
    // Stays: (d) a call takes one to three operators, so no `for` goes from call to call.
    while (first as usize) < row.len() {
        let os = &row[first as usize..];
        let Some(n) = rendered_length(row.len(), os) else {
            return false;
        };
        let c = call_of(first, n, os);
        if is_unready(&ready, c) {
            return false;
        }
        if c != plan.calls[k] {
            return false;
        }
        ready[c.output as usize] = true;
        k += 1;
        first += c.n;
    }
    if plan.count as usize != k {
        return false;
    }
    for d in &plan.calls[k..] {
        if *d != NO_CALL {
            return false;
        }
    }
    true
}

// Whether a row is accepted and this is its plan.
pub fn is_plan_of(operators: usize, row: [u8; 6], plan: Plan) -> bool
    ensures { result ≡ is_plan_of operators row plan }
{
    is_counted(operators) && is_compiled_to(&row[..operators], &plan)
}

// A row's six bytes, zero where there are none.
#[tactic(auto, using(crate::proofs::Tables::six_copied))]
pub fn six_bytes(part: &[u8]) -> [u8; 6]
    ensures { result ≡ six part.now }
{
    let mut row = [0; 6];
    let n = part.len().min(6);
    row[..n].copy_from_slice(&part[..n]);
    row
}

// A row of a lent table: 2 for operators other than 4 or 6, a table that is empty, not of whole rows or above 32 of
// them, and a row number past it.
#[tactic(auto, unfolding(crate::specs::Table::tabled, crate::specs::Table::row_of))]
fn row_of(operators: usize, table: &[u8], row: usize) -> Result<[u8; 6], Refusal>
    ensures { result ≡ cond (tabled operators table.now row)
        (Ok (row_of operators table.now row)) (Err WrongTable) }
{
    if !is_counted(operators) || table.len() % operators != 0 {
        return Err(Refusal::WrongTable);
    }
    let rows = table.len() / operators;
    let too_many = 32 < rows;
    if too_many || rows <= row {
        return Err(Refusal::WrongTable);
    }
    let start = row * operators;
    Ok(six_bytes(&table[start..start + operators]))
}

// Whether an operator of a row of a lent table modulates others: 2 where there is no such row, as in `compile`, or no
// such operator in it. A row that gets 3 or 4 is answered too, since opcodes alone decide.
#[tactic(auto, unfolding(crate::specs::Table::modulator_answer))]
pub fn is_modulator(
    operators: usize,
    table: &[u8],
    row: usize,
    operator: usize,
) -> Result<bool, Refusal>
    ensures { result ≡ modulator_answer operators table.now row operator }
{
    let bytes = row_of(operators, table, row)?;
    if operators <= operator {
        return Err(Refusal::WrongTable);
    }
    Ok(is_modulating(bytes[operator]))
}

// A row of a lent table and its plan: 2 as above, then 3 and 4.
#[tactic(auto, unfolding(crate::specs::Table::compiled, crate::specs::Table::with_row))]
pub fn compile(operators: usize, table: &[u8], row: usize) -> Result<Compiled, Refusal>
    ensures { result ≡ compiled operators table.now row }
{
    let row = row_of(operators, table, row)?;
    let plan = compile_row(operators, row)?;
    Ok(Compiled { row, plan })
}
