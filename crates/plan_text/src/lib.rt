// The plan printer (added to what the Rust has): the text for one raw row, put together in a string of fixed room, as
// bytes at the start of a lent buffer. It promises the definition's text, and that what stood behind it stays.
#![tactic(auto)]

ghost use Rattle.std.specs.Prelude.{◌≡◌, [], ◌∷◌, ◌++◌, ◌+◌, ◌*◌, ◌≤◌, length, IfOk};
ghost use Rattle.plan_text.specs.Text.{Written, digit, hex_digit, row_text, count_text, source_text, way_text};
ghost use Rattle.plan_text.specs.Text.{call_text, calls_text, at_text, refusal_text, planned_text, plan_text};

use algorithms::{Call, FEEDBACK, Plan, UNMODULATED};
use arrayvec::ArrayString;
use refusals::Refusal;

// The bytes that the longest text takes, with room to spare.
const ROOM: usize = 160;

// A number of one digit.
#[tactic(auto, unfolding(crate::specs::Text::digit))]
fn push_digit(text: &mut ArrayString<ROOM>, d: u8)
    requires { length text.old.bytes + 1 ≤ 160 }
    ensures { text.new.bytes ≡ text.old.bytes ++ digit d ∷ [] }
{
    text.push((b'0' + d % 10) as char);
}

#[tactic(auto, unfolding(crate::specs::Text::hex_digit))]
fn push_hex_digit(text: &mut ArrayString<ROOM>, d: u8)
    requires { length text.old.bytes + 1 ≤ 160 }
    ensures { text.new.bytes ≡ text.old.bytes ++ hex_digit d ∷ [] }
{
    let x = d % 16;
    let digit = if x < 10 { b'0' + x } else { b'a' - 10 + x };
    text.push(digit as char);
}

fn push_row(text: &mut ArrayString<ROOM>, bytes: &[u8])
    requires { length text.old.bytes + 3 * length bytes.now + 4 ≤ 160 }
    ensures { text.new.bytes ≡ text.old.bytes ++ row_text bytes.now }
{
    text.push_str("row");
    for byte in bytes {
        text.push_str(" ");
        push_hex_digit(text, *byte / 16);
        push_hex_digit(text, *byte);
    }
    text.push_str("\n");
}

#[tactic(auto, unfolding(crate::specs::Text::count_text))]
fn push_count(text: &mut ArrayString<ROOM>, n: u8)
    requires { length text.old.bytes + 8 ≤ 160 }
    ensures { text.new.bytes ≡ text.old.bytes ++ count_text n }
{
    text.push_str("calls ");
    push_digit(text, n);
    text.push_str("\n");
}

#[tactic(auto, unfolding(crate::specs::Text::source_text))]
fn source(input: u8) -> &'static str
    ensures { result.now ≡ source_text input }
{
    match input {
        UNMODULATED => "none ",
        FEEDBACK => "feedback ",
        _ => "external ",
    }
}

#[tactic(auto, unfolding(crate::specs::Text::way_text))]
fn way(add: bool) -> &'static str
    ensures { result.now ≡ way_text add }
{
    if add { "add\n" } else { "set\n" }
}

// Two numbers, each with a space behind it.
fn push_numbers(text: &mut ArrayString<ROOM>, a: u8, b: u8)
    requires { length text.old.bytes + 4 ≤ 160 }
    ensures { text.new.bytes ≡ text.old.bytes ++ (digit a ∷ 32 ∷ digit b ∷ 32 ∷ []) }
{
    push_digit(text, a);
    text.push_str(" ");
    push_digit(text, b);
    text.push_str(" ");
}

fn push_call(text: &mut ArrayString<ROOM>, c: &Call)
    requires { length text.old.bytes + 21 ≤ 160 }
    ensures { text.new.bytes ≡ text.old.bytes ++ call_text c.now }
{
    push_numbers(text, c.first, c.n);
    text.push_str(source(c.input));
    push_numbers(text, c.input, c.output);
    text.push_str(way(c.add));
}

fn push_calls(text: &mut ArrayString<ROOM>, calls: &[Call])
    requires { length text.old.bytes + 21 * length calls.now ≤ 160 }
    ensures { text.new.bytes ≡ text.old.bytes ++ calls_text calls.now }
{
    for call in calls {
        push_call(text, call);
    }
}

// A refusal's operator, where it names one.
fn push_at(text: &mut ArrayString<ROOM>, refusal: Refusal)
    requires { length text.old.bytes + 6 ≤ 160 }
    ensures { text.new.bytes ≡ text.old.bytes ++ at_text refusal }
{
    match refusal {
        Refusal::NoRenderer(at) | Refusal::UnsetBuffer(at) => {
            text.push_str(" at ");
            push_digit(text, at);
            text.push_str("\n");
        }
        _ => text.push_str("\n"),
    }
}

#[tactic(auto, unfolding(crate::specs::Text::refusal_text))]
fn push_refusal(text: &mut ArrayString<ROOM>, refusal: Refusal)
    requires { length text.old.bytes + 15 ≤ 160 }
    ensures { text.new.bytes ≡ text.old.bytes ++ refusal_text refusal }
{
    text.push_str("refused ");
    push_digit(text, refusal.number());
    push_at(text, refusal);
}

// The text for what was compiled of the bytes.
fn push_planned(text: &mut ArrayString<ROOM>, bytes: &[u8], planned: Result<Plan, Refusal>)
    requires { (text.old.bytes ≡ []) × IfOk planned (λ p. (length bytes.now ≤ 6) × (p.count ≤ 6)) }
    ensures { text.new.bytes ≡ planned_text bytes.now planned }
{
    match planned {
        Ok(plan) => {
            push_row(text, bytes);
            push_count(text, plan.count);
            push_calls(text, &plan.calls[..plan.count as usize]);
        }
        Err(refusal) => push_refusal(text, refusal),
    }
}

// The text for one raw row: the row, its number of calls and a line for each; or the line of its refusal. The answer is
// the text's length.
pub fn print(bytes: &[u8], out: &mut [u8; ROOM]) -> usize
    ensures { Written out.old 0 (plan_text bytes.now) out.new result }
{
    let mut text = ArrayString::<ROOM>::new();
    let planned = algorithms::compile_row(bytes.len(), algorithms::six_bytes(bytes));
    push_planned(&mut text, bytes, planned);
    let n = text.len();
    out[..n].copy_from_slice(text.as_bytes());
    n
}
