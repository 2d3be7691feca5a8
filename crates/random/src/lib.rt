// The pseudo random number generator. It follows utils/random.rs, whose hidden number is passed in
// here and handed back. Each function has an answer for every number, and its promise names it.
#![tactic(auto)]

ghost use Rattle.std.specs.Prelude.{◌≡◌};
ghost use Rattle.random.specs.Random.{next_number, draw};

// A draw, and the generator's number after it.
#[derive(Clone, Copy, Debug, PartialEq)]
pub struct Drawn {
    pub state: u32,
    pub value: f32,
}

// The generator's next number.
#[tactic(auto, unfolding(crate::specs::Random::next_number))]
pub fn get_word(state: u32) -> u32
    ensures { result ≡ next_number state }
{
    state.wrapping_mul(1664525).wrapping_add(1013904223)
}

// A draw from 0 to 1: the next number over 2^32. The number is rounded to f32 first, so a draw can be
// exactly 1.
pub fn get_float(state: u32) -> Drawn
    ensures { result ≡ draw state }
{
    let word = get_word(state);
    Drawn {
        state: word,
        value: numbers::u32_as_f32(word) / 4294967296.0,
    }
}
