// The largest number of each field, as the table of specs/Layout has it: unpacking clamps to it, and number 6 refuses
// what is above. A definition can't read these; the check ties the two.

// A number with a byte for itself: rates, levels, depths, break point, fine, and the LFO's rate and delay.
pub const WHOLE: u8 = 99;

pub const CURVE: u8 = 3;

pub const RATE_SCALING: u8 = 7;

pub const DETUNE: u8 = 14;

pub const AMP_MOD_SENSITIVITY: u8 = 3;

pub const VELOCITY_SENSITIVITY: u8 = 7;

pub const MODE: u8 = 1;

pub const COARSE: u8 = 31;

pub const ALGORITHM: u8 = 31;

pub const FEEDBACK: u8 = 7;

pub const RESET_PHASE: u8 = 1;

pub const WAVEFORM: u8 = 5;

pub const TRANSPOSE: u8 = 48;

pub const LETTER: u8 = 127;

// The LFO's pitch sensitivity: in a patch, and where the LFO is set or the sensitivity converted.
pub const PATCH_SENSITIVITY: u8 = 15;

pub const LFO_SENSITIVITY: u8 = 7;
