// The note that a block plays in the place of the one it is given (document 02, request f). It follows no file of the
// Rust, which never looks at a patch's transpose: that is a voice that does not transpose.
#![tactic(auto)]

ghost use Rattle.std.specs.Prelude.{◌≡◌};
ghost use Rattle.voice_note.specs.Note.{shift_of, played_note};

// How far a patch's transpose moves a note, in semitones: an octave has 12, and 24 is none.
fn shift(transpose: u8) -> f32
    ensures { result ≡ shift_of transpose }
{
    numbers::i32_as_f32(transpose as i32 - 24)
}

// The note that a block plays: one sum with one rounding where the voice transposes, else the note itself.
#[tactic(auto, unfolding(crate::specs::Note::played_note))]
pub fn played_note(transposes: bool, transpose: u8, note: f32) -> f32
    ensures { result ≡ played_note transposes transpose note }
{
    if transposes {
        return note + shift(transpose);
    }
    note
}
