// The marks of a block are those of its operators' frequencies, and all as asked where the block is refused, blank or
// empty: a theorem over the definitions of `voice_render`. specs/Marks.antt says it in the request's words;
// proofs/Marks.antt proves it for every input. There is no code.

#![tactic(auto)]
