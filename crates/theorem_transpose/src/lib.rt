// What a voice's switch does to a block, as theorems over the definitions of `voice_render`: off, or without a patch, a
// block's answer is document 01's word for word; on, it is that of the same voice with its switch off that is given the
// shifted note. specs/Transpose.antt has what is compared; proofs/Transpose.antt proves it for every input. There is no
// code.

#![tactic(auto)]
