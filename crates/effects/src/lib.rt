// What each change of an image leaves and keeps of what is read of it, as laws over `changes`. There is no
// code here. `history` stands on it.
//
// proofs/Seen.antt says it for each change; the other files prove it, in the order of proofs/Lib.antt.

#![tactic(auto)]
