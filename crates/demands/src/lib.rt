// The demands that join crates: what is fed in pieces is what is lexed uncut, what is printed is read back, and the rules of a call; no code.
#![tactic(auto)]
