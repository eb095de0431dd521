// The nine calls for C and Rust: the answer of a call, or minus the number of its refusal. Nothing else is done here.
//
// A buffer passes as a pointer and a length. The buffers of one call do not overlap.
#![tactic(auto)]

mod changing;
mod codes;
mod reading;
