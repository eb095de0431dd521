// The calls, the plain book and the claim about every list of calls, as definitions and laws. The code over them is
// in the crates `looking`, `calls` and `event_disk`.
#![tactic(auto)]
