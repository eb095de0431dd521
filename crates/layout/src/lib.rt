// What lies where on a disk: files, free pieces, adding and removing, as definitions and laws. The code over them is
// the crate `table`.
#![tactic(auto)]
