// MADI whole: the promises that reader and writer keep together. They are laws over the two definitions; there is no
// code here.
#![tactic(auto)]
