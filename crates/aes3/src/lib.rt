// AES3 whole: the promises that writer and reader keep together. They are laws over the two definitions; there is no
// code here.
#![tactic(auto)]
