// Laws of tests, sums, tables and signed numbers that the other crates cite. There is no code here:
// all of it stands under specs/.
#![tactic(auto)]
