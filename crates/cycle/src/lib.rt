// A cycle of a netlist: what it does to a state, and what its channels read in it. No code: the
// definitions, their laws, and what the loops that make a cycle hold (specs/).
#![tactic(auto)]
