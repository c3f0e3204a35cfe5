// The definitions computed: on figure 4, on a netlist with stations, and on the edges. No code (specs/).
#![tactic(auto)]
