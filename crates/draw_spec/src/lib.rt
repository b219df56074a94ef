// A reference drawn from a seed. The definitions are in specs/, and nothing is run.
#![tactic(auto)]
