// What programs print. The definitions are in specs/, and nothing is run.
#![tactic(auto)]
