// A stage from a reference. The definitions are in specs/, and nothing is run.
#![tactic(auto)]
