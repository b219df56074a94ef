// How the nets of a stage switch. The definitions are in specs/, and nothing is run.
#![tactic(auto)]
