// What is promised of the check of two files and of the settled row: definitions in specs/, theorems in proofs/, and nothing is run.
#![tactic(auto)]
