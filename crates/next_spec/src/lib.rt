// Every small stage: the family of files, its order, and what is next. The definitions are in specs/, and nothing is run.
#![tactic(auto)]
