// The cases of document 01, computed from the definitions. They stand in specs/.
#![tactic(auto)]
