// What `check` answers for a file; as definitions, in specs/.
#![tactic(auto)]
