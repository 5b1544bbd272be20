// Expressions, statements, rules, steps and derivations: definitions only, in specs/.
#![tactic(auto)]
