// What each call of the nucleus answers, as definitions.
#![tactic(auto)]
