// What is known of the bytes that come in and go out; as definitions, in specs/.
#![tactic(auto)]
