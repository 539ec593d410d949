// What a rule means is defined in specs/. There is no code.
#![tactic(auto)]
