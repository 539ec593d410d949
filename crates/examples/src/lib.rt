// Examples of the calls, as definitions that are computed (specs/). There is no code.
#![tactic(auto)]
