// What a case is worth, as definitions and their laws. The code that works it out is private to the crate `valuing`, since it
// asks that amounts are in range, which only valuing can know.
#![tactic(auto)]
