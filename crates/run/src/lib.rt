// Demand 3: the run of N gateways, as definitions.
#![tactic(auto)]
