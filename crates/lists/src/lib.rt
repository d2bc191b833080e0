// Lists and families: definitions and laws alone, for the crates above.
#![tactic(auto)]
