// The items of a listing and the cut theorem: definitions and laws only, in specs/; there is nothing to run.
#![tactic(auto)]
