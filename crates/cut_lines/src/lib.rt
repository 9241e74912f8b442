// The printed listing of a cut image: definitions and laws only, in specs/; there is nothing to run.
#![tactic(auto)]
