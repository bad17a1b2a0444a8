// No code: the proofs have the definition of Argon2 in a form that is quicker to compute, equal to it, for the crates of figures.

#![tactic(auto)]
