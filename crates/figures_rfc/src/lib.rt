// No code: the proofs hold the definition of Argon2 against RFC 9106's own example.

#![tactic(auto)]
