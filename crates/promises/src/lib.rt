// The promises: statements alone, in specs/, over the definitions of the other crates. No code.
#![tactic(auto)]
