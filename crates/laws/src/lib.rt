// No code: definitions and laws that several crates cite, in specs/.
#![tactic(auto)]
