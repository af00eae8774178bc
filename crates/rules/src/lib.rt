// No code: the rules of the selector and of its checker, in specs/.
#![tactic(auto)]
