// No code: what the calls mean, on abstract states. The definitions are in specs/.
#![tactic(auto)]
