// No code: sessions over lent buffers, the three demands, and the starred edges. The definitions are in specs/.
#![tactic(auto)]
