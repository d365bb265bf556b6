// A larger pool: what loading and the sweep leave in its first places, and that only refusal 6 asks for more. No code: the definitions alone.
#![tactic(auto)]
