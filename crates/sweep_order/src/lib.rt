// The order of loading: what another order of the same edges changes, and why it changes nothing else. No code: the sweep's definition alone.
#![tactic(auto)]
