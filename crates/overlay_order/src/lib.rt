// The order of a sheet's edge lines: what another order within their sections changes. No code: the definitions of overlay's work alone.
#![tactic(auto)]
