// Connection (`connect_edges.rs`): what it means and what is true of it. The code that is proved equal to it stands in the crates above.
#![tactic(auto)]
