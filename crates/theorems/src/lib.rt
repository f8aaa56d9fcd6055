// No code: what is true of the whole, over the definitions that the libraries' promises cite.
#![tactic(auto)]
