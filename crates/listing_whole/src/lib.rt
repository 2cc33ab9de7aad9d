// The whole listing of an input, and what is demanded of it. No code: it is over the promise of `listing`.
#![tactic(auto)]
