// Laws of deals that no contract cites: each refusal exactly where it is due, deals and their views, the laws of the tables in use.

#![tactic(auto)]
