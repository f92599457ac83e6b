// Laws only: nothing here runs. See specs/ for the definitions and proofs/ for the laws.
#![tactic(auto)]
