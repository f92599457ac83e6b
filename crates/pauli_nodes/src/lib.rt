// Nodes and operations of Pauli programs: definitions and laws; nothing here runs.
#![tactic(auto)]
