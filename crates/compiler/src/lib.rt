// Definitions and laws only: specs/.
#![tactic(auto)]
