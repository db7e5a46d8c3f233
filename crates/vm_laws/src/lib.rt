// Laws only: specs/laws/.
#![tactic(auto)]
