//! Mathematics that the layers share: specs/ has its definitions, proofs/ its laws. There is no code here.
#![tactic(auto)]
