//! Worked examples of the definitions: screens, owners and steps of small states. Each is computed
//! from the definitions by `refl` in `proofs/`. The crate has no code.
#![tactic(auto)]
