//! Worked examples of the rules that every table keeps: values and programs that break a rule, and such that keep it. They stand in
//! `proofs/`, in files named for the definitions that they are examples of, and are proved like any lemma. There is no call.
#![tactic(auto)]
