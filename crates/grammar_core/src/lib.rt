//! Grammars as data: what spells a form, what begins it, and the reader's theorem for every grammar in
//! which one token decides. All of it stands in `specs/` and `proofs/`; the crate has no code. A clause
//! cannot speak of all grammars, so the theorem is a lemma here, and the crate of a grammar names it in
//! the contracts of its laws.
#![tactic(auto)]
