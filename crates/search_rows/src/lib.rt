//! Rows worked out by hand for the crates of the search: clauses, derivations, the arena, the solver,
//! circuits, systems of a few bits, their certificates, and what one step of induction answers.
#![tactic(auto)]

#[cfg(test)]
mod arenas;
#[cfg(test)]
mod building;
#[cfg(test)]
mod certificates;
#[cfg(test)]
mod circuits;
#[cfg(test)]
mod clauses;
#[cfg(test)]
mod counter;
#[cfg(test)]
mod derivations;
#[cfg(test)]
mod emitting;
#[cfg(test)]
mod solving;
#[cfg(test)]
mod steps;
#[cfg(test)]
mod trimming;
