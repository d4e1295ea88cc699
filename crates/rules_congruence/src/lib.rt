//! The rules of equality of the Alethe specification but `refl`: whether a step meets the condition of its rule.
//!
//! A step's equalities are its premises, or literals that deny them. They are read once into a list of pairs of references.
//! In strict mode nothing is searched. Nor is it in check mode, where the list is what strict mode asks for; else the list,
//! both ways round, is sorted into a table: transitivity goes through it breadth first, and congruence looks the sides of its
//! arguments up in it. So a step costs at most the sorting of its premises and the walks over its arguments that equality up
//! to flips takes. The lists of few premises, equalities and arguments take no memory.
#![tactic(auto)]

mod applications;
mod checks;
mod clauses;
mod congruence;
mod links;
mod predicates;
mod sides;
mod signed;
mod together;
mod transitivity;
mod turning;
mod uses;
mod using;
mod ways;

pub use checks::meets;
