//! Tests of programs, satisfiability, paths and searches; there is nothing else here.
#![tactic(auto)]

#[cfg(test)]
mod buchi_inclusion_tests;
#[cfg(test)]
mod derivation_search_tests;
#[cfg(test)]
mod fold_offers_tests;
#[cfg(test)]
mod given;
#[cfg(test)]
mod goto_lang_tests;
#[cfg(test)]
mod graphs;
#[cfg(test)]
mod refute_models_tests;
#[cfg(test)]
mod sat_pairs_tests;
#[cfg(test)]
mod search_moves_tests;
#[cfg(test)]
mod trace_pairs_tests;
