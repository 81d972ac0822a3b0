//! Tests of texts, models, run files, links, proof graphs, sources and sinks; nothing else.
#![tactic(auto)]

#[cfg(test)]
mod back_links_tests;
#[cfg(test)]
mod check_answers_tests;
#[cfg(test)]
mod cyc_io_tests;
#[cfg(test)]
mod fo_file_written_tests;
#[cfg(test)]
mod fo_moves_tests;
#[cfg(test)]
mod given;
#[cfg(test)]
mod long_list_tests;
#[cfg(test)]
mod model_file_tests;
#[cfg(test)]
mod node_reasons_tests;
#[cfg(test)]
mod proof_graph_tests;
#[cfg(test)]
mod run_file_tests;
#[cfg(test)]
mod script_problems_tests;
#[cfg(test)]
mod script_reader_tests;
#[cfg(test)]
mod texts;
