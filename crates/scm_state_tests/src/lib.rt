//! Tests of the state: its marks, splits, limits, JSON and memory, keys, errors, lists and texts; of states that a program makes by
//! additions; of files from two versions and merges; of the kept layout, key lists and sets, moves, toggles and counts; and of inputs and
//! the store of screens.
#![tactic(auto)]

#[cfg(test)]
mod additions;
#[cfg(test)]
mod blanks;
#[cfg(test)]
mod bytes;
#[cfg(test)]
mod checks;
#[cfg(test)]
mod diff_memory;
#[cfg(test)]
mod diff_table;
#[cfg(test)]
mod forms;
#[cfg(test)]
mod keys;
#[cfg(test)]
mod layout_memory;
#[cfg(test)]
mod layouts;
#[cfg(test)]
mod markers;
#[cfg(test)]
mod merge_memory;
#[cfg(test)]
mod merge_table;
#[cfg(test)]
mod pairs;
#[cfg(test)]
mod parts;
#[cfg(test)]
mod refused;
#[cfg(test)]
mod refused_keys;
#[cfg(test)]
mod refused_splits;
#[cfg(test)]
mod samples;
#[cfg(test)]
mod section_rows;
#[cfg(test)]
mod selection;
#[cfg(test)]
mod sides;
#[cfg(test)]
mod state_memory;
#[cfg(test)]
mod types;
