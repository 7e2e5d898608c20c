//! Tests of sessions: of the recorder, its inputs and its store, and of sessions that a program drives, where a script of the program cannot
//! test them; of the layer over a live session, and of how it looks on a terminal.
#![tactic(auto)]

#[cfg(test)]
mod batches;
#[cfg(test)]
mod checks;
#[cfg(test)]
mod copying;
#[cfg(test)]
mod frames;
#[cfg(test)]
mod given;
#[cfg(test)]
mod layer;
#[cfg(test)]
mod live;
#[cfg(test)]
mod look;
#[cfg(test)]
mod own_input;
#[cfg(test)]
mod scripts;
#[cfg(test)]
mod sessions;
#[cfg(test)]
mod shots;
