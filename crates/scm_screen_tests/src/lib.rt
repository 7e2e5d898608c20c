//! Tests of the screen: of rectangles, masks, texts and the grid, of drawing by sample components, of the views and their indexes, of rows
//! painted in an area and the documents and pages that they make, and of the bytes that a terminal sends and receives.
#![tactic(auto)]

#[cfg(test)]
mod alone;
#[cfg(test)]
mod apps;
#[cfg(test)]
mod beginnings;
#[cfg(test)]
mod cell_memory;
#[cfg(test)]
mod cells;
#[cfg(test)]
mod checks;
#[cfg(test)]
mod documents;
#[cfg(test)]
mod index;
#[cfg(test)]
mod memory;
#[cfg(test)]
mod over_letters;
#[cfg(test)]
mod owners;
#[cfg(test)]
mod pages;
#[cfg(test)]
mod painted;
#[cfg(test)]
mod paints;
#[cfg(test)]
mod pieces;
#[cfg(test)]
mod render;
#[cfg(test)]
mod row_samples;
#[cfg(test)]
mod rows;
pub mod samples;
#[cfg(test)]
mod shown;
#[cfg(test)]
mod states;
pub mod tags;
#[cfg(test)]
mod terminals;
#[cfg(test)]
mod views;
