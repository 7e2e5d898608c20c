//! Tests of the layer over a live session.
mod calls;
mod spans;
mod states;
