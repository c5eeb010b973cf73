//! Calls of the running ring, on one thread and on three.

mod batches;
mod loops;
mod rows;
mod threads;
