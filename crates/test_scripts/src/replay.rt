//! Tests of whole runs that need more than a script and its output: readers and writers that fail, refused memory, long
//! scripts, and workers in threads. Scripts with their whole output are data in `examples/worked`, which
//! `scripts/program-checks examples` runs.
mod ends;
mod gates;
mod hands;
mod refused;
mod sizes;
mod threads;
mod worked;
mod workers;
