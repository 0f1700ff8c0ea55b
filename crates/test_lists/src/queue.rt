//! Tests of the queues of an owner's pages: how pages are filed and move, and refused memory.
mod filing;
mod moving;
