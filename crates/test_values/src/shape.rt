//! Tests of shapes: their limits, the layouts that they fit, the size of a shape with room for values, the classes of
//! slots, and the places of words.
mod classes;
mod limits;
mod places;
mod rooms;
