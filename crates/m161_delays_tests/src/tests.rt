//! Tests of searches. What is expected was counted by hand: at place 0 one delay has an effect, at place
//! 1 two, at place 2 none, at place 3 one. So there are 1, 3, 4, 3 and 1 useful lists of 0 to 4 numbers.

mod classes;
mod jobs;
mod slices;
mod trials;
