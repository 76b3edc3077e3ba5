//! Tests of shortening. The lists that are expected come from a program that keeps a list as its
//! blocks, and makes each trial as a new one; the first rows were worked out by hand too.

mod rows;
