//! Tests of traces: the lines of small kernels, and of the kernel that moves a page.
#![tactic(auto)]

#[cfg(test)]
mod tests;
