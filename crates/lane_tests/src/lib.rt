//! Tests of the lanes: a leader's lane with the toy function over disks in memory, its causes one by one, and its stops
//! at each call of its disk.
#![tactic(auto)]

#[cfg(test)]
mod tests;
