//! Whole runs: the top call over bytes in memory.
#![tactic(auto)]

#[cfg(test)]
mod cut_rows;
#[cfg(test)]
mod failing_rows;
#[cfg(test)]
mod gate_rows;
#[cfg(test)]
mod large_rows;
#[cfg(test)]
mod parts_rows;
#[cfg(test)]
mod running;
#[cfg(test)]
mod top_rows;
