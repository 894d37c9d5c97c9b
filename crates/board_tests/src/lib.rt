//! Worked rows of the board and of the collector, on sessions that are read from their text.
#![tactic(auto)]

#[cfg(test)]
mod board_rows;
#[cfg(test)]
mod calls;
#[cfg(test)]
mod collector_rows;
#[cfg(test)]
mod desk_rows;
#[cfg(test)]
mod outcomes;
#[cfg(test)]
mod pass_rows;
#[cfg(test)]
mod running;
#[cfg(test)]
mod shelf_rows;
#[cfg(test)]
mod turn_rows;
#[cfg(test)]
mod watch_rows;
#[cfg(test)]
mod worker_rows;
