//! Definitions and lemmas that are not about rasters or networks: sums of whole numbers below a bound, tests, order and
//! lists. There is no code here.
#![tactic(auto)]
