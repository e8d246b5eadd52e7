//! Tests of what workers share: rights of seats on a board, words that are put in and found, and runs whose workers a
//! gate holds at their claims. Each expected value comes from the specification; what a run reports while a gate holds
//! its workers is compared with what a lone worker reports.
#![tactic(auto)]

#[cfg(test)]
mod fan;
#[cfg(test)]
mod gates;
#[cfg(test)]
mod schedules;
#[cfg(test)]
mod seats;
#[cfg(test)]
mod start;
