//! The tests of the crates from `bbm_rule` to `report`, of what no command shows. They have their own crate, since a
//! crate with tests is proved twice.
#![tactic(auto)]

#[cfg(test)]
mod blocks;
#[cfg(test)]
mod books;
#[cfg(test)]
mod boxes;
#[cfg(test)]
mod circuits;
#[cfg(test)]
mod cores;
#[cfg(test)]
mod faults;
#[cfg(test)]
mod fillings;
#[cfg(test)]
mod grids;
#[cfg(test)]
mod jobs;
#[cfg(test)]
mod layouts;
#[cfg(test)]
mod locals;
#[cfg(test)]
mod printed;
#[cfg(test)]
mod reports;
#[cfg(test)]
mod schedules;
#[cfg(test)]
mod texts;
#[cfg(test)]
mod tilings;
#[cfg(test)]
mod verdicts;
