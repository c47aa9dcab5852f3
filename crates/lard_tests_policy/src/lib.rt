//! Tests of the leaves of policy and stores: loads, server sets, the choices of LARD, the dispatcher, caches and disks; of the lab of
//! policies; and of the audit of a report.
//!
//! Each file has the tests of the crate of its name, and `given` what some of them begin with. They stand apart so that no crate is
//! proved a second time for its tests.
#![tactic(auto)]

#[cfg(test)]
mod audit;
#[cfg(test)]
mod cache;
#[cfg(test)]
mod costs;
#[cfg(test)]
mod disk;
#[cfg(test)]
mod dispatch;
#[cfg(test)]
mod given;
#[cfg(test)]
mod lab;
#[cfg(test)]
mod loads;
#[cfg(test)]
mod policy;
#[cfg(test)]
mod sets;
