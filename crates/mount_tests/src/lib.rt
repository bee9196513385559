//! Tests of the mount over a store in memory: how it begins, that it goes on after each fault of the store, what a stop
//! leaves, that another mount goes on after it, and what each call on holds, flattenings and dead writers answers. They
//! stand apart, so that the mount is not proved twice for them.
//!
//! A test is a text of rows, or a table of cases. A row says who makes which call, and what it is answered. A case says
//! what comes of it, most often how a call goes wrong: what is answered where the store fails in its act or it is broken
//! off, what is seen then, and what the same call is answered after that. One function each plays rows and cases, and puts
//! what comes otherwise into one line, which has to be empty in the end.
#![tactic(auto)]

#[cfg(test)]
mod calls;
#[cfg(test)]
mod containers;
#[cfg(test)]
mod faults;
#[cfg(test)]
mod flattening;
#[cfg(test)]
mod holding;
#[cfg(test)]
mod lives;
#[cfg(test)]
mod losses;
#[cfg(test)]
mod mounting;
#[cfg(test)]
mod playing;
#[cfg(test)]
mod recovering;
#[cfg(test)]
mod resuming;
#[cfg(test)]
mod spelling;
#[cfg(test)]
mod stopping;
#[cfg(test)]
mod tables;
#[cfg(test)]
mod trials;
