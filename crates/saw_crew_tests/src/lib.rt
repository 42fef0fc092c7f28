//! Tests of workers: stations that answer only while others run, or once another was answered; and of their job queues.
#![tactic(auto)]

#[cfg(test)]
mod apart;
#[cfg(test)]
mod builtin;
#[cfg(test)]
mod copies;
#[cfg(test)]
mod lanes;
#[cfg(test)]
mod laws;
#[cfg(test)]
mod meeting;
#[cfg(test)]
mod meets;
#[cfg(test)]
mod reruns;
#[cfg(test)]
mod seats;
#[cfg(test)]
mod waits;
