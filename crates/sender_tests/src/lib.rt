//! Tests of connections that threads serve, and of the closing comparison, by the public calls of `senders`.
#![tactic(auto)]

#[cfg(test)]
mod acting;
#[cfg(test)]
mod batches;
#[cfg(test)]
mod board;
#[cfg(test)]
mod cases;
#[cfg(test)]
mod checks;
#[cfg(test)]
mod clients;
#[cfg(test)]
mod closing;
#[cfg(test)]
mod devices;
#[cfg(test)]
mod faults;
#[cfg(test)]
mod gates;
#[cfg(test)]
mod memory;
#[cfg(test)]
mod phrases;
#[cfg(test)]
mod prompted;
#[cfg(test)]
mod rounds;
#[cfg(test)]
mod running;
#[cfg(test)]
mod scenarios;
#[cfg(test)]
mod sessions;
#[cfg(test)]
mod sharding;
#[cfg(test)]
mod sizes;
#[cfg(test)]
mod sockets;
#[cfg(test)]
mod talks;
#[cfg(test)]
mod work;
