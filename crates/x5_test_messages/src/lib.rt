//! Tests of messages as octets through their public calls: requests, answers, messages between agents and of shadowing, written down by
//! hand as hexadecimal digits. Nothing stands on it.
#![tactic(auto)]

#[cfg(test)]
mod chained;
#[cfg(test)]
mod messages;
#[cfg(test)]
mod replies;
#[cfg(test)]
mod shadows;
#[cfg(test)]
mod spelled;
