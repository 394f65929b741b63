//! Tests of networks of plans: three plans that agree, and what is found where one of them is
//! changed (docs/NETWORK.md).
#![tactic(auto)]

#[cfg(test)]
mod files;
#[cfg(test)]
mod networks;
