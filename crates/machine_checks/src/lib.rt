// Examples of a machine on small cases, each proved safe and then run.
#![tactic(auto)]

#[cfg(test)]
mod calls;
#[cfg(test)]
mod firmware;
#[cfg(test)]
mod instructions;
#[cfg(test)]
mod watchdog;
