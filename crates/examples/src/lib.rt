// The worked examples of docs/, run.
#![tactic(auto)]

#[cfg(test)]
mod bench;
#[cfg(test)]
mod checks;
#[cfg(test)]
mod plans;
#[cfg(test)]
mod strikes;
