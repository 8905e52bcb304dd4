// Tests of the reader: damaged events, what an accepted event answers, and stored runs.
#![tactic(auto)]

#[cfg(test)]
mod answers;
#[cfg(test)]
mod damages;
#[cfg(test)]
mod events;
#[cfg(test)]
mod runs;
