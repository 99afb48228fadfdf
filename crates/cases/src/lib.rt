//! Records and graphs by example.
#![tactic(auto)]

#[cfg(test)]
mod graphs;
#[cfg(test)]
mod records;
#[cfg(test)]
mod tests;
