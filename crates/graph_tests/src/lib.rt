//! Tests of execution graphs: tables of graphs, and whether each is founded, and well-formed; and
//! of the passes over Pdos whose functions have several outputs, in graphs that `drawn` puts
//! together: sinking by itself, and all that comes before plans are formed.
#![tactic(auto)]

#[cfg(test)]
mod drawn;
#[cfg(test)]
mod formed;
#[cfg(test)]
mod founded;
#[cfg(test)]
mod nodes;
#[cfg(test)]
mod objects;
#[cfg(test)]
mod pairs;
#[cfg(test)]
mod refining;
#[cfg(test)]
mod seen;
#[cfg(test)]
mod sinking;
