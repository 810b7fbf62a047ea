// The tables of cases, and what they share.
mod bags;
mod members;
mod parts;
mod ranges;
mod tables;
