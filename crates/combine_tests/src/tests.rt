// The tables of cases, and what they share.
mod combining;
mod pairs;
mod steps;
mod tables;
mod wanted;
