// The tables, and what is looked at in what comes of their texts.
mod bodies;
mod cuts;
mod expressions;
mod faults;
mod limits;
mod made;
mod operations;
mod outcome;
mod parts;
mod repeats;
mod scripts;
mod statements;
