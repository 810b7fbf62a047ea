// The tables, and the values that their rows stand for.
mod bytes;
mod ints;
mod keys;
mod readings;
mod samples;
mod texts;
mod threads;
mod types;
mod values;
