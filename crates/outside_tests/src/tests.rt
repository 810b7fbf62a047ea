// The tables of cases, and what they share.
mod adapters;
mod caches;
mod calls;
mod printed;
mod transfers;
mod unflushed;
