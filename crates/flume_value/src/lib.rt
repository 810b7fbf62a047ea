//! Values, their order, and bags of them: what every crate above speaks of.
//!
//! A `Value` is a plain tree. Its lists and boxes are `Pile` and `Held`, which contracts see
//! as a list and as the value itself, so that `≡` means equal content and a copy equals its
//! source. Values have one total order, by variant and then by content (`order_law`).
//!
//! A text of up to 22 bytes stands in place, as most do: making it, copying it and letting it go
//! take no memory, and a value is no larger for it. Texts are compared by their bytes as numbers of
//! 64 bits; a longer text keeps its first eight beside its allocation, so that an order is mostly
//! told without a look there. Sorting, which most time of a run goes to, is several times as fast
//! so. Contracts see none of this: a text is the list of its bytes.
//!
//! A bag is seen as the ascending list of its members, `bag_of`. So two bags are equal where
//! these lists are, whatever the order in which their members came (`bag_law`), bags add up
//! (`bag_sum_law`), and what a function gives for each member is a bag again (`bag_image_law`).
//!
//! A value is written as its canonical bytes, which tell it from all others (`canonical_law`).
//! Work is shared out by key: `partition` is a hash of a key's canonical bytes.
#![tactic(auto)]

mod bag;
mod bytes;
mod copies;
mod fault;
mod hashing;
mod held;
mod long;
mod numbers;
mod order;
mod pile;
mod sharing;
mod short;
mod text;
mod value;

pub use bag::{ascending, bag_image_law, bag_law, bag_sum_law, sorted};
pub use bytes::{canonical_bytes, canonical_law};
pub use copies::{copy, copy_all};
pub use fault::{CallFault, Kind};
pub use hashing::partition;
pub use held::Held;
pub use order::{compare, equals, order_law};
pub use pile::Pile;
pub use sharing::sorted_by_threads;
pub use text::Str;
pub use value::{Items, Value};
