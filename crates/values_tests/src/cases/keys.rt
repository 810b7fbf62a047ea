// Values of each variant as the keys of a map, which finds each of them again.
use super::samples::of_each_variant;
use flume_value::{Value, copy};
use indexmap::IndexMap;
use std::alloc::{AllocError, Global};
use std::test::Fail;

/// A map from each key to its place.
fn places_of(alloc: Global, keys: &[Value]) -> Result<IndexMap<Value, usize>, AllocError> {
    let mut places = IndexMap::new(alloc);
    for place in 0..keys.len() {
        put(alloc, &keys[place], place, &mut places)?;
    }
    Ok(places)
}

/// Puts a copy of the key into the map, and tells what was there.
fn put(
    alloc: Global,
    key: &Value,
    place: usize,
    places: &mut IndexMap<Value, usize>,
) -> Result<Option<usize>, AllocError> {
    Ok(places.insert(copy(alloc, key)?, place)?)
}

/// Whether the map finds the key at this place, and takes it there again.
fn has(
    alloc: Global,
    key: &Value,
    place: usize,
    places: &mut IndexMap<Value, usize>,
) -> Result<bool, AllocError> {
    Ok(places.get(key).copied() == Some(place) && put(alloc, key, place, places)? == Some(place))
}

fn has_each(
    alloc: Global,
    keys: &[Value],
    places: &mut IndexMap<Value, usize>,
) -> Result<bool, AllocError> {
    for place in 0..keys.len() {
        if !has(alloc, &keys[place], place, places)? {
            return Ok(false);
        }
    }
    Ok(true)
}

/// Whether the map has eight keys, and not this one.
fn lacks(places: &IndexMap<Value, usize>, key: &Value) -> bool {
    places.len() == 8 && places.get(key).is_none()
}

fn finds(
    alloc: Global,
    keys: &[Value],
    places: &mut IndexMap<Value, usize>,
) -> Result<bool, AllocError> {
    Ok(has_each(alloc, keys, places)? && lacks(places, &Value::Wide(-2)))
}

/// Whether a map of these keys finds each of them, and nothing else.
fn finds_each(alloc: Global, keys: &[Value]) -> Result<bool, AllocError> {
    let mut places = places_of(alloc, keys)?;
    finds(alloc, keys, &mut places)
}

fn finds_each_variant(alloc: Global) -> Result<bool, AllocError> {
    let keys = of_each_variant(alloc)?;
    finds_each(alloc, &keys)
}

#[test]
fn a_map_finds_values_of_each_variant(rt: HostRuntime) -> Result<(), Fail> {
    assert!(rt; finds_each_variant(rt.alloc())?);
    Ok(())
}
