//! Maps whose copies share. A map is lent to what changes it: a function that owns a map is proved to drop it
//! at each of its ends.
use crate::comparing::{ensure, same};
use shared_map::SharedMap;
use std::alloc::{AllocError, Global};
use std::process::Abort;

type Numbers = SharedMap<String, u32>;

fn put(rt: &impl Abort, alloc: Global, map: &mut Numbers, name: &str, value: u32) {
    let name = String::from_str(alloc, name).expect(rt, "memory");
    map.put(name, value).expect(rt, "memory");
}

const PUTS: &[(&str, u32)] = &[("b", 1), ("a", 2), ("c", 3), ("a", 4)];

fn change(rt: &impl Abort, alloc: Global, map: &mut Numbers) {
    map.remove("a").expect(rt, "memory");
    map.remove("x").expect(rt, "memory");
    put(rt, alloc, map, "c", 5);
}

/// Names, what a copy from before the changes has of them, and what the map has then.
const CHANGED: &[(&str, Option<u32>, Option<u32>)] = &[
    ("a", Some(4), None),
    ("b", Some(1), Some(1)),
    ("c", Some(3), Some(5)),
    ("x", None, None),
];

fn is_at(map: &Numbers, name: &str, value: Option<u32>) -> bool {
    map.get(name).copied() == value && map.contains(name) == value.is_some()
}

fn has(rt: &impl Abort, map: &Numbers, name: &str, value: Option<u32>) {
    ensure(rt, is_at(map, name, value), name);
}

fn check_changed(rt: &impl Abort, kept: &Numbers, map: &Numbers) {
    for &(name, before, now) in CHANGED {
        has(rt, kept, name, before);
        has(rt, map, name, now);
    }
}

fn check_copy(rt: &impl Abort, alloc: Global, map: &mut Numbers) {
    let kept = map.copy().expect(rt, "memory");
    change(rt, alloc, map);
    check_changed(rt, &kept, map);
}

#[test]
fn copies_change_by_themselves(rt: HostRuntime) {
    let mut map: Numbers = SharedMap::new(rt.alloc());
    for &(name, value) in PUTS {
        put(&rt, rt.alloc(), &mut map, name, value);
    }
    check_copy(&rt, rt.alloc(), &mut map);
}

fn name_of(alloc: Global, n: u32) -> Result<String, AllocError> {
    format!(in alloc; "{n:04}")
}

fn name(rt: &impl Abort, alloc: Global, n: u32) -> String {
    name_of(alloc, n).expect(rt, "memory")
}

fn fill_in_order(rt: &impl Abort, alloc: Global, map: &mut Numbers, end: u32) {
    for n in 0..end {
        map.put(name(rt, alloc, n), n).expect(rt, "memory");
    }
}

fn remove_in_order(rt: &impl Abort, alloc: Global, map: &mut Numbers, end: u32) {
    for n in 0..end {
        let gone = name(rt, alloc, n);
        map.remove(gone.as_str()).expect(rt, "memory");
    }
}

fn check_heights(rt: &impl Abort, alloc: Global, map: &mut Numbers) {
    fill_in_order(rt, alloc, map, 4096);
    same(rt, map.height(), 13);
    remove_in_order(rt, alloc, map, 4000);
    ensure(rt, map.height() <= 9, map.height());
    has(rt, map, "4000", Some(4000));
    has(rt, map, "3999", None);
}

// Adds names in order, then removes most of them: the tree stays low.
#[test]
fn trees_stay_low(rt: HostRuntime) {
    check_heights(&rt, rt.alloc(), &mut SharedMap::new(rt.alloc()));
}
