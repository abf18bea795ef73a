//! Each kind of store meets the worked examples, and answers as the plain list does.
use crate::comparison::{check_beside_a_list, check_chains};
use crate::merging::{check_merges, takes_its_copy};
use crate::places::{check_places, has_elements};
use crate::stores::{check_answers, check_limits, check_siblings, check_texts, tells_small_tree};
use crate::whole_lists::check_lists;
use rga_flat::FlatStore;
use rga_store::TextStore;
use rga_tree::TreeStore;
use std::alloc::Global;
use std::process::Abort;

fn check<S: TextStore, R: Abort>(rt: &R, alloc: Global) {
    check_texts::<S, R>(rt, alloc);
    check_answers::<S, R>(rt, alloc);
    assert!(rt; tells_small_tree::<S>(alloc) == Ok(true));
    check_limits::<S, R>(rt, alloc);
    check_siblings::<S, R>(rt, alloc);
    assert!(rt; has_elements::<S>(alloc) == Ok(true));
    check_places::<S, R>(rt, alloc);
    check_lists::<S, R>(rt, alloc);
    check_merges::<S, R>(rt, alloc);
    assert!(rt; takes_its_copy::<S>(alloc) == Ok(true));
    check_beside_a_list::<S, R>(rt, alloc);
    check_chains::<S, R>(rt, alloc);
}

#[test]
fn a_tree_store_meets_the_examples(rt: HostRuntime) {
    check::<TreeStore, _>(&rt, rt.alloc());
}

#[test]
fn a_flat_store_meets_the_examples(rt: HostRuntime) {
    check::<FlatStore, _>(&rt, rt.alloc());
}
