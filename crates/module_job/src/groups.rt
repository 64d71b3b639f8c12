//! Jobs of the same shape.
ghost use Rattle.std.specs.Prelude.{◌≡◌, ◌≢◌, ◌<◌, ◌↔◌, ℕ, length, map, if◌then◌else◌, slice_get, unwrap_or, Some, IfOk, IsTrue};
ghost use Rattle.std.specs.Arc.{arc_value};
ghost use Rattle.indexmap.specs.IndexMap.{get};
ghost use Rattle.module_job.specs.Groups.{AreGroups, AreKeys, IsFirstEqualElement};
ghost use Rattle.module_job.specs.Shapes.{shape_of};

use crate::job::Job;
use crate::shape::Shape;
use indexmap::IndexMap;
use std::alloc::{AllocError, Global};
use std::hash::Hash;
use std::sync::Arc;

// The number that the map has for the key. Where it has none, this one from now on.
fn find_or_add_first_number<K: Copy + Eq + Hash>(
    firsts: &mut IndexMap<K, usize>,
    key: K,
    number: usize,
) -> Result<usize, AllocError>
    ensures first { IfOk result (λ first. first ≡ unwrap_or (get K.eq firsts.old key) number) }
    ensures first_is_added { IfOk result (λ first. (other : K) →
        get K.eq firsts.new other
        ≡ (if K.eq key other then Some first else get K.eq firsts.old other)) }
{
    if let Some(first) = firsts.get(&key) {
        return Ok(*first);
    }
    match firsts.insert(key, number) {
        Ok(_) => Ok(number),
        Err(_) => Err(AllocError),
    }
}

// For each key the number of the first key that equals it.
fn first_numbers_of_keys(alloc: Global, keys: &[[u8; 32]]) -> Result<Vec<usize>, AllocError>
    ensures { IfOk result (λ groups. AreGroups keys.now groups.items) }
{
    let mut firsts = IndexMap::new(alloc);
    let mut groups = Vec::with_capacity(alloc, keys.len())?;
    for (number, key) in keys.iter().enumerate() {
        let first = find_or_add_first_number(&mut firsts, *key, number)?;
        groups.push(first)?;
    }
    Ok(groups)
}

// The number of the first shape that equals shape `number`, where `first` is the number of the first shape with its
// key. If different shapes have different keys, the result is `first`.
fn first_equal_shape_number(
    shapes: &[Arc<Shape>],
    keys: &[[u8; 32]],
    number: usize,
    first: usize,
) -> usize
    requires keys { AreKeys (map arc_value shapes.now) keys.now }
    requires number { number < length shapes.now }
    requires first { IsFirstEqualElement keys.now number first }
    ensures { IsFirstEqualElement (map arc_value shapes.now) number result }
{
    let own: &Shape = &shapes[number];
    for earlier in first..number {
        if keys[earlier] == keys[number] {
            let other: &Shape = &shapes[earlier];
            let same = *other == *own;
            if same {
                return earlier;
            }
        }
    }
    number
}

/// Returns for each shape the number of the first shape that equals it.
///
/// Shapes that are the same must have the same key. Two shapes with one key may still differ.
///
/// It compares a shape with one earlier shape, the first with its key, and with all after it that have this key if the
/// two differ. With the keys of [`Shape::key`] that would be a collision of SHA-256. At worst, whatever the keys, it
/// compares each pair of shapes once.
pub fn shape_groups(
    alloc: Global,
    shapes: &[Arc<Shape>],
    keys: &[[u8; 32]],
) -> Result<Vec<usize>, AllocError>
    requires { AreKeys (map arc_value shapes.now) keys.now }
    ensures { IfOk result (λ groups. AreGroups (map arc_value shapes.now) groups.items) }
{
    let firsts = first_numbers_of_keys(alloc, keys)?;
    let mut groups = Vec::with_capacity(alloc, shapes.len())?;
    for number in 0..shapes.len() {
        groups.push(first_equal_shape_number(shapes, keys, number, firsts[number]))?;
    }
    Ok(groups)
}

// Whether two jobs have the same shape.
fn have_same_shape(jobs: &[Arc<Job>], one: usize, other: usize) -> bool
    requires one_below_count { one < length jobs.now }
    requires other_below_count { other < length jobs.now }
    ensures { IsTrue result ↔ (slice_get (map shape_of (map arc_value jobs.now)) one
        ≡ slice_get (map shape_of (map arc_value jobs.now)) other) }
{
    if one == other {
        return true;
    }
    let left: &Shape = jobs[one].shape();
    let right: &Shape = jobs[other].shape();
    *left == *right
}

// The number of the first job that has the shape of this one. None before `first` has it.
fn first_job_of_same_shape(jobs: &[Arc<Job>], first: usize, number: usize) -> usize
    requires number { number < length jobs.now }
    requires none_before { (i : ℕ) → i < first →
        slice_get (map shape_of (map arc_value jobs.now)) i
        ≢ slice_get (map shape_of (map arc_value jobs.now)) number }
    ensures { IsFirstEqualElement (map shape_of (map arc_value jobs.now)) number result }
{
    for earlier in first..number {
        if have_same_shape(jobs, earlier, number) {
            return earlier;
        }
    }
    number
}

/// Returns for each job the number of the first that has the same shape.
///
/// It compares a shape with the first one that has its summary. Only if the two differ, it makes the key of the shape.
/// It then compares the shape with the first one that has this key and that differs from the first of its summary too.
/// It compares more only if these two differ, which would be a collision of SHA-256.
pub fn job_groups(alloc: Global, jobs: &[Arc<Job>]) -> Result<Vec<usize>, AllocError>
    ensures { IfOk result (λ groups. AreGroups (map shape_of (map arc_value jobs.now))
        groups.items) }
{
    let mut summaries = IndexMap::new(alloc);
    let mut keys = IndexMap::new(alloc);
    let mut groups = Vec::with_capacity(alloc, jobs.len())?;
    for number in 0..jobs.len() {
        let shape: &Shape = jobs[number].shape();
        let mut group = find_or_add_first_number(&mut summaries, shape.summary(), number)?;
        if !have_same_shape(jobs, group, number) {
            let first = find_or_add_first_number(&mut keys, shape.key(alloc)?, number)?;
            group = first_job_of_same_shape(jobs, first, number);
        }
        groups.push(group)?;
    }
    Ok(groups)
}
