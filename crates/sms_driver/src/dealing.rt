//! Deals a list out in turn, and puts the results back into the order of the list.

ghost use Rattle.std.specs.Prelude.{◌≡◌, [], ◌∷◌, ◌++◌, ℕ, ◌+◌, ◌<◌, ◌≤◌, List, length, map, vec_len, vec_capacity, IfOk, OnOk};
ghost use Rattle.sms_driver.specs.Deals.{cons_at, dealt, next, onto};

use std::alloc::{AllocError, Global};
use std::collections::VecDeque;

fn next_place(place: usize, count: usize) -> usize
    requires { place < count }
    ensures next { result ≡ next count place }
    ensures below { result < count }
{
    if place + 1 == count { 0 } else { place + 1 }
}

// `count` empty batches, with room for `each` items each.
fn empty_batches<T: Drop>(
    alloc: Global,
    count: usize,
    each: usize,
) -> Result<Vec<Vec<T>>, AllocError>
    ensures empty { IfOk result (λ v. map (λ l. l.items) v.items ≡ dealt count 0 []) }
    ensures length { IfOk result (λ v. length v.items ≡ count) }
{
    let mut batches = Vec::with_capacity(alloc, count)?;
    for _i in 0..count {
        let batch = Vec::with_capacity(alloc, each)?;
        batches.push_reserved(batch);
    }
    Ok(batches)
}

fn give<T: Drop>(batches: &mut Vec<Vec<T>>, place: usize, item: T) -> Result<(), AllocError>
    requires { place < length batches.old.items }
    ensures len { length batches.new.items ≡ length batches.old.items }
    ensures given { (ds : List (List T)) → length ds ≡ length batches.old.items → OnOk result (onto (map (λ l. l.items) batches.new.items) ds ≡ onto (map (λ l. l.items) batches.old.items) (cons_at ds place item)) }
{
    let batch = &mut batches[place];
    batch.push(item)?;
    Ok(())
}

// With a single worker the batch is the whole list.
fn one_batch<T: Drop>(alloc: Global, items: Vec<T>) -> Result<Vec<Vec<T>>, AllocError>
    ensures dealt { IfOk result (λ v. map (λ l. l.items) v.items ≡ dealt 1 0 items.items) }
    ensures length { IfOk result (λ v. length v.items ≡ 1) }
{
    let mut batches = Vec::with_capacity(alloc, 1)?;
    batches.push_reserved(items);
    Ok(batches)
}

/// Deals the items out to `count` batches in turn. A single batch is the list as it is.
pub fn deal<T: Drop>(alloc: Global, items: Vec<T>, count: usize) -> Result<Vec<Vec<T>>, AllocError>
    requires { 0 < count }
    ensures dealt { IfOk result (λ v. map (λ l. l.items) v.items ≡ dealt count 0 items.items) }
    ensures length { IfOk result (λ v. length v.items ≡ count) }
{
    if count == 1 {
        return one_batch(alloc, items);
    }
    let each = items.len().div_ceil(count);
    let mut batches = empty_batches(alloc, count, each)?;
    let mut place = 0;
    for item in items {
        give(&mut batches, place, item)?;
        place = next_place(place, count);
    }
    Ok(batches)
}

// Takes the first item of the part at this place, which was dealt there.
fn take_next<T>(parts: &mut Vec<VecDeque<T>>, place: usize) -> T
    requires exists { place < length parts.old.items }
    requires dealt { (ls : List (List T)) × (x : T) × (map (λ p. p.items) parts.old.items ≡ cons_at ls place x) }
    ensures len { length parts.new.items ≡ length parts.old.items }
    ensures taken { (ls : List (List T)) (x : T) → map (λ p. p.items) parts.old.items ≡ cons_at ls place x → (result ≡ x) × (map (λ p. p.items) parts.new.items ≡ ls) }
{
    let part = &mut parts[place];
    let Some(end) = part.pop_front() else {
        unreachable!()
    };
    end
}

// Moves the first item of the part at this place, which was dealt there, to the end of `out`.
fn take_over<T: Drop>(parts: &mut Vec<VecDeque<T>>, place: usize, out: &mut Vec<T>)
    requires exists { place < length parts.old.items }
    requires dealt { (ls : List (List T)) × (x : T) × (map (λ p. p.items) parts.old.items ≡ cons_at ls place x) }
    requires room { vec_len out.old < vec_capacity out.old }
    ensures len { length parts.new.items ≡ length parts.old.items }
    ensures room { (vec_len out.new ≡ vec_len out.old + 1) × (vec_capacity out.new ≡ vec_capacity out.old) }
    ensures taken { (ls : List (List T)) (x : T) → map (λ p. p.items) parts.old.items ≡ cons_at ls place x → (out.new.items ≡ out.old.items ++ x ∷ []) × (map (λ p. p.items) parts.new.items ≡ ls) }
{
    let end = take_next(parts, place);
    out.push_reserved(end);
}

// The only part, which is in the order in which it was dealt out.
fn only_part<T: Drop>(parts: Vec<VecDeque<T>>) -> Vec<T>
    requires one { length parts.items ≡ 1 }
    ensures { (es : List T) → map (λ p. p.items) parts.items ≡ dealt 1 0 es → result.items ≡ es }
{
    let mut parts = parts;
    let Some(part) = parts.pop() else {
        unreachable!()
    };
    Vec::from(part)
}

/// Merges the parts in the order in which they were dealt out, into the buffer that was made for them. A single
/// part is returned as it is.
pub fn merged<T: Drop>(parts: Vec<VecDeque<T>>, count: usize, out: Vec<T>) -> Vec<T>
    requires some { 0 < length parts.items }
    requires room { (out.items ≡ []) × (count ≤ vec_capacity out) }
    requires dealt { (es : List T) × (length es ≡ count) × (map (λ p. p.items) parts.items ≡ dealt (length parts.items) 0 es) }
    ensures { (es : List T) → length es ≡ count → map (λ p. p.items) parts.items ≡ dealt (length parts.items) 0 es → result.items ≡ es }
{
    if parts.len() == 1 {
        return only_part(parts);
    }
    let mut parts = parts;
    let mut out = out;
    let mut place = 0;
    for _i in 0..count {
        take_over(&mut parts, place, &mut out);
        place = next_place(place, parts.len());
    }
    out
}
