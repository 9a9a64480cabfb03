//! The greatest set in which each item has all that it needs, found by removal. The items are the places of a function's locals,
//! and the set that of the clean ones.
ghost use Rattle.std.specs.Prelude.{◌≡◌, ◌<◌, ◌↔◌, ℕ, [], false, map, is_some, All, Contains, IfOk, OnOk, IsTrue, length, slice_index_or};
ghost use Rattle.ms_elide.specs.{SelfSupport.{Needs, StaysWithin, IsInGreatest}, Removal.{IsRemoved}};

use crate::users::Users;
use ms_bits::{List, NoMemory};
use std::alloc::Global;

/// For each item, whether it is in the greatest set whose members support each other. An entry has the items that are members
/// wherever its own is one, and an item without an entry is no member. The time is linear in what the entries have.
pub fn greatest(alloc: Global, needs: &[Option<List<usize>>]) -> Result<List<bool>, NoMemory>
    requires { StaysWithin needs.now }
    ensures len { IfOk result (λ members. length members ≡ length needs.now) }
    ensures exact { IfOk result (λ members. (item : ℕ) → IsTrue (slice_index_or members item false) ↔ IsInGreatest needs.now item) }
{
    let users = Users::of(alloc, needs)?;
    settle(alloc, needs, &users)
}

/// Removes what can't be a member, and all that needs it, until each member has what it needs. `users` are those of `needs`.
fn settle(
    alloc: Global,
    needs: &[Option<List<usize>>],
    users: &Users,
) -> Result<List<bool>, NoMemory>
    requires within { StaysWithin needs.now }
    requires len { length users.now ≡ length needs.now }
    requires users { (item user : ℕ) → Contains (slice_index_or users.now item []) user ↔ Needs needs.now user item }
    ensures len { IfOk result (λ members. length members ≡ length needs.now) }
    ensures exact { IfOk result (λ members. (item : ℕ) → IsTrue (slice_index_or members item false) ↔ IsInGreatest needs.now item) }
{
    let mut members = able(alloc, needs)?;
    let mut removed = barred(alloc, &members)?;
    while let Some(item) = removed.pop() {
        remove(users.at(item), &mut members, &mut removed)?;
    }
    Ok(List::from_vec(members))
}

/// For each item, whether it may be a member: it has an entry.
fn able(alloc: Global, needs: &[Option<List<usize>>]) -> Result<Vec<bool>, NoMemory>
    ensures { IfOk result (λ able. able.items ≡ map is_some needs.now) }
{
    needs.iter().map(|entry| entry.is_some()).collect(alloc)
}

/// The items that aren't able to be members.
fn barred(alloc: Global, able: &[bool]) -> Result<Vec<usize>, NoMemory>
    ensures { IfOk result (λ barred. (item : ℕ) → Contains barred.items item ↔ ((item < length able.now) × (slice_index_or able.now item false ≡ false))) }
{
    let mut barred = Vec::new(alloc);
    for (item, able) in able.iter().enumerate() {
        if !*able {
            barred.push(item)?;
        }
    }
    Ok(barred)
}

/// Removes items from `members`, and notes in `removed` those that were still members.
fn remove(items: &[usize], members: &mut [bool], removed: &mut Vec<usize>) -> Result<(), NoMemory>
    requires { All (λ item. item < length members.old) items.now }
    ensures { OnOk result (IsRemoved items.now members.old removed.old.items members.new removed.new.items) }
{
    for item in items {
        if members[*item] {
            members[*item] = false;
            removed.push(*item)?;
        }
    }
    Ok(())
}
