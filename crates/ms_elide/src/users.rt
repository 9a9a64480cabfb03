//! For each item the items that need it, by which removal finds what falls with it.
ghost use Rattle.std.specs.Prelude.{◌≡◌, ◌++◌, ◌<◌, ◌↔◌, ◌⊎◌, ℕ, [], ◌∷◌, All, Contains, IfOk, OnOk, length, slice_index_or, slice_set};
ghost use Rattle.ms_elide.specs.SelfSupport.{listed, Needs, StaysWithin};

use ms_bits::{List, NoMemory};
use std::alloc::Global;
use std::marker::Model;

/// For each item the items that need it. Contracts see the lists.
#[derive(Drop)]
pub struct Users {
    /// One for each item.
    rows: Vec<Vec<usize>>,
}

impl Model for Users {
    ghost use Rattle.std.specs.Prelude.{ℕ, List, map};

    ghost Value = { List (List ℕ) };

    ghost view = { λ u. map (λ row. row.items) u.rows.items };
}

impl Users {
    /// No users, of so many items.
    fn none(alloc: Global, items: usize) -> Result<Users, NoMemory>
        ensures len { IfOk result (λ u. length u ≡ items) }
        ensures empty { IfOk result (λ u. (item : ℕ) → slice_index_or u item [] ≡ []) }
    {
        let mut rows = Vec::new(alloc);
        for _ in 0..items {
            rows.push(Vec::new(alloc))?;
        }
        Ok(Users { rows })
    }

    /// Adds `user` to those that need an item.
    fn add(&mut self, user: usize, item: usize) -> Result<(), NoMemory>
        requires { item < length self.old }
        ensures { OnOk result (self.new ≡ slice_set self.old item (slice_index_or self.old item [] ++ user ∷ [])) }
    {
        self.rows[item].push(user)?;
        Ok(())
    }

    /// Adds `user` to those that need each of some items.
    fn add_all(&mut self, user: usize, items: &[usize]) -> Result<(), NoMemory>
        requires { All (λ item. item < length self.old) items.now }
        ensures len { OnOk result (length self.new ≡ length self.old) }
        ensures users { OnOk result ((item other : ℕ) → Contains (slice_index_or self.new item []) other
            ↔ (Contains (slice_index_or self.old item []) other ⊎ ((other ≡ user) × Contains items.now item))) }
    {
        for item in items {
            self.add(user, *item)?;
        }
        Ok(())
    }

    /// Adds the item `user` to those that need what its entry has, if it has an entry.
    fn add_entry(&mut self, user: usize, entry: &Option<List<usize>>) -> Result<(), NoMemory>
        requires { All (λ item. item < length self.old) (listed entry.now) }
        ensures len { OnOk result (length self.new ≡ length self.old) }
        ensures users { OnOk result ((item other : ℕ) → Contains (slice_index_or self.new item []) other
            ↔ (Contains (slice_index_or self.old item []) other ⊎ ((other ≡ user) × Contains (listed entry.now) item))) }
    {
        match entry {
            Some(items) => self.add_all(user, items.as_slice()),
            None => Ok(()),
        }
    }

    /// The users of all items.
    pub fn of(alloc: Global, needs: &[Option<List<usize>>]) -> Result<Users, NoMemory>
        requires { StaysWithin needs.now }
        ensures len { IfOk result (λ u. length u ≡ length needs.now) }
        ensures users { IfOk result (λ u. (item user : ℕ) → Contains (slice_index_or u item []) user ↔ Needs needs.now user item) }
    {
        let mut users = Users::none(alloc, needs.len())?;
        for (user, entry) in needs.iter().enumerate() {
            users.add_entry(user, entry)?;
        }
        Ok(users)
    }

    /// The users of an item: those that need it.
    pub fn at(&self, item: usize) -> &[usize]
        requires { item < length self.now }
        ensures { result.now ≡ slice_index_or self.now item [] }
    {
        &self.rows[item]
    }
}
