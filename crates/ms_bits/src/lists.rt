//! A list whose value in a contract is the list of its items.
ghost use Rattle.std.specs.Prelude.{◌≡◌, ◌<◌, ◌^◌, All};
ghost use Rattle.std.specs.Cmp.Lexicographic.{pointwise, slice_cmp, slice_partial_cmp, lists_per, lists_equiv, lists_po, lists_total, lists_agrees, lists_ties};

use std::cmp::Ordering;
use std::marker::Model;

/// A list over a `Vec`. Contracts see the list of its items: capacity is no part of its value, so two
/// lists with the same items are equal values.
#[derive(Debug, Drop)]
pub struct List<T> {
    items: Vec<T>,
}

impl<T> Model for List<T> {
    ghost use Rattle.std.specs.{Prelude.{List as ListOf}, Coded.{coded_list}};

    ghost Value = { ListOf T };

    ghost coded = { coded_list T.code };

    ghost view = { λ l. l.items.items };
}

impl<T> List<T> {
    /// The list of the items of `v`. Takes no memory.
    pub fn from_vec(v: Vec<T>) -> List<T>
        ensures { result ≡ v.items }
    {
        List { items: v }
    }

    /// The items, in order.
    pub fn as_slice(&self) -> &[T]
        ensures { result.now ≡ self.now }
    {
        &self.items
    }

    /// The items as a `Vec`. Takes no memory.
    pub fn into_vec(self) -> Vec<T>
        ensures { result.items ≡ self }
    {
        let List { items } = self;
        items
    }
}

/// A list of bytes.
pub type Bytes = List<u8>;

/// A law: each byte of a list is below 256. A caller needs it where it has no slice of the list at hand, since
/// a slice tells it as well.
pub fn law_bytes_in_range(bytes: &Bytes)
    ensures { All (λ b. b < 256) bytes.now }
{
    let items = bytes.as_slice();
    let _count = items.len();
}

/// A law: each item of a list of words is below 2 to the 64, as the items of a slice are.
pub fn law_words_in_range(words: &List<u64>)
    ensures { All (λ w. w < 2 ^ 64) words.now }
{
    let items = words.as_slice();
    let _count = items.len();
}

impl<T: PartialEq> PartialEq for List<T> {
    ghost eq = { pointwise T.eq };

    ghost laws = { lists_per T.laws };

    fn eq(&self, other: &Self) -> bool {
        self.as_slice() == other.as_slice()
    }
}

impl<T: Eq> Eq for List<T> {
    ghost laws = { lists_equiv T.Eq.laws };
}

impl<T: PartialOrd> PartialOrd for List<T> {
    ghost partial_cmp = { slice_partial_cmp T.partial_cmp };

    ghost laws = { lists_po T.PartialOrd.laws };

    fn partial_cmp(&self, other: &Self) -> Option<Ordering> {
        self.as_slice().partial_cmp(&other.as_slice())
    }
}

impl<T: Ord> Ord for List<T> {
    ghost cmp = { slice_cmp T.cmp };

    ghost total = { lists_total T.total };

    ghost matches_partial_cmp = { lists_agrees T.matches_partial_cmp };

    ghost matches_eq = { lists_ties T.cmp T.matches_eq };

    fn cmp(&self, other: &Self) -> Ordering {
        self.as_slice().cmp(&other.as_slice())
    }
}
