//! The search structure under `NameTable` and `Names`: a place for each name, whether it is a number or a text, found without a
//! walk over the names. A text's mark is its hash (no instruction's mark): of the texts that share one the first is found by it,
//! the others in a tree. Numbers that ascend are found in a list, the others in a tree.
ghost use Rattle.std.specs.Prelude.{◌≡◌, ◌≤◌, ◌+◌, ◌-◌, ℕ, None, Some, IsTrue, if◌then◌else◌, length, slice_get, IfErr, IfNone, IfOk, IfSome, OnErr, OnOk};
ghost use Rattle.ms_ir.specs.{declared.syntax.Name.{Name}, declared.syntax.Name.TheVariants.{Number, Text}};
ghost use Rattle.ms_ir.specs.Names.{name_eq};
ghost use Rattle.ms_check_tables.specs.Index.{text_mark, place_from, taken_at, place_few};

use crate::capacity::make_room;
use ms_bits::NoMemory;
use ms_ir::Name;
use std::alloc::Global;
use std::collections::{BTreeMap, HashMap};
use std::hash::{FoldHasher, Hasher};

/// The most numbers that may be missing before one that is put in, for it to stand with those before it.
const MOST_MISSING: usize = 16;

/// The most texts that are compared one by one. So few take one block of the heap, and no mark is counted.
const FEW: usize = 4;

/// For each mark the first text with that mark, and its place.
type Marked<'m> = HashMap<u64, (&'m [u8], usize)>;

/// A place for each name that was put in.
pub struct Index<'m> {
    /// The first number of those that stand near one another.
    first: u32,
    /// The places of the numbers from the first on, as far as they ascend and few are missing between two of them. A
    /// function's numbers do, where they stand as they are printed.
    near: Vec<Option<usize>>,
    /// The places of the other numbers.
    numbers: BTreeMap<u32, usize>,
    /// Texts with their places: all of them while they are few, and later those that got no mark.
    few: Vec<(&'m [u8], usize)>,
    /// The places of the texts by their marks, once there are many: a mark is found at once, and few texts share one.
    marked: Option<Box<Marked<'m>>>,
    /// The places of the texts after another with their mark.
    texts: BTreeMap<&'m [u8], usize>,
}

/// Lengthens a list of places by so many numbers that are missing, which have none.
#[tactic(auto, using(crate::proofs::Near::none_added))]
fn push_missing(places: &mut Vec<Option<usize>>, count: usize) -> Result<(), NoMemory>
    ensures { (first n : ℕ) → place_from first places.new.items n ≡ place_from first places.old.items n }
{
    for _ in 0..count {
        places.push(None)?;
    }
    Ok(())
}

/// The mark of a text: its hash, by which most texts are told apart.
fn mark_of(text: &[u8]) -> u64
    ensures { result ≡ text_mark text.now }
{
    let mut hasher = FoldHasher::default();
    hasher.write(text);
    hasher.finish()
}

/// What stands at a place of a list of places: none where it isn't taken, or past the end.
fn taken(places: &[Option<usize>], place: usize) -> Option<usize>
    ensures { result ≡ taken_at places.now place }
{
    match places.get(place) {
        Some(taken) => *taken,
        None => None,
    }
}

/// The place of a text among few: that of the last which is equal.
#[tactic(auto, using(crate::proofs::Marked::few_hit, crate::proofs::Marked::few_miss, crate::proofs::Marked::few_end))]
fn few_place(few: &[(&[u8], usize)], text: &[u8]) -> Option<usize>
    ensures { result ≡ place_few None few.now text.now }
{
    let mut found = None;
    for entry in few {
        if entry.0 == text {
            found = Some(entry.1);
        }
    }
    found
}

impl<'m> Index<'m> {
    ghost use Rattle.ms_check_tables.specs.Index.{text_mark, place_from, first_marked, place_marked, place_few, place_unmarked, place_in};

    /// An index of no name.
    pub fn new(alloc: Global) -> Index<'m>
        ensures { (x : Name) → place_in result x ≡ None }
    {
        Index {
            first: 0,
            near: Vec::new(alloc),
            numbers: BTreeMap::new(alloc),
            few: Vec::new(alloc),
            marked: None,
            texts: BTreeMap::new(alloc),
        }
    }

    /// The place of a number, if it stands with those near the first.
    #[tactic(auto, using(crate::proofs::Near::before_first, crate::proofs::Near::after_first))]
    fn near_place(&self, number: u32) -> Option<usize>
        ensures { result ≡ place_from self.now.first self.now.near.items number }
    {
        if number < self.first {
            None
        } else {
            taken(self.near.as_slice(), (number - self.first) as usize)
        }
    }

    /// The place of a text, if it is the first with its mark: that which is found by its hash.
    fn marked_place(&self, text: &[u8]) -> Option<usize>
        ensures { result ≡ place_marked self.now.marked text.now }
    {
        match &self.marked {
            Some(marked) => {
                match marked.get(&mark_of(text)) {
                    Some(first) => { if first.0 == text { Some(first.1) } else { None } }
                    None => None,
                }
            }
            None => None,
        }
    }

    /// The place of a text that isn't the first with its mark.
    fn unmarked_place(&self, text: &[u8]) -> Option<usize>
        ensures { result ≡ place_unmarked self.now text.now }
    {
        match few_place(self.few.as_slice(), text) {
            Some(place) => Some(place),
            None => self.texts.get(text).copied(),
        }
    }

    /// The place of a text. Not inlined, so that a number is found without room for what a text needs.
    #[inline(never)]
    fn text_place(&self, text: &[u8]) -> Option<usize>
        ensures { result ≡ place_in self.now (Text text.now) }
    {
        match self.marked_place(text) {
            Some(place) => Some(place),
            None => self.unmarked_place(text),
        }
    }

    /// The place of a number.
    fn number_place(&self, number: u32) -> Option<usize>
        ensures { result ≡ place_in self.now (Number number) }
    {
        match self.near_place(number) {
            Some(place) => Some(place),
            None => self.numbers.get(&number).copied(),
        }
    }

    /// The place of a name, if it was put in.
    pub fn get(&self, name: &Name) -> Option<usize>
        ensures { result ≡ place_in self.now name.now }
    {
        match name {
            Name::Number(number) => self.number_place(*number),
            Name::Text(bytes) => self.text_place(bytes.as_slice()),
        }
    }

    /// How many numbers are missing before this one, where they are few, and else 0.
    fn missing(&self, number: u32) -> usize
        ensures { result ≤ 16 }
    {
        if number < self.first {
            return 0;
        }
        let count = ((number - self.first) as usize).saturating_sub(self.near.len());
        if count <= MOST_MISSING { count } else { 0 }
    }

    /// Whether a number is the next of those near the first.
    fn is_next(&self, number: u32) -> bool
        ensures { IsTrue result → number ≡ self.now.first + length self.now.near.items }
    {
        number >= self.first && (number - self.first) as usize == self.near.len()
    }

    /// Lets a number be the first of those that stand near one another where there are none.
    fn begin_at(&mut self, number: u32)
        ensures { (x : Name) → place_in self.new x ≡ place_in self.old x }
    {
        if self.near.is_empty() {
            self.first = number;
        }
    }

    /// Lengthens the places near the first up to a number that isn't far after them.
    fn reach(&mut self, number: u32) -> Result<(), NoMemory>
        ensures { (x : Name) → place_in self.new x ≡ place_in self.old x }
    {
        self.begin_at(number);
        make_room(&mut self.near)?;
        let count = self.missing(number);
        push_missing(&mut self.near, count)
    }

    /// Puts in a number that is the next of those near the first.
    fn insert_next(&mut self, number: u32, place: usize) -> Result<(), NoMemory>
        requires { number ≡ self.old.first + length self.old.near.items }
        ensures placed { OnOk result ((x : Name) → place_in self.new x ≡ (if name_eq (Number number) x then Some place else place_in self.old x)) }
        ensures err { OnErr result ((x : Name) → place_in self.new x ≡ place_in self.old x) }
    {
        self.near.push(Some(place))?;
        Ok(())
    }

    /// Puts in a number that isn't the next of those near the first: into the tree.
    fn insert_other(&mut self, number: u32, place: usize) -> Result<(), NoMemory>
        requires { place_in self.old (Number number) ≡ None }
        ensures placed { OnOk result ((x : Name) → place_in self.new x ≡ (if name_eq (Number number) x then Some place else place_in self.old x)) }
        ensures err { OnErr result ((x : Name) → place_in self.new x ≡ place_in self.old x) }
    {
        self.numbers.insert(number, place)?;
        Ok(())
    }

    /// Puts in a number that has no place yet.
    fn insert_number(&mut self, number: u32, place: usize) -> Result<(), NoMemory>
        requires { place_in self.old (Number number) ≡ None }
        ensures placed { OnOk result ((x : Name) → place_in self.new x ≡ (if name_eq (Number number) x then Some place else place_in self.old x)) }
        ensures err { OnErr result ((x : Name) → place_in self.new x ≡ place_in self.old x) }
    {
        self.reach(number)?;
        if self.is_next(number) {
            self.insert_next(number, place)?;
            Ok(())
        } else {
            self.insert_other(number, place)?;
            Ok(())
        }
    }

    /// Puts in a text that has no place yet, while there are few.
    fn insert_few(&mut self, text: &'m [u8], place: usize) -> Result<(), NoMemory>
        requires { place_in self.old (Text text.now) ≡ None }
        ensures placed { OnOk result ((x : Name) → place_in self.new x ≡ (if name_eq (Text text.now) x then Some place else place_in self.old x)) }
        ensures err { OnErr result ((x : Name) → place_in self.new x ≡ place_in self.old x) }
    {
        self.few.push((text, place))?;
        Ok(())
    }

    /// Puts in a text that has no place yet, after another with its mark.
    fn insert_after(&mut self, text: &'m [u8], place: usize) -> Result<(), NoMemory>
        requires { place_in self.old (Text text.now) ≡ None }
        ensures placed { OnOk result ((x : Name) → place_in self.new x ≡ (if name_eq (Text text.now) x then Some place else place_in self.old x)) }
        ensures err { OnErr result ((x : Name) → place_in self.new x ≡ place_in self.old x) }
    {
        self.texts.insert(text, place)?;
        Ok(())
    }

    /// Puts in a text that has no place yet, without its mark.
    fn insert_unmarked(&mut self, text: &'m [u8], place: usize) -> Result<(), NoMemory>
        requires { place_in self.old (Text text.now) ≡ None }
        ensures placed { OnOk result ((x : Name) → place_in self.new x ≡ (if name_eq (Text text.now) x then Some place else place_in self.old x)) }
        ensures err { OnErr result ((x : Name) → place_in self.new x ≡ place_in self.old x) }
    {
        if self.marked.is_none() {
            self.insert_few(text, place)
        } else {
            self.insert_after(text, place)
        }
    }

    /// Puts in a text that has no place yet, and is the first with its mark.
    fn insert_marked(&mut self, mark: u64, text: &'m [u8], place: usize) -> Result<(), NoMemory>
        requires mark { mark ≡ text_mark text.now }
        requires first { first_marked self.old.marked mark ≡ None }
        requires absent { place_in self.old (Text text.now) ≡ None }
        ensures placed { OnOk result ((x : Name) → place_in self.new x ≡ (if name_eq (Text text.now) x then Some place else place_in self.old x)) }
        ensures err { OnErr result ((x : Name) → place_in self.new x ≡ place_in self.old x) }
    {
        match &mut self.marked {
            Some(marked) => {
                marked.insert(mark, (text, place))?;
                Ok(())
            }
            None => self.insert_unmarked(text, place),
        }
    }

    /// Begins to find texts by their marks.
    fn begin_marks(&mut self) -> Result<(), NoMemory>
        requires { self.old.marked ≡ None }
        ensures { (x : Name) → place_in self.new x ≡ place_in self.old x }
    {
        let alloc = *self.near.allocator();
        self.marked = Some(Box::new(alloc, HashMap::new(alloc))?);
        Ok(())
    }

    /// Moves the last of few texts to those that are found by their marks, if no text with its mark is there.
    fn mark_text(&mut self, text: &'m [u8], place: usize) -> Result<(), NoMemory>
        requires { slice_get self.old.few.items (length self.old.few.items - 1) ≡ Some (text, place) }
        ensures { (x : Name) → place_in self.new x ≡ place_in self.old x }
    {
        match &mut self.marked {
            Some(marked) => {
                let mark = mark_of(text);
                if marked.contains_key(&mark) {
                    return Ok(());
                }
                marked.insert(mark, (text, place))?;
                self.few.pop();
                Ok(())
            }
            None => Ok(()),
        }
    }

    /// As `mark_text`, where there is a last text.
    fn mark_last(&mut self) -> Result<(), NoMemory>
        ensures { (x : Name) → place_in self.new x ≡ place_in self.old x }
    {
        match self.few.as_slice().last() {
            Some(entry) => {
                let text = entry.0;
                let place = entry.1;
                self.mark_text(text, place)
            }
            None => Ok(()),
        }
    }

    /// Moves few texts to those that are found by their marks, as far as no two of them share one.
    fn mark_texts(&mut self) -> Result<(), NoMemory>
        ensures { (x : Name) → place_in self.new x ≡ place_in self.old x }
    {
        for _ in 0..FEW {
            self.mark_last()?;
        }
        Ok(())
    }

    /// Where the texts aren't few any more, begins to find them by their marks.
    fn mark_many(&mut self) -> Result<(), NoMemory>
        ensures { (x : Name) → place_in self.new x ≡ place_in self.old x }
    {
        if self.marked.is_none() && self.few.len() >= FEW {
            self.begin_marks()?;
            self.mark_texts()?;
        }
        Ok(())
    }

    /// The place of a text that isn't the first with its mark; where it has none, the answer is `mark`, which is handed through.
    fn seek_further(&self, text: &[u8], mark: Option<u64>) -> Result<usize, Option<u64>>
        requires { place_marked self.now.marked text.now ≡ None }
        ensures placed { IfOk result (λ place. place_in self.now (Text text.now) ≡ Some place) }
        ensures absent { OnErr result (place_in self.now (Text text.now) ≡ None) }
        ensures given { IfErr result (λ m. m ≡ mark) }
    {
        match self.unmarked_place(text) {
            Some(place) => Ok(place),
            None => Err(mark),
        }
    }

    /// The place of a text. Where it has none: its mark if no text has that yet, so that it can be put in under it, else `None`.
    fn seek(&self, text: &[u8]) -> Result<usize, Option<u64>>
        ensures placed { IfOk result (λ place. place_in self.now (Text text.now) ≡ Some place) }
        ensures absent { OnErr result (place_in self.now (Text text.now) ≡ None) }
        ensures first { IfErr result (λ m. IfSome m (λ mark. (mark ≡ text_mark text.now) × (first_marked self.now.marked mark ≡ None))) }
    {
        match &self.marked {
            Some(marked) => {
                let mark = mark_of(text);
                match marked.get(&mark) {
                    Some(first) => {
                        if first.0 == text {
                            Ok(first.1)
                        } else {
                            self.seek_further(text, None)
                        }
                    }
                    None => self.seek_further(text, Some(mark)),
                }
            }
            None => self.seek_further(text, None),
        }
    }

    /// Puts in a text that has no place yet, under `mark` where that is given, as no text has it.
    fn insert_text(
        &mut self,
        text: &'m [u8],
        mark: Option<u64>,
        place: usize,
    ) -> Result<(), NoMemory>
        requires absent { place_in self.old (Text text.now) ≡ None }
        requires first { IfSome mark (λ m. (m ≡ text_mark text.now) × (first_marked self.old.marked m ≡ None)) }
        ensures placed { OnOk result ((x : Name) → place_in self.new x ≡ (if name_eq (Text text.now) x then Some place else place_in self.old x)) }
        ensures err { OnErr result ((x : Name) → place_in self.new x ≡ place_in self.old x) }
    {
        match mark {
            Some(mark) => self.insert_marked(mark, text, place),
            None => self.insert_unmarked(text, place),
        }
    }

    /// The place of a text; where it has none yet, it is put in. Not inlined, as `text_place`.
    #[inline(never)]
    fn put_text(&mut self, text: &'m [u8], place: usize) -> Result<Option<usize>, NoMemory>
        ensures found { IfOk result (λ r. r ≡ place_in self.old (Text text.now)) }
        ensures kept { IfOk result (λ r. IfSome r (λ _. (x : Name) → place_in self.new x ≡ place_in self.old x)) }
        ensures placed { IfOk result (λ r. IfNone r ((x : Name) → place_in self.new x ≡ (if name_eq (Text text.now) x then Some place else place_in self.old x))) }
        ensures err { OnErr result ((x : Name) → place_in self.new x ≡ place_in self.old x) }
    {
        self.mark_many()?;
        match self.seek(text) {
            Ok(found) => Ok(Some(found)),
            Err(mark) => {
                self.insert_text(text, mark, place)?;
                Ok(None)
            }
        }
    }

    /// Whether a number is the next of those near the first, where there are any.
    fn follows(&self, number: u32) -> bool
        ensures { IsTrue result → number ≡ self.now.first + length self.now.near.items }
    {
        !self.near.is_empty() && self.is_next(number)
    }

    /// The place of the number that is the next of those near the first, if it stands with the others.
    #[tactic(auto, using(crate::proofs::Near::after_last))]
    fn next_place(&self, number: u32) -> Option<usize>
        requires { number ≡ self.now.first + length self.now.near.items }
        ensures { result ≡ place_in self.now (Number number) }
    {
        self.numbers.get(&number).copied()
    }

    /// As `put_number`, for the number that is the next of those near the first.
    fn put_next(&mut self, number: u32, place: usize) -> Result<Option<usize>, NoMemory>
        requires { number ≡ self.old.first + length self.old.near.items }
        ensures found { IfOk result (λ r. r ≡ place_in self.old (Number number)) }
        ensures kept { IfOk result (λ r. IfSome r (λ _. (x : Name) → place_in self.new x ≡ place_in self.old x)) }
        ensures placed { IfOk result (λ r. IfNone r ((x : Name) → place_in self.new x ≡ (if name_eq (Number number) x then Some place else place_in self.old x))) }
        ensures err { OnErr result ((x : Name) → place_in self.new x ≡ place_in self.old x) }
    {
        match self.next_place(number) {
            Some(found) => Ok(Some(found)),
            None => {
                self.insert_next(number, place)?;
                Ok(None)
            }
        }
    }

    /// As `put_number`, for any number. Not inlined, since few numbers of a function come here.
    #[inline(never)]
    fn put_apart(&mut self, number: u32, place: usize) -> Result<Option<usize>, NoMemory>
        ensures found { IfOk result (λ r. r ≡ place_in self.old (Number number)) }
        ensures kept { IfOk result (λ r. IfSome r (λ _. (x : Name) → place_in self.new x ≡ place_in self.old x)) }
        ensures placed { IfOk result (λ r. IfNone r ((x : Name) → place_in self.new x ≡ (if name_eq (Number number) x then Some place else place_in self.old x))) }
        ensures err { OnErr result ((x : Name) → place_in self.new x ≡ place_in self.old x) }
    {
        match self.number_place(number) {
            Some(found) => Ok(Some(found)),
            None => {
                self.insert_number(number, place)?;
                Ok(None)
            }
        }
    }

    /// The place of a number; where it has none yet, it is put in.
    fn put_number(&mut self, number: u32, place: usize) -> Result<Option<usize>, NoMemory>
        ensures found { IfOk result (λ r. r ≡ place_in self.old (Number number)) }
        ensures kept { IfOk result (λ r. IfSome r (λ _. (x : Name) → place_in self.new x ≡ place_in self.old x)) }
        ensures placed { IfOk result (λ r. IfNone r ((x : Name) → place_in self.new x ≡ (if name_eq (Number number) x then Some place else place_in self.old x))) }
        ensures err { OnErr result ((x : Name) → place_in self.new x ≡ place_in self.old x) }
    {
        if self.follows(number) {
            self.put_next(number, place)
        } else {
            self.put_apart(number, place)
        }
    }

    /// The place of a name; where it has none yet, it is put in, with this place.
    pub fn put(&mut self, name: &'m Name, place: usize) -> Result<Option<usize>, NoMemory>
        ensures found { IfOk result (λ r. r ≡ place_in self.old name.now) }
        ensures kept { IfOk result (λ r. IfSome r (λ _. (x : Name) → place_in self.new x ≡ place_in self.old x)) }
        ensures placed { IfOk result (λ r. IfNone r ((x : Name) → place_in self.new x ≡ (if name_eq name.now x then Some place else place_in self.old x))) }
        ensures err { OnErr result ((x : Name) → place_in self.new x ≡ place_in self.old x) }
    {
        match name {
            Name::Number(number) => self.put_number(*number, place),
            Name::Text(bytes) => self.put_text(bytes.as_slice(), place),
        }
    }
}

// By hand, as in `ms_ir`: one call for the prover.
impl Drop for Index<'_> {
    fn drop(self) {
        let Index {
            first: _,
            near: _,
            numbers: _,
            few: _,
            marked: _,
            texts: _,
        } = self;
    }
}
