//! A segment tree over 256 leaves, kept in 512 lent rows, for any kind of record.

ghost use Rattle.std.specs.Prelude.{◌≡◌, ◌<◌, ◌≤◌, length, replicate, slice_set};
ghost use Rattle.segment_tree.specs.Tree.{joined_at, leaves, record_at, total, AllBlank, LeafSet, Sound};

use crate::record::Record;

/// How many leaves a tree has.
pub const LEAVES: usize = 256;

/// How many rows a tree takes.
pub const PLACES: usize = 512;

// The place of the join of all leaves.
const ROOT: usize = 1;

// A tree hands the rows it was lent to the functions below. A slice has no invariant, so those that work on places ask for room.

// Writes into a place the join of its two children.
fn join_children<K: Record>(places: &mut [K::Row], place: usize)
    requires room { 512 ≤ length places.old }
    requires inner { place < 256 }
    ensures { places.new ≡ slice_set places.old place (joined_at K.kind places.old place) }
{
    let left = K::from_row(places[2 * place]);
    let right = K::from_row(places[2 * place + 1]);
    places[place] = left.join(right).to_row();
}

// Writes the record into a leaf, and joins anew what is above it, up to the root.
fn set_leaf<K: Record>(places: &mut [K::Row], leaf: u8, record: K)
    requires room { 512 ≤ length places.old }
    ensures { LeafSet K.kind places.old places.new leaf «record» }
{
    let mut place = LEAVES + usize::from(leaf);
    places[place] = record.to_row();
    // A range would count heights and shift by them, which hides that the climb goes from a place to its parent.
    while place > ROOT {
        place /= 2;
        join_children::<K>(places, place);
    }
}

// The record at the root: in a sound tree, the join of all leaves in order.
fn total_of<K: Record>(places: &[K::Row]) -> K
    requires room { 512 ≤ length places.now }
    ensures root { result ≡ record_at K.kind places.now 1 }
    ensures total { Sound K.kind places.now → result ≡ total K.kind (leaves K.kind places.now) }
{
    K::from_row(places[ROOT])
}

// Writes the value into each row. A slice's own `fill` asks for a clone that is known never to fail.
fn fill<T: Copy>(rows: &mut [T], value: T)
    ensures { rows.new ≡ replicate (length rows.old) value }
{
    for row in rows.iter_mut() {
        *row = value;
    }
}

// Writes the blank into every place.
fn blank_places<K: Record>(places: &mut [K::Row])
    requires room { 512 ≤ length places.old }
    ensures { AllBlank K.kind places.old places.new }
{
    fill(&mut places[..PLACES], K::blank().to_row());
}

/// A tree of one kind of record over rows that it is lent, and the guard of these rows: it begins blank, and when it ends,
/// on whichever way out, it leaves its places blank.
// The rows are lent, and as many as ever: the planner allocates no memory. Room and soundness are no invariants of the type: a function
// that is given a tree with an invariant cannot end it, as the borrow checker does not cover that yet.
pub struct SegmentTree<'a, K: Record> {
    places: &'a mut [K::Row],
}

// `same` says that the tree holds on to the rows it was lent, so that its end is known to blank those: no type can say it.
impl<'a, K: Record> SegmentTree<'a, K> {
    /// A tree of blanks over the first 512 of the rows.
    pub fn over(rows: &'a mut [K::Row]) -> SegmentTree<'a, K>
        requires room { 512 ≤ length rows.old }
        ensures blank { AllBlank K.kind rows.old result.places.now }
        ensures same { result.places.ghost_name ≡ rows.entry.ghost_name }
    {
        blank_places::<K>(rows);
        SegmentTree { places: rows }
    }

    /// Blanks every leaf.
    pub fn blank(&mut self)
        requires room { 512 ≤ length self.old.places.now }
        ensures blank { AllBlank K.kind self.old.places.now self.new.places.now }
        ensures same { self.new.places.ghost_name ≡ self.old.places.ghost_name }
    {
        blank_places::<K>(self.places);
    }

    /// Puts the record at a leaf. Costs nine writes and eight joins.
    pub fn set(&mut self, leaf: u8, record: K)
        requires room { 512 ≤ length self.old.places.now }
        ensures set { LeafSet K.kind self.old.places.now self.new.places.now leaf «record» }
        ensures same { self.new.places.ghost_name ≡ self.old.places.ghost_name }
    {
        set_leaf(self.places, leaf, record);
    }

    /// The join of all leaves in order. Costs one read.
    pub fn total(&self) -> K
        requires room { 512 ≤ length self.now.places.now }
        ensures root { result ≡ record_at K.kind self.now.places.now 1 }
        ensures total { Sound K.kind self.now.places.now → result ≡ total K.kind (leaves K.kind self.now.places.now) }
    {
        total_of(self.places)
    }
}

// What the tree was lent is blank when it is given back.
impl<K: Record> Drop for SegmentTree<'_, K> {
    fn drop(self)
        requires room { 512 ≤ length self.places.now }
        ensures { AllBlank K.Record.kind self.entry.places.now self.exit.0.now }
    {
        let SegmentTree { places } = self;
        blank_places::<K>(places);
    }
}
