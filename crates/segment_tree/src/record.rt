//! What a kind of record is.

ghost use Rattle.std.specs.Prelude.{◌≡◌, ◌≢◌};
ghost use Rattle.segment_tree.specs.Kind.{Kind};

/// A kind of record: its records are a monoid, as two neighbours can be joined into one, and each lies in memory as a
/// plain row.
pub trait Record: Sized {
    /// The plain numbers that a record is kept as.
    type Row: Copy;

    // The blank, the join, and what is written and read.
    ghost kind: { Kind Self Self.Row };

    /// The record that changes nothing.
    fn blank() -> Self
        ensures { result ≡ kind.blank };

    /// The record of two neighbours, `self` on the left.
    fn join(self, right: Self) -> Self
        ensures { result ≡ kind.joined self right };

    // Not `From`, whose conversions lose nothing: some rows make no record.
    /// The record that a row stands for: the blank, if its numbers make no record.
    fn from_row(row: Self::Row) -> Self
        ensures { result ≡ kind.read row };

    // Not `From`, of which generic code knows a relation only: a law more would have to say what is written.
    /// The row that the record is kept as.
    fn to_row(self) -> Self::Row
        ensures { result ≡ kind.written self };

    // The blank changes nothing on either side.
    ghost left: { (x : Self) → kind.joined kind.blank x ≡ x };

    ghost right: { (x : Self) → kind.joined x kind.blank ≡ x };

    // How a row of records is bracketed does not matter.
    ghost associative: { (x y z : Self) → kind.joined (kind.joined x y) z ≡ kind.joined x (kind.joined y z) };

    // What was written is read back.
    ghost kept: { (x : Self) → kind.read (kind.written x) ≡ x };

    // Numbers that make no record read as the blank.
    ghost unmade: { (row : Self.Row) → ((x : Self) → kind.written x ≢ row) → kind.read row ≡ kind.blank };
}
