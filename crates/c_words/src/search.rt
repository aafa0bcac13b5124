// Tables by name, searched while the bytes of a word come.
ghost use Rattle.std.specs.Prelude.{◌≡◌, ◌∷◌, [], ℕ, List, IsTrue, drop, true};
ghost use Rattle.c_tree.specs.Names.{begins_with};
ghost use Rattle.c_words.specs.Walks.{ended};
ghost use Rattle.c_words.specs.Search.{begins_below, behind, are_in_order, that_go_on, with_rest};

use crate::cursor::Cursor;

/// A row of a table by name.
pub trait Named: Copy {
    /// Its name.
    ghost spelled: { Self → List ℕ };

    /// Its name.
    fn name(&self) -> &'static [u8]
        ensures { result.now ≡ spelled self.now };
}

/// The rows of a table whose names begin with the bytes so far, of which there are `depth`.
#[derive(Drop)]
pub struct Search<T: 'static> {
    pub rows: &'static [T],
    pub depth: usize,
}

fn is_below(name: &[u8], depth: usize, byte: u8) -> bool
    ensures { result ≡ begins_below byte (drop depth name.now) }
{
    match name.get(depth) {
        Some(found) => *found < byte,
        None => true,
    }
}

fn goes_on(name: &[u8], depth: usize, byte: u8) -> bool
    ensures { result ≡ begins_with byte (drop depth name.now) }
{
    match name.get(depth) {
        Some(found) => byte == *found,
        None => false,
    }
}

// Whether all names go on with this byte: between the first and the last no other can stand.
fn all_go_on<T: Named>(rows: &[T], depth: usize, byte: u8) -> bool
    requires { IsTrue (are_in_order T.spelled depth rows.now) }
    ensures { result ≡ true → rows.now ≡ that_go_on T.spelled depth byte rows.now }
{
    let Some(first) = rows.first() else {
        return false;
    };
    if !goes_on(first.name(), depth, byte) {
        return false;
    }
    let Some(last) = rows.last() else {
        return false;
    };
    goes_on(last.name(), depth, byte)
}

// The rows whose names go on with this byte.
fn rows_with<T: Named>(rows: &'static [T], depth: usize, byte: u8) -> &'static [T]
    requires { IsTrue (are_in_order T.spelled depth rows.now) }
    ensures { result.now ≡ that_go_on T.spelled depth byte rows.now }
{
    if all_go_on(rows, depth, byte) {
        return rows;
    }
    let start = rows.partition_point(|row| is_below(row.name(), depth, byte));
    let rest = &rows[start..];
    let end = rest.partition_point(|row| goes_on(row.name(), depth, byte));
    &rest[..end]
}

impl<T: Named> Search<T> {
    /// All rows of a table, whose names begin with the same `depth` bytes.
    pub fn new(rows: &'static [T], depth: usize) -> Search<T>
        ensures rows { result.rows.now ≡ rows.now }
        ensures depth { result.depth ≡ depth }
    {
        Search { rows, depth }
    }

    /// Keeps the rows whose names go on with this byte.
    pub fn narrow(&mut self, byte: u8)
        requires { IsTrue (are_in_order T.spelled self.old.depth self.old.rows.now) }
        ensures order { IsTrue (are_in_order T.spelled self.new.depth self.new.rows.now) }
        ensures rest { (rest : List ℕ) → with_rest T.spelled self.new.depth rest self.new.rows.now ≡ with_rest T.spelled self.old.depth (byte ∷ rest) self.old.rows.now }
    {
        self.rows = rows_with(self.rows, self.depth, byte);
        let Some(row) = self.rows.first() else {
            return;
        };
        // It always is; so the sum is in range.
        if self.depth < row.name().len() {
            self.depth += 1;
        }
    }

    /// The row whose name is just the bytes so far.
    pub fn found(&self) -> Option<T>
        requires { IsTrue (are_in_order T.spelled self.now.depth self.now.rows.now) }
        ensures { result ≡ with_rest T.spelled self.now.depth [] self.now.rows.now }
    {
        // It would stand first.
        let row = *self.rows.first()?;
        if row.name().len() <= self.depth {
            Some(row)
        } else {
            None
        }
    }

    /// The row whose name is the bytes so far and the rest of the word.
    pub fn find(mut self, cursor: &mut Cursor<'_>) -> Option<T>
        requires { IsTrue (are_in_order T.spelled self.depth self.rows.now) }
        ensures row { result ≡ with_rest T.spelled self.entry.depth cursor.old.left self.entry.rows.now }
        ensures end { cursor.new ≡ ended cursor.old }
    {
        'bytes: while let Some(byte) = cursor.next() {
            self.narrow(byte);
            cursor.advance();
        }
        self.found()
    }
}
