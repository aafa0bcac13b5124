ghost use Rattle.std.specs.Prelude.{◌≡◌, ◌∷◌, [], ◌++◌, not, false, length, option_copied, slice_get, if◌then◌else◌, IfOk, OnOk, OnErr};
ghost use Rattle.name_table.specs.Names.{has_name, place_of};
ghost use Rattle.scheme_data.specs.Names.{is_same};
ghost use Rattle.c_check.specs.Hints.{with_digit, hint_of, AreHinted};

use name_table::NameTable;
use scheme_data::{OutOfMemory, Text};
use std::alloc::Global;
use std::marker::Model;

/// Distinct names in order of first sight, each found by its bytes. Where they are numbered from 0 on, as a
/// function's variables are, a name's number tells its place; all others stand in a table.
#[derive(Drop)]
pub struct Places {
    alloc: Global,
    // each at the place of its number
    numbered: Vec<Text>,
    // behind those
    others: NameTable,
    len: usize,
}

impl Model for Places {
    ghost use Rattle.std.specs.Prelude.{ℕ, List, ◌++◌};
    ghost use Rattle.std.specs.Coded.{coded_list, coded_ℕ};
    ghost use Rattle.c_check.specs.Hints.{AreCounted};

    ghost Value = { List (List ℕ) };

    ghost coded = { coded_list (coded_list coded_ℕ) };

    ghost view = { λ p. p.numbered.items ++ p.others };

    ghost invariant = { λ p. AreCounted p.numbered.items p.others p.len };
}

fn with_digit(n: usize, byte: u8) -> usize
    ensures { result ≡ with_digit n byte }
{
    if 48 <= byte && byte < 58 {
        n % 65_536 * 10 + (byte - 48) as usize
    } else {
        0
    }
}

// The number at the end of a name, if that is short.
fn hint(name: &[u8]) -> usize
    ensures { result ≡ hint_of name.now }
{
    let mut n = 0;
    for byte in name {
        n = with_digit(n, *byte);
    }
    n
}

fn is_same(a: &[u8], b: &[u8]) -> bool
    ensures { result ≡ is_same a.now b.now }
{
    a == b
}

fn text_at(texts: &[Text], place: usize) -> Option<&Text>
    ensures { option_copied result ≡ slice_get texts.now place }
{
    texts.get(place)
}

fn numbered_place(numbered: &[Text], name: &[u8]) -> Option<usize>
    requires { AreHinted numbered.now }
    ensures { result ≡ place_of name.now numbered.now }
{
    let at = hint(name);
    match text_at(numbered, at) {
        None => None,
        Some(other) => {
            if is_same(name, other.as_bytes()) {
                Some(at)
            } else {
                None
            }
        }
    }
}

impl Places {
    /// No names.
    pub fn new(alloc: Global) -> Places
        ensures { result ≡ [] }
    {
        Places {
            alloc,
            numbered: Vec::new(alloc),
            others: NameTable::new(alloc),
            len: 0,
        }
    }

    /// How many names it has.
    pub fn len(&self) -> usize
        ensures { result ≡ length self.now }
    {
        self.len
    }

    /// The place of a name.
    pub fn position(&self, name: &[u8]) -> Option<usize>
        ensures { result ≡ place_of name.now self.now }
    {
        match numbered_place(&self.numbered, name) {
            Some(at) => Some(at),
            None => match self.others.position(name) {
                None => None,
                Some(at) => Some(self.numbered.len() + at),
            },
        }
    }

    /// Whether it has a name.
    pub fn contains(&self, name: &[u8]) -> bool
        ensures { result ≡ has_name self.now name.now }
    {
        self.position(name).is_some()
    }

    fn add(&mut self, name: &[u8]) -> Result<(), OutOfMemory>
        requires { has_name self.old name.now ≡ false }
        ensures ok { OnOk result (self.new ≡ self.old ++ name.now ∷ []) }
        ensures err { OnErr result (self.new ≡ self.old) }
    {
        let Some(len) = self.len.checked_add(1) else {
            return Err(OutOfMemory);
        };
        if self.len == self.numbered.len() && hint(name) == self.len {
            let text = Text::from_bytes(self.alloc, name)?;
            self.numbered.push(text)?;
            self.len = len;
            return Ok(());
        }
        self.others.insert(name)?;
        self.len = len;
        Ok(())
    }

    /// Puts a name at the end, where it isn't there yet, and says whether it did. Without memory for it nothing changes.
    pub fn insert(&mut self, name: &[u8]) -> Result<bool, OutOfMemory>
        ensures added { IfOk result (λ added. added ≡ not (has_name self.old name.now)) }
        ensures ok { IfOk result (λ added. self.new ≡ (if added then self.old ++ name.now ∷ [] else self.old)) }
        ensures err { OnErr result (self.new ≡ self.old) }
    {
        if self.contains(name) {
            return Ok(false);
        }
        self.add(name)?;
        Ok(true)
    }
}
