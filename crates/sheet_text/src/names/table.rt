//! What a table of names can do.

ghost use Rattle.std.specs.Prelude.{◌≡◌, ◌<◌, ◌≤◌, [], ◌∷◌, ◌++◌, length, slice_index_or};
ghost use Rattle.sheet_text.specs.Naming.{texts, names_of, place_of};

use super::Names;
use arrayvec::ArrayVec;

/// The first place in `names` of the name `name`.
fn first_place(names: &[&[u8]], name: &[u8]) -> Option<usize>
    ensures { result ≡ place_of (texts names.now) name.now }
{
    names.iter().position(|x| *x == name)
}

impl<'a> Names<'a> {
    /// No names.
    pub(crate) fn new() -> Names<'a>
        ensures { names_of result ≡ [] }
    {
        Names {
            list: ArrayVec::new(),
        }
    }

    /// How many names there are.
    pub fn len(&self) -> usize
        ensures { result ≡ length (names_of self.now) }
    {
        self.list.len()
    }

    /// Adds a name.
    pub(crate) fn add(&mut self, name: &'a [u8])
        requires { length (names_of self.old) < 64 }
        ensures { names_of self.new ≡ names_of self.old ++ name.now ∷ [] }
    {
        self.list.push(name);
    }

    /// The marker of a name.
    pub(crate) fn find(&self, name: &[u8]) -> Option<u16>
        ensures { result ≡ place_of (names_of self.now) name.now }
    {
        first_place(self.as_slice(), name).map(|place| place as u16)
    }

    /// The names, in the order of their markers.
    pub fn as_slice(&self) -> &[&'a [u8]]
        ensures names { texts result.now ≡ names_of self.now }
        ensures count { (length result.now ≡ length (names_of self.now)) × (length result.now ≤ 64) }
    {
        self.list.as_slice()
    }

    /// The name of a marker; no bytes where there is no such marker.
    pub fn name(&self, marker: u16) -> &'a [u8]
        ensures { result.now ≡ slice_index_or (names_of self.now) marker [] }
    {
        self.as_slice()
            .get(marker as usize)
            .copied()
            .unwrap_or_default()
    }
}
